use crate::tests::asserts::holds;
use crate::tests::dags::{ONE_TASK, tasks};
use crate::tests::fresh::with_new_state;
use crate::tests::openings::{
    add_dag_of_one, add_g, add_pool, add_pooled, add_r, add_runs_of_one, add_scheduled, at,
};
use crate::tests::seen::are;
use crate::tests::steps::{Step, play};
use af_graph::TaskState;
use af_names::Preset;
use af_runs::RunState;
use af_sched::{Outcome, State};
use std::alloc::Global;
use std::process::Abort;
use std::test::Fail;

const NEW_YEAR: &str = "2024-01-01T00:00:00Z";

const ONE_SECOND_LATER: &str = "2024-01-01T00:00:01Z";

const TWO_SECONDS_LATER: &str = "2024-01-01T00:00:02Z";

const THREE_SECONDS_LATER: &str = "2024-01-01T00:00:03Z";

const SIXTEEN_HOURS_LATER: &str = "2024-01-01T16:00:00Z";

const ONE_DAY_LATER: &str = "2024-01-02T00:00:00Z";

const EPOCH: &str = "1970-01-01T00:00:00Z";

const BEFORE_THE_RETRY: &str = "1970-01-01T00:04:59.999999Z";

const THE_RETRY: &str = "1970-01-01T00:05:00Z";

const AFTER_THE_RETRY: &str = "1970-01-01T00:05:01Z";

/// Which DAGs there are, and whether they are paused; whose runs are added, with which ids and dates.
const DAGS: &[(&str, bool)] = &[("g", false), ("h", true)];

const RUNS: &[(&str, &str, u64)] = &[("g", "a", 0), ("h", "a", 0), ("g", "b", 1), ("g", "c", 2)];

const UNTRIED: &[TaskState] = &[TaskState::NoStatus];

const TWO_RUN: &[RunState] = &[
    RunState::Running,
    RunState::Queued,
    RunState::Running,
    RunState::Queued,
];

const ONE_HAS_ENDED: &[RunState] = &[
    RunState::Success,
    RunState::Queued,
    RunState::Running,
    RunState::Queued,
];

const ANOTHER_STARTS: &[RunState] = &[
    RunState::Success,
    RunState::Queued,
    RunState::Running,
    RunState::Running,
];

const RUNS_START_BY_NUMBER: &[Step] = &[
    Step::Changes(NEW_YEAR),
    Step::States(TWO_RUN),
    Step::Ends("t", Outcome::Success, 5),
    Step::Changes(ONE_SECOND_LATER),
    Step::States(ONE_HAS_ENDED),
    Step::Changes(TWO_SECONDS_LATER),
    Step::States(ANOTHER_STARTS),
    Step::Rests(THREE_SECONDS_LATER),
];

/// Adds two DAGs of one task, two runs of each at a time, of which h is paused, and queued runs 1, 3, 4 of g and 2 of h.
fn add_two_dags(alloc: Global, state: &mut State) -> Result<(), Fail> {
    for (dag_id, is_paused) in DAGS {
        add_dag_of_one(alloc, state, dag_id, 1, *is_paused)?;
    }
    add_runs_of_one(alloc, state, RUNS, TaskState::NoStatus)
}

#[test]
fn runs_start_by_number(rt: HostRuntime) -> Result<(), Fail> {
    with_new_state(&rt, start_by_number)
}

/// Ends the test where the runs of two DAGs, added to a new state, do not start by number.
fn start_by_number(rt: &impl Abort, alloc: Global, state: &mut State) -> Result<(), Fail> {
    add_two_dags(alloc, state)?;
    play(
        rt,
        alloc,
        state,
        RUNS_START_BY_NUMBER,
        "runs start by number",
    )
}

const FOUR_IN_A_POOL: &[(&str, u64, i32)] = &[("x", 3, 5), ("y", 1, 1), ("z", 1, 1), ("w", 1, 1)];

const THREE_IN_A_ROW: &[(&str, &[&str])] = &[("z", &["y"]), ("y", &["x"]), ("x", &[])];

const FOUR_UNTRIED: &[TaskState] = &[
    TaskState::NoStatus,
    TaskState::NoStatus,
    TaskState::NoStatus,
    TaskState::NoStatus,
];

const TWO_FIT: &[TaskState] = &[
    TaskState::Scheduled,
    TaskState::Queued,
    TaskState::Queued,
    TaskState::Scheduled,
];

const ONE_MORE_FITS: &[TaskState] = &[
    TaskState::Scheduled,
    TaskState::Success,
    TaskState::Success,
    TaskState::Queued,
];

const A_LOWERED_POOL_IS_NOT_FILLED: &[Step] = &[
    Step::Changes(NEW_YEAR),
    Step::Are(TWO_FIT),
    Step::Slots(1),
    Step::Ends("y", Outcome::Success, 5),
    Step::Rests(ONE_SECOND_LATER),
    Step::Ends("z", Outcome::Success, 6),
    Step::Changes(TWO_SECONDS_LATER),
    Step::Are(ONE_MORE_FITS),
];

const THE_FIRST_HAS_FAILED: &[TaskState] = &[
    TaskState::NoStatus,
    TaskState::NoStatus,
    TaskState::Failed,
];

const ALL_HAVE_FAILED: &[TaskState] = &[
    TaskState::UpstreamFailed,
    TaskState::UpstreamFailed,
    TaskState::Failed,
];

const A_FAILED_RUN: &[RunState] = &[RunState::Failed];

const A_FAILURE_GOES_DOWN: &[Step] = &[
    Step::Changes(NEW_YEAR),
    Step::Are(ALL_HAVE_FAILED),
    Step::States(A_FAILED_RUN),
    Step::Rests(ONE_SECOND_LATER),
];

const UP_FOR_RETRY: &[TaskState] = &[TaskState::UpForRetry];

const QUEUED: &[TaskState] = &[TaskState::Queued];

const FAILED: &[TaskState] = &[TaskState::Failed];

const A_RETRY_WAITS: &[Step] = &[
    Step::Changes(EPOCH),
    Step::Ends("t", Outcome::Failed, 0),
    Step::Are(UP_FOR_RETRY),
    Step::Rests(BEFORE_THE_RETRY),
    Step::Changes(THE_RETRY),
    Step::Are(QUEUED),
    Step::Ends("t", Outcome::Failed, 9),
    Step::Are(FAILED),
    Step::Changes(AFTER_THE_RETRY),
    Step::Runs(1, 0),
];

#[test]
fn a_lowered_pool_is_not_filled(rt: HostRuntime) -> Result<(), Fail> {
    with_new_state(&rt, is_not_filled)
}

/// Ends the test where of four tasks of a pool, added to a new state, more are queued than fit once it is lowered.
fn is_not_filled(rt: &impl Abort, alloc: Global, state: &mut State) -> Result<(), Fail> {
    add_pooled(alloc, state, 2, FOUR_IN_A_POOL, false, FOUR_UNTRIED)?;
    play(
        rt,
        alloc,
        state,
        A_LOWERED_POOL_IS_NOT_FILLED,
        "a lowered pool",
    )
}

/// Adds pool p of two slots, a DAG g of these tasks of the default pool, and a run of it, whose instances are in these
/// states.
fn add_run_of(
    alloc: Global,
    state: &mut State,
    rows: &[(&str, &[&str])],
    states: &[TaskState],
) -> Result<(), Fail> {
    add_pool(alloc, state, "p", 2)?;
    add_g(alloc, state, tasks(alloc, rows)?, false)?;
    add_r(alloc, state, states)
}

#[test]
fn a_failure_goes_down_in_one_tick(rt: HostRuntime) -> Result<(), Fail> {
    with_new_state(&rt, goes_down)
}

/// Ends the test where the failure of the first of three tasks, added to a new state, does not go down.
fn goes_down(rt: &impl Abort, alloc: Global, state: &mut State) -> Result<(), Fail> {
    add_run_of(alloc, state, THREE_IN_A_ROW, THE_FIRST_HAS_FAILED)?;
    play(rt, alloc, state, A_FAILURE_GOES_DOWN, "a failure")
}

#[test]
fn a_retry_waits_for_its_moment(rt: HostRuntime) -> Result<(), Fail> {
    with_new_state(&rt, waits)
}

/// Ends the test where the retry of a task, added to a new state, does not wait for its moment.
fn waits(rt: &impl Abort, alloc: Global, state: &mut State) -> Result<(), Fail> {
    add_run_of(alloc, state, ONE_TASK, UNTRIED)?;
    play(rt, alloc, state, A_RETRY_WAITS, "a retry")
}

/// How many runs have their one instance queued.
fn queued_in(state: &State) -> usize {
    let mut count: usize = 0;
    for run in state.runs() {
        if are(run, QUEUED) {
            count = count.saturating_add(1);
        }
    }
    count
}

/// Whether a claim, or out of memory for it, leaves as many queued instances as it is to leave.
fn claims_one(alloc: Global, state: &mut State, moment: &str) -> Result<bool, Fail> {
    match state.claim(alloc, at(moment)?) {
        Ok(claim) => Ok(claim.is_some() && queued_in(state) == 1),
        Err(_) => Ok(queued_in(state) == 2),
    }
}

const SIXTEEN_RUNS: &[Step] = &[Step::Runs(16, 2), Step::Cursor(SIXTEEN_HOURS_LATER)];

const NO_RUNS: &[Step] = &[Step::Runs(0, 0), Step::Cursor(NEW_YEAR)];

/// What is seen after a tick, or after out of memory for it.
fn after_tick(alloc: Global, state: &mut State, moment: &str) -> Result<&'static [Step], Fail> {
    match state.tick(alloc, at(moment)?) {
        Ok(_) => Ok(SIXTEEN_RUNS),
        Err(_) => Ok(NO_RUNS),
    }
}

#[test]
fn a_refused_growth_leaves_the_state(rt: HostRuntime) -> Result<(), Fail> {
    with_new_state(&rt, is_left)
}

/// Ends the test where a DAG, added to a new state, is not as before once a growth is refused, or has not sixteen runs where
/// none is.
fn is_left(rt: &impl Abort, alloc: Global, state: &mut State) -> Result<(), Fail> {
    add_scheduled(alloc, state, Preset::Hourly, NEW_YEAR, true, false)?;
    let steps = after_tick(alloc, state, ONE_DAY_LATER)?;
    play(rt, alloc, state, steps, "a refused growth")?;
    one_is_claimed(rt, alloc, state)
}

/// Ends the test where there are runs, and a claim does not leave as many queued instances as it is to leave.
fn one_is_claimed(rt: &impl Abort, alloc: Global, state: &mut State) -> Result<(), Fail> {
    let is_claimed = state.runs().is_empty() || claims_one(alloc, state, ONE_DAY_LATER)?;
    holds(rt, is_claimed, "one is claimed, or as before");
    Ok(())
}
