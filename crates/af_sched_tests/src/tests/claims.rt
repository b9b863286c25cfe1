use crate::tests::asserts::holds;
use crate::tests::fresh::{with_new_state, with_new_states};
use crate::tests::openings::{add_dag_of_one, add_pooled, add_runs_of_one, add_tried, moment};
use crate::tests::seen::first_instance;
use crate::tests::steps::{Step, claim_of, play, reports};
use af_graph::TaskState;
use af_names::{DagId, Instant, TaskId};
use af_runs::Instance;
use af_sched::{Claim, Executor, Outcome, ReportFault, Script, Scripted, State};
use std::alloc::Global;
use std::process::Abort;
use std::test::Fail;

const ARE_QUEUED: &[TaskState] = &[TaskState::Queued];

const ARE_RUNNING: &[TaskState] = &[TaskState::Running];

const ARE_SKIPPED: &[TaskState] = &[TaskState::Skipped];

const HAVE_SUCCEEDED: &[TaskState] = &[TaskState::Success];

const NO_INSTANCE: Result<(), ReportFault> = Err(ReportFault::NoSuchInstance);

const THE_LAST_TRY: &[Step] = &[Step::ClaimsNone, Step::Are(ARE_QUEUED)];

const THE_RUNNING_TRY: &[Step] = &[
    Step::Reports(2, "t", 2, Outcome::Success, 9, NO_INSTANCE),
    Step::Reports(1, "u", 2, Outcome::Success, 9, NO_INSTANCE),
    Step::Reports(1, "t", 1, Outcome::Success, 9, Err(ReportFault::WrongTry)),
    Step::Are(ARE_RUNNING),
    Step::Reports(1, "t", 2, Outcome::Success, 9, Ok(())),
    Step::Are(HAVE_SUCCEEDED),
    Step::Reports(1, "t", 1, Outcome::Success, 9, Err(ReportFault::NotRunning)),
];

const A_SKIPPED_TRY: &[Step] = &[
    Step::Reports(1, "t", 1, Outcome::Skipped, 9, Ok(())),
    Step::Are(ARE_SKIPPED),
];

/// A name, the state of an instance and how often it was tried, and what becomes of it.
type Story = (&'static str, TaskState, u32, &'static [Step]);

const STORIES: &[Story] = &[
    (
        "the last try is passed over",
        TaskState::Queued,
        u32::MAX,
        THE_LAST_TRY,
    ),
    (
        "a report is of the running try",
        TaskState::Running,
        2,
        THE_RUNNING_TRY,
    ),
    ("a skipped try", TaskState::Running, 1, A_SKIPPED_TRY),
];

#[test]
fn tries_are_claimed_and_reported(rt: HostRuntime) -> Result<(), Fail> {
    with_new_states(&rt, STORIES, goes)
}

/// Ends the test where a story does not go as it says from a new state on.
fn goes(rt: &impl Abort, alloc: Global, state: &mut State, story: &Story) -> Result<(), Fail> {
    add_tried(alloc, state, story.1, story.2)?;
    play(rt, alloc, state, story.3, story.0)
}

/// Whether it is taken that this try of task t of run 1 failed at this moment.
fn fails(alloc: Global, state: &mut State, try_number: u32, micros: u64) -> Result<bool, Fail> {
    let claim = claim_of(alloc, 1, "t", try_number)?;
    reports(state, &claim, Outcome::Failed, micros, Ok(()))
}

/// What becomes of a running instance with one retry, added to a new state, that fails at this try and this moment.
fn after_failure(
    alloc: Global,
    state: &mut State,
    try_number: u32,
    micros: u64,
) -> Result<Instance, Fail> {
    add_tried(alloc, state, TaskState::Running, try_number)?;
    if fails(alloc, state, try_number, micros)? {
        first_instance(state)
    } else {
        Err(Fail::from("not taken"))
    }
}

/// A moment so many microseconds after 1970, where there is one.
fn maybe(micros: Option<u64>) -> Result<Option<Instant>, Fail> {
    match micros {
        Some(micros) => Ok(Some(moment(micros)?)),
        None => Ok(None),
    }
}

/// A failure of this try at this moment: the state after it, and the moment of the next try.
type Failure = (&'static str, u32, u64, TaskState, Option<u64>);

const FAILURES: &[Failure] = &[
    (
        "one retry is left: 300 seconds later",
        1,
        9,
        TaskState::UpForRetry,
        Some(300_000_009),
    ),
    ("no retry is left", 2, 9, TaskState::Failed, None),
    (
        "its moment is no instant",
        1,
        253_370_764_799_999_999,
        TaskState::Failed,
        None,
    ),
];

/// Whether an instance is tried again then, or never.
fn is_tried_at(instance: &Instance, retry_at: Option<u64>) -> Result<bool, Fail> {
    Ok(instance.retry_at == maybe(retry_at)?)
}

/// Whether an instance ended at this moment.
fn has_ended_at(instance: &Instance, micros: u64) -> Result<bool, Fail> {
    Ok(instance.end_date == maybe(Some(micros))?)
}

#[test]
fn a_failed_try_is_tried_again(rt: HostRuntime) -> Result<(), Fail> {
    with_new_states(&rt, FAILURES, is_tried_again)
}

/// Ends the test where a try of a new state that fails is not tried again as a row says.
fn is_tried_again(
    rt: &impl Abort,
    alloc: Global,
    state: &mut State,
    row: &Failure,
) -> Result<(), Fail> {
    let instance = after_failure(alloc, state, row.1, row.2)?;
    has_failed(rt, &instance, row)
}

/// Ends the test where an instance is not as a row says.
fn has_failed(rt: &impl Abort, instance: &Instance, row: &Failure) -> Result<(), Fail> {
    let (name, _, micros, state, retry_at) = *row;
    holds(rt, instance.state == state, name);
    holds(rt, is_tried_at(instance, retry_at)?, name);
    holds(rt, has_ended_at(instance, micros)?, name);
    Ok(())
}

const THREE_QUEUED: &[TaskState] = &[TaskState::Queued, TaskState::Queued, TaskState::Queued];

const THE_HEAVIEST_FIRST: &[Step] = &[
    Step::Claims("heavy"),
    Step::Claims("b"),
    Step::Claims("a"),
    Step::ClaimsNone,
];

const ONE_IS_HEAVY: &[(&str, u64, i32)] = &[("b", 1, 1), ("heavy", 1, 5), ("a", 1, 1)];

#[test]
fn a_claim_takes_the_greatest_weight(rt: HostRuntime) -> Result<(), Fail> {
    with_new_state(&rt, heaviest_is_first)
}

/// Ends the test where of three queued instances, added to a new state, the second, which weighs 5, is not claimed
/// first.
fn heaviest_is_first(rt: &impl Abort, alloc: Global, state: &mut State) -> Result<(), Fail> {
    add_pooled(alloc, state, 2, ONE_IS_HEAVY, true, THREE_QUEUED)?;
    play(rt, alloc, state, THE_HEAVIEST_FIRST, "the heaviest first")
}

/// Which runs' instances are claimed, in turn: the heaviest of all, then by number.
const IN_TURN: &[u64] = &[2, 4, 1, 3];

/// Adds DAGs g and h, whose tasks weigh 1 and 5, and runs 1 and 3 of g and 2 and 4 of h, whose instances are queued.
fn add_two_weights(alloc: Global, state: &mut State) -> Result<(), Fail> {
    for (dag_id, weight) in WEIGHTS {
        add_dag_of_one(alloc, state, dag_id, *weight, true)?;
    }
    add_runs_of_one(alloc, state, RUNS, TaskState::Queued)
}

const WEIGHTS: &[(&str, i32)] = &[("g", 1), ("h", 5)];

const RUNS: &[(&str, &str, u64)] = &[("g", "a", 0), ("h", "a", 0), ("g", "b", 1), ("h", "b", 1)];

fn number_of(claim: Option<&Claim>) -> Option<u64> {
    match claim {
        Some(claim) => Some(claim.run_number),
        None => None,
    }
}

/// The number of the run whose instance is claimed next.
fn claimed(alloc: Global, state: &mut State) -> Result<Option<u64>, Fail> {
    let claim = state.claim(alloc, moment(3)?)?;
    Ok(number_of(claim.as_ref()))
}

#[test]
fn a_heavier_task_of_a_later_run_is_claimed_first(rt: HostRuntime) -> Result<(), Fail> {
    with_new_state(&rt, are_claimed_in_turn)
}

/// Ends the test where the instances of two weights, added to a new state, are not claimed in turn.
fn are_claimed_in_turn(rt: &impl Abort, alloc: Global, state: &mut State) -> Result<(), Fail> {
    add_two_weights(alloc, state)?;
    each_is_claimed(rt, alloc, state)?;
    let told = claimed(alloc, state)?;
    holds(rt, told.is_none(), "none is left");
    Ok(())
}

/// Ends the test where the instances of the runs are not claimed, each in turn.
fn each_is_claimed(rt: &impl Abort, alloc: Global, state: &mut State) -> Result<(), Fail> {
    for number in IN_TURN {
        let told = claimed(alloc, state)?;
        holds(rt, told == Some(*number), "each in turn");
    }
    Ok(())
}

const SCRIPT: &[(&str, u32, Outcome)] = &[
    ("t", 1, Outcome::Failed),
    ("t", 2, Outcome::Skipped),
    ("t", 3, Outcome::Success),
    ("u", 1, Outcome::Success),
];

/// A script by which the first try of task t of DAG g fails, and the second is skipped.
fn script(alloc: Global) -> Result<Script, Fail> {
    let dag_id = DagId::parse(alloc, "g")?;
    let task_id = TaskId::parse(alloc, "t")?;
    let outcomes = vec![in alloc; Outcome::Failed, Outcome::Skipped]?;
    Ok(Script::new(dag_id, task_id, outcomes))
}

fn executor(alloc: Global) -> Result<Scripted, Fail> {
    Ok(Scripted::new(vec![in alloc; script(alloc)?]?))
}

#[test]
fn a_script_answers_by_try(rt: HostRuntime) -> Result<(), Fail> {
    let mut executor = executor(rt.alloc())?;
    answers_by_try(&rt, rt.alloc(), &mut executor)
}

/// Ends the test where an executor of the script does not answer by it.
fn answers_by_try(rt: &impl Abort, alloc: Global, executor: &mut Scripted) -> Result<(), Fail> {
    for (task_id, try_number, wanted) in SCRIPT {
        let told = outcome_of(alloc, executor, task_id, *try_number)?;
        holds(rt, told == *wanted, task_id);
    }
    Ok(())
}

/// The outcome of a try of a task of DAG g.
fn outcome_of(
    alloc: Global,
    executor: &mut Scripted,
    task_id: &str,
    try_number: u32,
) -> Result<Outcome, Fail> {
    let claim = claim_of(alloc, 1, task_id, try_number)?;
    Ok(executor.run(&claim))
}
