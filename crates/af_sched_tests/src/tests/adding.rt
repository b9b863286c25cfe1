use crate::tests::asserts::holds;
use crate::tests::dags::{DEFAULT_POOL, row, task};
use crate::tests::fresh::with_new_state;
use crate::tests::openings::{add_run_of_g, add_tried, at, instances, moment};
use crate::tests::seen::{number_of, states_are};
use crate::tests::steps::{Step, added_dag, play};
use af_graph::{Points, Rule, Schedule, TaskSpec, TaskState};
use af_names::{DagId, NamesDag, RunId};
use af_runs::{RunFault, RunState};
use af_sched::{AddDagFault, DagRow, State};
use std::alloc::Global;
use std::process::Abort;
use std::test::Fail;

const ADDED_ONCE: &[Step] = &[
    Step::Added("b", Ok(())),
    Step::Added("a", Ok(())),
    Step::Added("b", Err(AddDagFault::Exists)),
    Step::Dags(IDS),
];

const IDS: &[&str] = &["a", "b"];

/// A pool, how many runs may be running, a step in seconds, and what is told.
const FAULTS: &[(&str, u32, u32, Result<(), AddDagFault>)] = &[
    ("p", 0, 0, Err(AddDagFault::NoActiveRuns)),
    ("p", 1, 0, Err(AddDagFault::NoStep)),
    ("p", 1, 1, Err(AddDagFault::NoSuchPool)),
    (DEFAULT_POOL, 1, 1, Ok(())),
    ("p", 1, 1, Err(AddDagFault::NoSuchPool)),
    (DEFAULT_POOL, 1, 1, Err(AddDagFault::Exists)),
];

#[test]
fn a_dag_is_added_once(rt: HostRuntime) -> Result<(), Fail> {
    with_new_state(&rt, are_added_once)
}

/// Ends the test where DAGs are not added to a new state once, by id.
fn are_added_once(rt: &impl Abort, alloc: Global, state: &mut State) -> Result<(), Fail> {
    play(rt, alloc, state, ADDED_ONCE, "the steps")?;
    holds(rt, is_first_dag(state, "a"), "a row names its DAG");
    Ok(())
}

/// Whether the first row names this DAG.
fn is_first_dag(state: &State, dag_id: &str) -> bool {
    match state.dags().first() {
        Some(row) => row.dag_id().as_str() == dag_id,
        None => false,
    }
}

/// One task of this pool.
fn only_of(alloc: Global, pool: &str) -> Result<Vec<TaskSpec>, Fail> {
    let only = task(alloc, "t", &[], pool, Rule::AllSuccess)?;
    Ok(vec![in alloc; only]?)
}

/// A DAG of one task of this pool, of which so many runs may be running, every so many seconds.
fn every(alloc: Global, pool: &str, most: u32, seconds: u32) -> Result<DagRow, Fail> {
    let schedule = Schedule {
        points: Points::Seconds(seconds),
        start_date: at("2024-01-01T00:00:00Z")?,
    };
    let only = only_of(alloc, pool)?;
    row(alloc, "g", only, Some(schedule), true, most, false)
}

#[test]
fn the_first_fault_of_a_dag_is_told(rt: HostRuntime) -> Result<(), Fail> {
    with_new_state(&rt, first_faults_are_told)
}

/// Ends the test where a new state does not tell the first fault of each DAG.
fn first_faults_are_told(rt: &impl Abort, alloc: Global, state: &mut State) -> Result<(), Fail> {
    for (pool, most, seconds, wanted) in FAULTS {
        let told = added_every(alloc, state, pool, *most, *seconds)?;
        holds(rt, told == *wanted, pool);
    }
    Ok(())
}

/// What is told where a DAG of this pool, so many runs and so many seconds is added.
fn added_every(
    alloc: Global,
    state: &mut State,
    pool: &str,
    most: u32,
    seconds: u32,
) -> Result<Result<(), AddDagFault>, Fail> {
    added_dag(state, every(alloc, pool, most, seconds)?)
}

/// Advances the run of this number to one that has failed.
fn fail_run(alloc: Global, state: &mut State, number: u64) -> Result<(), Fail> {
    let Some(run) = state.run_numbered(number) else {
        return Err(Fail::from("no run"));
    };
    let mut later = run.copied(alloc)?;
    later.number = number;
    later.state = RunState::Failed;
    state.advance(later);
    Ok(())
}

/// The id of a run, a date, and why a run of these is not added to DAG g, which has the run r of date 0.
const RUN_FAULTS: &[(&str, u64, Option<RunFault>)] = &[
    ("r", 0, Some(RunFault::RunExists)),
    ("s", 0, Some(RunFault::DateTaken)),
    ("s", 1, None),
];

const UNTRIED: &[TaskState] = &[TaskState::NoStatus];

const ONE_HAS_FAILED: &[RunState] = &[RunState::Failed, RunState::Queued];

/// Why a run of this id and this date is not added to DAG g.
fn run_fault(
    alloc: Global,
    state: &State,
    run_id: &str,
    date: u64,
) -> Result<Option<RunFault>, Fail> {
    let date = moment(date)?;
    let dag_id = DagId::parse(alloc, "g")?;
    let run_id = RunId::parse(alloc, run_id)?;
    Ok(state.run_fault(&dag_id, &run_id, date))
}

/// The number of the run of this id of DAG g.
fn number_by_id(alloc: Global, state: &State, run_id: &str) -> Result<Option<u64>, Fail> {
    let dag_id = DagId::parse(alloc, "g")?;
    let run_id = RunId::parse(alloc, run_id)?;
    Ok(number_of(state.run(&dag_id, &run_id)))
}

/// Adds run s of DAG g, where memory is reserved: its number.
fn added(alloc: Global, state: &mut State) -> Result<u64, Fail> {
    state.reserve_runs(3)?;
    state.reserve_pools(3)?;
    let untried = instances(alloc, UNTRIED)?;
    add_run_of_g(alloc, state, "s", 1, untried)
}

#[test]
fn why_a_run_is_not_added_is_told(rt: HostRuntime) -> Result<(), Fail> {
    with_new_state(&rt, run_faults_are_told)
}

/// Ends the test where it is not told why a run is not added, once a new state has the run r.
fn run_faults_are_told(rt: &impl Abort, alloc: Global, state: &mut State) -> Result<(), Fail> {
    add_tried(alloc, state, TaskState::NoStatus, 0)?;
    for (run_id, date, wanted) in RUN_FAULTS {
        let told = run_fault(alloc, state, run_id, *date)?;
        holds(rt, told == *wanted, run_id);
    }
    Ok(())
}

#[test]
fn a_run_is_added_and_looked_up(rt: HostRuntime) -> Result<(), Fail> {
    with_new_state(&rt, is_looked_up)
}

/// Ends the test where run s, added to a new state after run r, is not found.
fn is_looked_up(rt: &impl Abort, alloc: Global, state: &mut State) -> Result<(), Fail> {
    add_tried(alloc, state, TaskState::NoStatus, 0)?;
    holds(rt, added(alloc, state)? == 2, "the second run");
    let by_ids = number_by_id(alloc, state, "s")?;
    holds(rt, by_ids == Some(2), "by its ids");
    holds(rt, is_dated(state, 2, 1), "by its number");
    Ok(())
}

/// Whether the run of a number is of this date in microseconds.
fn is_dated(state: &State, number: u64, date: u64) -> bool {
    match state.run_numbered(number) {
        Some(run) => run.logical_date.micros() == date,
        None => false,
    }
}

#[test]
fn a_run_is_advanced(rt: HostRuntime) -> Result<(), Fail> {
    with_new_state(&rt, first_is_advanced)
}

/// Ends the test where the first of two runs, added to a new state, is not advanced.
fn first_is_advanced(rt: &impl Abort, alloc: Global, state: &mut State) -> Result<(), Fail> {
    add_tried(alloc, state, TaskState::NoStatus, 0)?;
    let _number = added(alloc, state)?;
    fail_run(alloc, state, 1)?;
    let is_advanced = states_are(state, ONE_HAS_FAILED);
    holds(rt, is_advanced, "the first is advanced");
    Ok(())
}
