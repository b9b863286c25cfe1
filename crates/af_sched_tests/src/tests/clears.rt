use crate::tests::dags::of_default;
use crate::tests::fresh::with_new_states;
use crate::tests::openings::{add_g, add_run_of_g, only};
use crate::tests::redone::cleared;
use crate::tests::steps::{Step, play};
use af_graph::{TaskSpec, TaskState};
use af_runs::{Mark, RunState};
use af_sched::{Outcome, ReportFault, State};
use std::alloc::Global;
use std::process::Abort;
use std::test::Fail;

/// One task t without retries.
fn without_retries(alloc: Global) -> Result<Vec<TaskSpec>, Fail> {
    let mut only = of_default(alloc, "t", &[])?;
    only.retries = 0;
    Ok(vec![in alloc; only]?)
}

/// Adds a DAG g of one task t without retries, and a new run r of it.
fn add_one_run(alloc: Global, state: &mut State) -> Result<(), Fail> {
    add_g(alloc, state, without_retries(alloc)?, false)?;
    let _number = add_run_of_g(alloc, state, "r", 0, only(alloc, cleared(0, 0))?)?;
    Ok(())
}

const AT_13: &str = "1970-01-01T00:00:00.000013Z";

const AT_14: &str = "1970-01-01T00:00:00.000014Z";

const AT_16: &str = "1970-01-01T00:00:00.000016Z";

const AT_18: &str = "1970-01-01T00:00:00.000018Z";

const NOT_RUNNING: Result<(), ReportFault> = Err(ReportFault::NotRunning);

const WRONG_TRY: Result<(), ReportFault> = Err(ReportFault::WrongTry);

const NO_INSTANCE: Result<(), ReportFault> = Err(ReportFault::NoSuchInstance);

const RUN_QUEUED: &[RunState] = &[RunState::Queued];

const RUN_RUNNING: &[RunState] = &[RunState::Running];

const RUN_FAILED: &[RunState] = &[RunState::Failed];

const RUN_SUCCEEDED: &[RunState] = &[RunState::Success];

const RUNNING: &[TaskState] = &[TaskState::Running];

const FAILED: &[TaskState] = &[TaskState::Failed];

const SUCCEEDED: &[TaskState] = &[TaskState::Success];

/// A run has failed. To look changes nothing, a clear is a change, another is none; its run is queued again, one try is left, and
/// the report of the first is over.
const A_FAILED_RUN: &[Step] = &[
    Step::Tries(10, 1),
    Step::Reports(1, "t", 1, Outcome::Failed, 12, Ok(())),
    Step::Changes(AT_13),
    Step::States(RUN_FAILED),
    Step::Alone(true),
    Step::States(RUN_FAILED),
    Step::Left(true, false),
    Step::Clears(true),
    Step::Left(true, true),
    Step::IsCleared(1, 1),
    Step::States(RUN_QUEUED),
    Step::Reports(1, "t", 1, Outcome::Success, 14, NOT_RUNNING),
    Step::Tries(15, 2),
    Step::Reports(1, "t", 1, Outcome::Success, 17, WRONG_TRY),
    Step::Reports(1, "t", 2, Outcome::Success, 17, Ok(())),
    Step::Changes(AT_18),
    Step::States(RUN_SUCCEEDED),
];

/// An instance that runs has not failed, and is of no other run; once it is cleared its run goes on, and its report finds it so.
const A_RUNNING_INSTANCE: &[Step] = &[
    Step::Tries(10, 1),
    Step::ClearsRun(1, true),
    Step::Are(RUNNING),
    Step::ClearsRun(2, false),
    Step::Are(RUNNING),
    Step::ClearsRun(1, false),
    Step::IsCleared(1, 1),
    Step::States(RUN_RUNNING),
    Step::Reports(1, "t", 1, Outcome::Success, 12, NOT_RUNNING),
    Step::Tries(13, 2),
    Step::Reports(1, "t", 2, Outcome::Failed, 15, Ok(())),
    Step::Are(FAILED),
];

/// A run that is marked takes no report and has nothing due; queued again, it starts and ends as its instance did.
const MARKED_SUCCESS: &[Step] = &[
    Step::Tries(10, 1),
    Step::Marks(2, Mark::Queued, 11),
    Step::Marks(1, Mark::Success, 12),
    Step::States(RUN_SUCCEEDED),
    Step::Are(SUCCEEDED),
    Step::Reports(1, "t", 1, Outcome::Success, 13, NOT_RUNNING),
    Step::Rests(AT_14),
    Step::Marks(1, Mark::Queued, 15),
    Step::States(RUN_QUEUED),
    Step::Changes(AT_16),
    Step::States(RUN_SUCCEEDED),
];

const MARKED_FAILED: &[Step] = &[
    Step::Tries(10, 1),
    Step::Marks(2, Mark::Queued, 11),
    Step::Marks(1, Mark::Failed, 12),
    Step::States(RUN_FAILED),
    Step::Are(FAILED),
    Step::Reports(1, "t", 1, Outcome::Success, 13, NOT_RUNNING),
    Step::Rests(AT_14),
    Step::Marks(1, Mark::Queued, 15),
    Step::States(RUN_QUEUED),
    Step::Changes(AT_16),
    Step::States(RUN_FAILED),
];

/// Of a run that is taken out no report finds an instance, nor where another run has its ids.
const TAKEN_OUT: &[Step] = &[
    Step::Tries(10, 1),
    Step::Removes(1),
    Step::Reports(1, "t", 1, Outcome::Success, 12, NO_INSTANCE),
    Step::AddsRun(2),
    Step::Reports(1, "t", 1, Outcome::Success, 13, NO_INSTANCE),
];

/// A name, and what becomes of a run.
type Story = (&'static str, &'static [Step]);

const STORIES: &[Story] = &[
    ("a failed run is cleared and tried again", A_FAILED_RUN),
    ("a running instance is cleared", A_RUNNING_INSTANCE),
    (
        "a run that is marked success takes no report",
        MARKED_SUCCESS,
    ),
    ("a run that is marked failed takes no report", MARKED_FAILED),
    ("a run that is taken out is gone", TAKEN_OUT),
];

#[test]
fn what_was_done_is_done_again(rt: HostRuntime) -> Result<(), Fail> {
    with_new_states(&rt, STORIES, goes)
}

/// Ends the test where a story does not go as it says from a new state on.
fn goes(rt: &impl Abort, alloc: Global, state: &mut State, story: &Story) -> Result<(), Fail> {
    add_one_run(alloc, state)?;
    play(rt, alloc, state, story.1, story.0)
}
