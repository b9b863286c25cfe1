use super::making::{UNTRIED, maybe, moment, run_of};
use crate::tests::asserts::{holds, row_holds};
use crate::tests::seen::number_of;
use af_graph::TaskState;
use af_runs::{Instance, Mark, RunState, Runs};
use std::alloc::Global;
use std::process::Abort;

/// The state, the start and the end of a run.
type Told = (RunState, Option<u32>, Option<u32>);

/// An instance in this state, which ended at 7.
fn in_state(state: TaskState) -> Instance {
    Instance {
        state,
        try_number: 2,
        end_date: Some(moment(7)),
        ..UNTRIED
    }
}

/// Two runs, told so, of one instance in this state.
fn two_runs(rt: &impl Abort, alloc: Global, told: Told, state: TaskState) -> Runs {
    let mut runs = Runs::new(alloc);
    for (run_id, date) in IDS_AND_DATES {
        let new = run_of(rt, alloc, ("a", run_id, *date), &[in_state(state)]);
        let number = runs.add_run(new).expect(rt, "one of two runs is added");
        runs.set_state(number, told.0, maybe(told.1), maybe(told.2));
    }
    runs
}

const IDS_AND_DATES: &[(&str, u32)] = &[("r0", 0), ("r1", 1)];

/// Whether the run of a number is told so.
fn is_told_at(runs: &Runs, number: u64, told: Told) -> bool {
    match runs.get(number) {
        Some(run) => (run.state, run.start_date.get(), run.end_date.get())
            == (told.0, maybe(told.1), maybe(told.2)),
        None => false,
    }
}

/// Whether the second run has its skipped instance alone.
fn has_skipped(runs: &Runs) -> bool {
    match runs.get(2) {
        Some(run) => run.instances.as_slice() == [in_state(TaskState::Skipped)].as_slice(),
        None => false,
    }
}

/// Whether the first of two runs, told so, is told otherwise once it is marked at 9, and the second is as it was. Run 3, which
/// is not there, is marked before.
fn goes(rt: &impl Abort, alloc: Global, before: Told, mark: Mark, after: Told) -> bool {
    let mut runs = two_runs(rt, alloc, before, TaskState::Skipped);
    runs.mark(3, mark, moment(8));
    runs.mark(1, mark, moment(9));
    let goes = is_told_at(&runs, 1, after) && is_told_at(&runs, 2, before) && has_skipped(&runs);
    drop(runs);
    goes
}

const QUEUED: Told = (RunState::Queued, None, None);

const RUNNING: Told = (RunState::Running, Some(5), None);

const SUCCESS: Told = (RunState::Success, Some(5), Some(6));

const FAILED: Told = (RunState::Failed, Some(5), Some(6));

const SUCCESS_AT_9: Told = (RunState::Success, Some(5), Some(9));

const FAILED_AT_9: Told = (RunState::Failed, Some(5), Some(9));

/// A run before and after a mark.
const MARKED: &[(Told, Mark, Told)] = &[
    (QUEUED, Mark::Success, (RunState::Success, None, Some(9))),
    (RUNNING, Mark::Success, SUCCESS_AT_9),
    (SUCCESS, Mark::Success, SUCCESS),
    (FAILED, Mark::Success, SUCCESS_AT_9),
    (QUEUED, Mark::Failed, (RunState::Failed, None, Some(9))),
    (RUNNING, Mark::Failed, FAILED_AT_9),
    (SUCCESS, Mark::Failed, FAILED_AT_9),
    (FAILED, Mark::Failed, FAILED),
    (QUEUED, Mark::Queued, QUEUED),
    (RUNNING, Mark::Queued, QUEUED),
    (SUCCESS, Mark::Queued, QUEUED),
    (FAILED, Mark::Queued, QUEUED),
];

#[test]
fn each_mark_of_each_state(rt: HostRuntime) {
    for (row, (before, mark, after)) in MARKED.iter().enumerate() {
        let goes = goes(&rt, rt.alloc(), *before, *mark, *after);
        row_holds(&rt, goes, row);
    }
}

/// Whether the first run is marked so, by its instance alone.
fn is_marked(runs: &Runs, mark: Mark) -> bool {
    match runs.get(1) {
        Some(run) => run.is_marked(mark),
        None => false,
    }
}

/// An instance in this state, which ended at 7, as a mark at 9 leaves it in another.
fn marked(before: TaskState, after: TaskState) -> Instance {
    let end_date = moment(if after == before { 7 } else { 9 });
    Instance {
        state: after,
        try_number: 2,
        end_date: Some(end_date),
        ..UNTRIED
    }
}

/// The state before, and after the marks success and failed; the mark queued leaves each.
const STATES: &[(TaskState, TaskState, TaskState)] = &[
    (TaskState::NoStatus, TaskState::Success, TaskState::Skipped),
    (TaskState::Scheduled, TaskState::Success, TaskState::Skipped),
    (TaskState::Queued, TaskState::Success, TaskState::Skipped),
    (TaskState::Running, TaskState::Success, TaskState::Failed),
    (TaskState::Success, TaskState::Success, TaskState::Success),
    (TaskState::Failed, TaskState::Success, TaskState::Failed),
    (TaskState::Skipped, TaskState::Success, TaskState::Skipped),
    (
        TaskState::UpstreamFailed,
        TaskState::Success,
        TaskState::UpstreamFailed,
    ),
    (
        TaskState::UpForRetry,
        TaskState::Success,
        TaskState::Skipped,
    ),
];

/// The first run's instance.
fn first_instance(rt: &impl Abort, runs: &Runs) -> Instance {
    let run = runs.get(1).expect(rt, "no run");
    *run.instances.as_slice().first().expect(rt, "no instance")
}

/// Ends the test where a mark at 9 does not make this of an instance, or it was not told beforehand, by the run's instance alone,
/// that it changes nothing where it does not.
fn makes(
    rt: &impl Abort,
    alloc: Global,
    row: usize,
    mark: Mark,
    before: TaskState,
    after: TaskState,
) {
    let mut runs = two_runs(rt, alloc, (mark.state(), None, None), before);
    let stood = is_marked(&runs, mark);
    runs.mark(1, mark, moment(9));
    let is_made = first_instance(rt, &runs) == marked(before, after);
    drop(runs);
    row_holds(rt, is_made, row);
    row_holds(rt, stood == (after == before), row);
}

#[test]
fn each_mark_of_each_instance(rt: HostRuntime) {
    for (row, (before, succeeded, failed)) in STATES.iter().enumerate() {
        makes(&rt, rt.alloc(), row, Mark::Success, *before, *succeeded);
        makes(&rt, rt.alloc(), row, Mark::Failed, *before, *failed);
        makes(&rt, rt.alloc(), row, Mark::Queued, *before, *before);
    }
}

const MARKS: &[Mark] = &[Mark::Success, Mark::Failed, Mark::Queued];

#[test]
fn a_mark_is_that_of_its_state(rt: HostRuntime) {
    for mark in MARKS {
        holds(&rt, Mark::of(mark.state()) == Some(*mark), "each mark");
    }
    let of_running = Mark::of(RunState::Running);
    holds(&rt, of_running.is_none(), "none is marked running");
}

/// Ends the test where the mark of one of two running runs leaves it busy, or the mark queued does not.
fn ends(rt: &impl Abort, alloc: Global, mark: Mark) {
    let mut runs = two_runs(rt, alloc, RUNNING, TaskState::Running);
    runs.mark(1, mark, moment(9));
    holds(rt, runs.busy_count() == 1, "one is left");
    holds(rt, number_of(runs.busy_at(0)) == Some(2), "the other");
    runs.mark(1, Mark::Queued, moment(10));
    holds(rt, runs.busy_count() == 2, "queued again");
    drop(runs);
}

#[test]
fn what_a_mark_ends_is_not_busy(rt: HostRuntime) {
    ends(&rt, rt.alloc(), Mark::Success);
    ends(&rt, rt.alloc(), Mark::Failed);
}
