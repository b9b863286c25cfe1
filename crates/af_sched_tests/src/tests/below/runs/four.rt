use super::making::{UNTRIED, moment, run_of};
use af_graph::TaskState;
use af_names::Instant;
use af_runs::{Instance, RunState, Runs};
use std::alloc::Global;
use std::process::Abort;

/// An instance in this state, of so many tries.
fn tried((state, try_number): Tried) -> Instance {
    Instance {
        state,
        try_number,
        start_date: Some(moment(20)),
        end_date: Some(moment(21)),
        retry_at: Some(moment(22)),
        ..UNTRIED
    }
}

/// A state of an instance, and so many tries.
type Tried = (TaskState, u32);

/// A run: its DAG, its id, its date, its state, and its instances of tasks x and y.
type Before = (&'static str, &'static str, u32, RunState, Tried, Tried);

const HAS_FAILED: Tried = (TaskState::Failed, 1);

/// Runs 1, 3 and 4 of DAG a, of 1, 2 and 3 microseconds after 1970, and run 2 of DAG b.
const FOUR: &[Before] = &[
    (
        "a",
        "r1",
        1,
        RunState::Failed,
        HAS_FAILED,
        (TaskState::UpstreamFailed, 0),
    ),
    ("b", "r1", 1, RunState::Failed, HAS_FAILED, HAS_FAILED),
    (
        "a",
        "r2",
        2,
        RunState::Success,
        (TaskState::Success, 2),
        (TaskState::Failed, 4),
    ),
    (
        "a",
        "r3",
        3,
        RunState::Running,
        (TaskState::Running, 1),
        (TaskState::NoStatus, 0),
    ),
];

/// When a run in this state has ended.
fn end_of(state: RunState) -> Option<Instant> {
    if state.is_finished() {
        Some(moment(31))
    } else {
        None
    }
}

/// Adds a run of tasks x and y that began at 30 and, where it has ended, ended at 31.
fn add(rt: &impl Abort, alloc: Global, runs: &mut Runs, row: &Before) {
    let instances = [tried(row.4), tried(row.5)];
    let new = run_of(rt, alloc, (row.0, row.1, row.2), &instances);
    let number = runs.add_run(new).expect(rt, "one of four runs is added");
    runs.set_state(number, row.3, Some(moment(30)), end_of(row.3));
}

/// New runs, which are these four.
pub fn four_runs(rt: &impl Abort, alloc: Global) -> Runs {
    let mut runs = Runs::new(alloc);
    for row in FOUR {
        add(rt, alloc, &mut runs, row);
    }
    runs
}
