//! What the tests are made of. What should not fail is expected to succeed, with words for it, or proved to: so no function has a
//! way out before its end, at which what it owns would be dropped anew.
use crate::tests::openings::manual_run;
use af_graph::TaskState;
use af_names::{DagId, Instant, RunId};
use af_runs::{Instance, Instances, NewRun, Runs};
use std::alloc::Global;
use std::process::Abort;

/// The moment that many microseconds after the start of 1970.
pub fn moment(micros: u32) -> Instant {
    Instant::of_micros(u64::from(micros)).unwrap()
}

/// The same, where there is one.
pub fn maybe(micros: Option<u32>) -> Option<Instant> {
    match micros {
        Some(micros) => Some(moment(micros)),
        None => None,
    }
}

/// An instance that was not tried.
pub const UNTRIED: Instance = Instance {
    state: TaskState::NoStatus,
    try_number: 0,
    max_tries: 1,
    start_date: None,
    end_date: None,
    retry_at: None,
};

/// An instance that failed at its first try.
pub const FAILED: Instance = Instance {
    state: TaskState::Failed,
    try_number: 1,
    ..UNTRIED
};

/// The ids of a DAG and of a run.
pub fn ids(rt: &impl Abort, alloc: Global, dag_id: &str, run_id: &str) -> (DagId, RunId) {
    let dag_id = DagId::parse(alloc, dag_id).expect(rt, "the id of a DAG");
    let run_id = RunId::parse(alloc, run_id).expect(rt, "the id of a run");
    (dag_id, run_id)
}

/// The ids of a new run, and its date.
pub type New<'a> = (&'a str, &'a str, u32);

/// A run of these instances.
pub fn run_of(rt: &impl Abort, alloc: Global, row: New<'_>, instances: &[Instance]) -> NewRun {
    let (dag_id, run_id) = ids(rt, alloc, row.0, row.1);
    let instances = Vec::from_slice(alloc, instances).expect(rt, "the instances of a run");
    manual_run(dag_id, run_id, moment(row.2), Instances::of(instances))
}

/// A run of two tasks.
pub fn new_run(rt: &impl Abort, alloc: Global, row: New<'_>) -> NewRun {
    run_of(rt, alloc, row, &[UNTRIED, UNTRIED])
}

/// Adds new runs of two tasks.
pub fn add_runs(rt: &impl Abort, alloc: Global, runs: &mut Runs, rows: &[New<'_>]) {
    for row in rows {
        let new = new_run(rt, alloc, *row);
        let _number = runs.add_run(new).expect(rt, "a run is added");
    }
}
