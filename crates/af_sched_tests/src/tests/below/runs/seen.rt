//! What the tests look at: rows of runs, and their instances.
use super::making::{UNTRIED, ids};
use crate::tests::asserts::holds;
use af_names::Instant;
use af_runs::{Instance, Run, RunState, Runs};
use std::alloc::Global;
use std::process::Abort;

pub type Row<'a> = (u64, &'a str, &'a str, RunState);

pub fn has_rows(rows: &[Run], wanted: &[Row<'_>]) -> bool {
    for (run, want) in rows.iter().zip(wanted) {
        if !is_row(run, want) {
            return false;
        }
    }
    rows.len() == wanted.len()
}

pub fn is_row(run: &Run, wanted: &Row<'_>) -> bool {
    (
        run.number,
        run.dag_id.as_str(),
        run.run_id.as_str(),
        run.state,
    ) == *wanted
}

/// Whether a run started and ended so.
pub fn is_dated(runs: &Runs, number: u64, start: Option<Instant>, end: Option<Instant>) -> bool {
    match runs.get(number) {
        Some(run) => run.start_date.get() == start && run.end_date.get() == end,
        None => false,
    }
}

/// Whether the run of these ids has these instances.
fn has_instances(
    rt: &impl Abort,
    alloc: Global,
    runs: &Runs,
    run: (&str, &str),
    wanted: &[Instance],
) -> bool {
    let (dag_id, run_id) = ids(rt, alloc, run.0, run.1);
    runs.instances(&dag_id, &run_id) == Some(wanted)
}

/// Ends the test where the run of these ids does not have these instances, or the run r1 of a two that were not tried.
pub fn have_instances(
    rt: &impl Abort,
    alloc: Global,
    runs: &Runs,
    run: (&str, &str),
    wanted: &[Instance],
    what: &str,
) {
    let of_run = has_instances(rt, alloc, runs, run, wanted);
    holds(rt, of_run, what);
    let of_first = has_instances(rt, alloc, runs, ("a", "r1"), &[UNTRIED, UNTRIED]);
    holds(rt, of_first, "run 1 as it was");
}
