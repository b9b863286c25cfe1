mod additions;
mod asked;
mod asserts;
mod cleared;
mod clears;
mod four;
mod lookups;
mod making;
mod marks;
mod seen;
mod tasks;
mod texts;

use crate::tests::asserts::holds;
use crate::tests::seen::number_of;
use af_runs::{RunFault, RunState, Runs};
use asserts::run_has_memory;
use making::{FAILED, New, UNTRIED, add_runs, ids, moment, new_run};
use seen::{Row, has_rows, have_instances, is_dated, is_row};
use std::alloc::Global;
use std::process::Abort;

/// A run that is to be added, by its DAG, its id and its date; what is told; and the words for it.
type Asked<'a> = (&'a str, &'a str, u32, Result<u64, RunFault>, &'a str);

/// Ends the test where what is told of a run that is asked for is not what it should be.
fn are_told_of(rt: &impl Abort, alloc: Global, runs: &mut Runs, rows: &[Asked<'_>]) {
    for row in rows {
        let new = new_run(rt, alloc, (row.0, row.1, row.2));
        let told = runs.add_run(new);
        run_has_memory(rt, told);
        holds(rt, told == row.3, row.4);
    }
}

const ID_TAKEN: Result<u64, RunFault> = Err(RunFault::RunExists);

const DATE_TAKEN: Result<u64, RunFault> = Err(RunFault::DateTaken);

const ASKED: &[Asked<'static>] = &[
    ("a", "r1", 1, Ok(1), "the first of a"),
    ("b", "r2", 2, Ok(2), "the first of b"),
    ("a", "r1", 1, ID_TAKEN, "the id before the date"),
    ("a", "r3", 1, DATE_TAKEN, "the date of r1"),
    ("b", "r1", 1, Ok(3), "id and date of another DAG"),
];

const ADDED: &[Row<'static>] = &[
    (1, "a", "r1", RunState::Queued),
    (2, "b", "r2", RunState::Queued),
    (3, "b", "r1", RunState::Queued),
];

#[test]
fn runs_of_two_dags_are_added_or_refused(rt: HostRuntime) {
    let mut runs = Runs::new(rt.alloc());
    are_told_of(&rt, rt.alloc(), &mut runs, ASKED);
    holds(&rt, has_rows(runs.rows(), ADDED), "in order of number");
    drop(runs);
}

/// Run r1 of a, then r2 and r1 of b.
const THREE: &[New<'static>] = &[("a", "r1", 1), ("b", "r2", 2), ("b", "r1", 1)];

/// The number of the run of these ids.
fn number_by_ids(
    rt: &impl Abort,
    alloc: Global,
    runs: &Runs,
    dag_id: &str,
    run_id: &str,
) -> Option<u64> {
    let (dag_id, run_id) = ids(rt, alloc, dag_id, run_id);
    number_of(runs.find(&dag_id, &run_id))
}

/// Why r3 of b would not be added, at the date of r2.
fn fault_of_b(rt: &impl Abort, alloc: Global, runs: &Runs) -> Option<RunFault> {
    let (dag_id, run_id) = ids(rt, alloc, "b", "r3");
    runs.add_fault(&dag_id, &run_id, moment(2))
}

/// Ids, and the number of the run of these.
const FOUND: &[(&str, &str, Option<u64>)] = &[("b", "r1", Some(3)), ("b", "r3", None)];

/// Ends the test where a run is not found by its ids.
fn are_found(rt: &impl Abort, alloc: Global, runs: &Runs) {
    for (dag_id, run_id, wanted) in FOUND {
        let told = number_by_ids(rt, alloc, runs, dag_id, run_id);
        holds(rt, told == *wanted, run_id);
    }
}

#[test]
fn runs_are_found(rt: HostRuntime) {
    let mut runs = Runs::new(rt.alloc());
    add_runs(&rt, rt.alloc(), &mut runs, THREE);
    are_found(&rt, rt.alloc(), &runs);
    have_numbers(&rt, &runs);
    let told = fault_of_b(&rt, rt.alloc(), &runs);
    holds(&rt, told == Some(RunFault::DateTaken), "the date of r2");
    drop(runs);
}

/// Ends the test where run 2 is not found by its number, or a run 4 is.
fn have_numbers(rt: &impl Abort, runs: &Runs) {
    let is_second = match runs.get(2) {
        Some(run) => is_row(run, &(2, "b", "r2", RunState::Queued)),
        None => false,
    };
    holds(rt, is_second, "number 2");
    holds(rt, runs.get(4).is_none(), "no number 4");
}

const CHANGED: &[Row<'static>] = &[
    (1, "a", "r1", RunState::Success),
    (2, "b", "r2", RunState::Running),
    (3, "b", "r1", RunState::Queued),
];

/// The states of runs 1 and 2 are set, and of 7, which is not there, at 9.
#[test]
fn one_run_is_set(rt: HostRuntime) {
    let mut runs = Runs::new(rt.alloc());
    add_runs(&rt, rt.alloc(), &mut runs, THREE);
    let at = moment(9);
    runs.set_state(2, RunState::Running, Some(at), None);
    runs.set_state(1, RunState::Success, Some(at), Some(at));
    runs.set_state(7, RunState::Success, Some(at), Some(at));
    holds(&rt, has_rows(runs.rows(), CHANGED), "the rows of 1 and 2");
    let is_dated = is_dated(&runs, 2, Some(at), None);
    holds(&rt, is_dated, "start");
    drop(runs);
}

/// The last instance of run 3 is set, and the one after it, which is not there.
#[test]
fn one_instance_is_set(rt: HostRuntime) {
    let mut runs = Runs::new(rt.alloc());
    add_runs(&rt, rt.alloc(), &mut runs, THREE);
    runs.set_instance(3, 1, FAILED);
    runs.set_instance(3, 2, FAILED);
    let wanted = [UNTRIED, FAILED];
    let what = "the second of run 3";
    have_instances(&rt, rt.alloc(), &runs, ("b", "r1"), &wanted, what);
    drop(runs);
}

/// Runs r1 and r2 of a that are to be added.
const IN_RESERVE: &[Asked<'static>] = &[
    ("a", "r1", 1, Ok(1), "the first in reserve"),
    ("a", "r2", 2, Ok(2), "the second in reserve"),
];

const TWO: &[Row<'static>] = &[
    (1, "a", "r1", RunState::Queued),
    (2, "a", "r2", RunState::Queued),
];

/// Ends the test where two runs are not added in reserve, or a third that is refused leaves them otherwise.
fn are_added(rt: &impl Abort, alloc: Global, runs: &mut Runs) {
    holds(rt, runs.spare() >= 2, "room for two");
    are_told_of(rt, alloc, runs, IN_RESERVE);
    let told = runs.add_run(new_run(rt, alloc, ("a", "r3", 3)));
    let is_left = told != Err(RunFault::OutOfMemory) || has_rows(runs.rows(), TWO);
    holds(rt, is_left, "as before");
    holds(rt, runs.rows().len() >= 2, "both are there");
}

#[test]
fn a_refused_growth_leaves_the_runs(rt: HostRuntime) {
    let mut runs = Runs::new(rt.alloc());
    if runs.reserve(2).is_err() {
        holds(&rt, runs.rows().is_empty(), "nothing reserved");
    } else {
        are_added(&rt, rt.alloc(), &mut runs);
    }
    drop(runs);
}
