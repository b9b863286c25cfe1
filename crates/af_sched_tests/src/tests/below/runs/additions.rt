use super::asserts::run_has_memory;
use super::making::{FAILED, New, add_runs, moment, new_run, run_of};
use super::seen::{Row, has_rows, have_instances, is_dated};
use super::{Asked, DATE_TAKEN, ID_TAKEN};
use crate::tests::asserts::holds;
use af_runs::{Additions, NewRun, OptionalInstant, Run, RunFault, RunState, Runs};
use std::alloc::Global;
use std::process::Abort;

/// The run r1 of a, the first.
const ONE: &[New<'static>] = &[("a", "r1", 1)];

const ASKED: &[Asked<'static>] = &[
    ("b", "r2", 2, Ok(2), "after the lent run"),
    ("a", "r1", 9, ID_TAKEN, "the id of a lent run"),
    ("a", "r9", 1, DATE_TAKEN, "the date of a lent run"),
    ("b", "r2", 9, ID_TAKEN, "the id of an addition"),
    ("b", "r9", 2, DATE_TAKEN, "the date of an addition"),
    ("b", "r2", 2, ID_TAKEN, "the id before the date"),
    ("b", "r1", 1, Ok(3), "id and date of another DAG"),
];

const ADDED: &[Row<'static>] = &[
    (2, "b", "r2", RunState::Queued),
    (3, "b", "r1", RunState::Queued),
];

/// Ends the test where what is told of a run that is asked for is not what it should be.
fn are_told_of(rt: &impl Abort, alloc: Global, additions: &mut Additions<'_>) {
    for row in ASKED {
        let new = new_run(rt, alloc, (row.0, row.1, row.2));
        let told = additions.add_run(new);
        run_has_memory(rt, told);
        holds(rt, told == row.3, row.4);
    }
}

#[test]
fn an_addition_clashes_with_lent_and_added_runs(rt: HostRuntime) {
    let mut runs = Runs::new(rt.alloc());
    add_runs(&rt, rt.alloc(), &mut runs, ONE);
    clash(&rt, rt.alloc(), Additions::of(rt.alloc(), &runs));
    drop(runs);
}

/// Ends the test where these additions, of which there are none yet, are not what they should be once runs are asked for.
fn clash(rt: &impl Abort, alloc: Global, additions: Additions<'_>) {
    let mut additions = additions;
    holds(rt, additions.rows().is_empty(), "none yet");
    are_told_of(rt, alloc, &mut additions);
    holds(rt, has_rows(additions.rows(), ADDED), "in order of number");
    drop(additions);
}

/// Appends the runs r2 of b and r3 of a to these; the last number of all.
fn append(rt: &impl Abort, alloc: Global, runs: &mut Runs) -> u64 {
    let second = new_run(rt, alloc, ("b", "r2", 2));
    let third = new_run(rt, alloc, ("a", "r3", 3));
    let mut additions = Additions::of(alloc, runs);
    let _number = additions.add_run(second).expect(rt, "r2 of b is added");
    let _number = additions.add_run(third).expect(rt, "r3 of a is added");
    let (added, last) = additions.into_rows();
    runs.reserve(added.len())
        .expect(rt, "room for the additions");
    runs.append(added, last);
    last
}

const APPENDED: &[Row<'static>] = &[
    (1, "a", "r1", RunState::Queued),
    (2, "b", "r2", RunState::Queued),
    (3, "a", "r3", RunState::Queued),
];

#[test]
fn additions_are_appended(rt: HostRuntime) {
    let mut runs = Runs::new(rt.alloc());
    add_runs(&rt, rt.alloc(), &mut runs, ONE);
    let last = append(&rt, rt.alloc(), &mut runs);
    holds(&rt, last == 3, "the last of all");
    holds(&rt, has_rows(runs.rows(), APPENDED), "after the others");
    let told = runs.add_run(new_run(&rt, rt.alloc(), ("b", "r4", 4)));
    let number = told.expect(&rt, "r4 of b is added");
    holds(&rt, number == 4, "the next number");
    drop(runs);
}

/// Ends the test where a run was not added, and the additions are not as before: none, after the run that is borrowed.
fn are_left(rt: &impl Abort, additions: Additions<'_>, told: Result<u64, RunFault>) {
    let is_empty = additions.rows().is_empty();
    let has_second = has_rows(additions.rows(), THE_SECOND);
    let (added, last) = additions.into_rows();
    let is_none = added.is_empty() && last == 1;
    drop(added);
    if told == Err(RunFault::OutOfMemory) {
        holds(rt, is_empty, "as before");
        holds(rt, is_none, "the lent run is the last");
    } else {
        holds(rt, told == Ok(2), "added");
        holds(rt, has_second, "the one addition");
    }
}

#[test]
fn a_refused_growth_leaves_the_additions(rt: HostRuntime) {
    let mut runs = Runs::new(rt.alloc());
    add_runs(&rt, rt.alloc(), &mut runs, ONE);
    is_added_or_left(&rt, rt.alloc(), &runs);
    drop(runs);
}

/// Ends the test where the run r2 of a is not added to the run r1, and the additions are not as before.
fn is_added_or_left(rt: &impl Abort, alloc: Global, runs: &Runs) {
    let second = new_run(rt, alloc, ("a", "r2", 2));
    let mut additions = Additions::of(alloc, runs);
    let told = additions.add_run(second);
    are_left(rt, additions, told);
}

const THE_SECOND: &[Row<'static>] = &[(2, "a", "r2", RunState::Queued)];

/// The run of a number, ended at 9, with an instance that failed.
fn ended(rt: &impl Abort, alloc: Global, number: u64) -> Run {
    let NewRun {
        dag_id,
        run_id,
        logical_date,
        interval,
        run_type,
        instances,
    } = run_of(rt, alloc, ("c", "r7", 7), &[FAILED]);
    Run {
        number,
        dag_id,
        run_id,
        logical_date,
        interval,
        run_type,
        state: RunState::Failed,
        start_date: OptionalInstant::from(Some(logical_date)),
        end_date: OptionalInstant::from(Some(moment(9))),
        instances,
    }
}

/// The run r1 of a and the run r2 of b.
const TWO: &[New<'static>] = &[("a", "r1", 1), ("b", "r2", 2)];

const ADVANCED: &[Row<'static>] = &[
    (1, "a", "r1", RunState::Queued),
    (2, "b", "r2", RunState::Failed),
];

#[test]
fn a_run_advances(rt: HostRuntime) {
    let mut runs = Runs::new(rt.alloc());
    add_runs(&rt, rt.alloc(), &mut runs, TWO);
    runs.advance(ended(&rt, rt.alloc(), 2));
    runs.advance(ended(&rt, rt.alloc(), 3));
    holds(&rt, has_rows(runs.rows(), ADVANCED), "the state of 2 alone");
    let is_dated = is_dated(&runs, 2, Some(moment(7)), Some(moment(9)));
    holds(&rt, is_dated, "start and end");
    let what = "the instances of the later one";
    have_instances(&rt, rt.alloc(), &runs, ("b", "r2"), &[FAILED], what);
    drop(runs);
}
