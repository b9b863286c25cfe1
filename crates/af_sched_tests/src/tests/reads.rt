use crate::tests::asserts::holds;
use crate::tests::fresh::with_new_state;
use crate::tests::openings::{add_dag_of_one, add_run_of_one};
use crate::tests::seen::number_of;
use af_graph::TaskState;
use af_names::DagId;
use af_sched::State;
use std::alloc::Global;
use std::process::Abort;
use std::test::Fail;

/// Adds two DAGs of one task.
fn add_dags(alloc: Global, state: &mut State) -> Result<(), Fail> {
    add_dag_of_one(alloc, state, "a", 1, true)?;
    add_dag_of_one(alloc, state, "b", 1, true)
}

/// Adds a run of each of these DAGs.
fn add_runs(alloc: Global, state: &mut State, runs: &[&str]) -> Result<(), Fail> {
    for (date, dag_id) in runs.iter().enumerate() {
        add_dated(alloc, state, dag_id, date as u64)?;
    }
    Ok(())
}

/// Adds a run of this date, by which it is called.
fn add_dated(alloc: Global, state: &mut State, dag_id: &str, date: u64) -> Result<(), Fail> {
    let run_id = format!(in alloc; "r{date}")?;
    let run_id = run_id.as_str();
    let _number = add_run_of_one(alloc, state, dag_id, run_id, date, TaskState::NoStatus)?;
    Ok(())
}

/// Whether the runs of a DAG have these numbers, from a place among them on.
fn are(
    alloc: Global,
    state: &State,
    dag_id: &str,
    from: usize,
    wanted: &[u64],
) -> Result<bool, Fail> {
    let dag_id = DagId::parse(alloc, dag_id)?;
    let count = state.count_of_dag(&dag_id);
    Ok(
        number_of(state.run_of_dag(&dag_id, from)) == wanted.first().copied()
            && is_page(state, &dag_id, from, wanted)
            && count == from.saturating_add(wanted.len()),
    )
}

/// Whether the runs of a DAG from a place on have these numbers.
fn is_page(state: &State, dag_id: &DagId, from: usize, wanted: &[u64]) -> bool {
    let mut page = state.runs_of_dag(dag_id, from);
    for number in wanted {
        if number_of(page.next()) != Some(*number) {
            return false;
        }
    }
    page.next().is_none()
}

/// Whether the runs that have not ended have these numbers.
fn are_busy(state: &State, wanted: &[u64]) -> bool {
    let mut busy = state.busy_runs();
    for number in wanted {
        if number_of(busy.next()) != Some(*number) {
            return false;
        }
    }
    busy.next().is_none()
}

/// A DAG, a place, and the numbers of its runs from there on: first of all runs, then without number 3.
const ALL: [(&str, usize, &[u64]); 4] = [
    ("a", 0, &[1, 3, 4]),
    ("a", 1, &[3, 4]),
    ("b", 1, &[5]),
    ("c", 0, &[]),
];

const WITHOUT_THREE: [(&str, usize, &[u64]); 1] = [("a", 0, &[1, 4])];

const ADDED: &[&str] = &["a", "b", "a", "a", "b"];

const BUSY: [u64; 4] = [1, 2, 4, 5];

/// Whether each row of a table is so.
fn all_are(alloc: Global, state: &State, table: &[(&str, usize, &[u64])]) -> Result<bool, Fail> {
    let mut all = true;
    for (dag_id, from, wanted) in table {
        all = all && are(alloc, state, dag_id, *from, wanted)?;
    }
    Ok(all)
}

/// Takes run 3 out, and run 7, which is not there.
fn remove_two(state: &mut State) {
    state.remove_run(3);
    state.remove_run(7);
}

#[test]
fn runs_of_a_dag_are_read_from_any_place(rt: HostRuntime) -> Result<(), Fail> {
    with_new_state(&rt, are_read)
}

/// Ends the test where runs, added to a new state, are not read from any place, or not once one is taken out.
fn are_read(rt: &impl Abort, alloc: Global, state: &mut State) -> Result<(), Fail> {
    add_dags(alloc, state)?;
    add_runs(alloc, state, ADDED)?;
    holds(rt, all_are(alloc, state, &ALL)?, "all runs");
    remove_two(state);
    are_left(rt, alloc, state)
}

/// Ends the test where the runs are not those without number 3.
fn are_left(rt: &impl Abort, alloc: Global, state: &State) -> Result<(), Fail> {
    let are_left = all_are(alloc, state, &WITHOUT_THREE)?;
    holds(rt, are_left, "without number 3");
    let are_busy = are_busy(state, &BUSY);
    holds(rt, are_busy, "each that has not ended, and no other");
    holds(rt, state.next_run() == Some(6), "no number is used again");
    Ok(())
}
