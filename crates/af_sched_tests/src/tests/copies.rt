use crate::tests::asserts::holds;
use crate::tests::fresh::with_new_state;
use crate::tests::openings::{add_pooled, moment};
use crate::tests::pools::slots_of;
use crate::tests::seen::{are_dags, first_are, states_are};
use crate::tests::steps::sets_slots;
use crate::tests::variables::{add_variable, are_variables, remove_variable};
use af_graph::TaskState;
use af_runs::{Mark, RunState};
use af_sched::State;
use std::alloc::Global;
use std::process::Abort;
use std::test::Fail;

const QUEUED: &[TaskState] = &[TaskState::Queued];

const SUCCESS: &[TaskState] = &[TaskState::Success];

/// Adds pool p of two slots, a DAG g of one task, a run of it, and a variable k.
fn add_one_of_each(alloc: Global, state: &mut State) -> Result<(), Fail> {
    add_pooled(alloc, state, 2, &[("t", 1, 1)], false, QUEUED)?;
    add_variable(alloc, state, "k", "v")
}

/// Changes the run, the pool and the variable: whether the pool and the variable may be changed, and are.
fn is_changed(alloc: Global, state: &mut State) -> Result<bool, Fail> {
    state.mark_run(1, Mark::Success, moment(5)?);
    Ok(sets_slots(alloc, state, 7)? && remove_variable(alloc, state, "k")?)
}

/// Changes the pool, the run and the variable.
fn change(alloc: Global, state: &mut State) -> Result<(), Fail> {
    if is_changed(alloc, state)? {
        Ok(())
    } else {
        Err(Fail::from("it is not changed"))
    }
}

/// Ends the test where a state is not the one that stood before the change, pools apart.
fn is_as_before(rt: &impl Abort, copy: &State) {
    holds(rt, are_dags(copy, &["g"]), "the DAG");
    holds(rt, first_are(copy, QUEUED), "the instance");
    holds(rt, states_are(copy, &[RunState::Queued]), "the run");
    let are_variables = are_variables(copy.variables(), &[("k", "v")]);
    holds(rt, are_variables, "the variable");
    holds(rt, copy.next_run() == Some(2), "the next number");
}

#[test]
fn a_copy_stays_where_the_state_changes(rt: HostRuntime) -> Result<(), Fail> {
    with_new_state(&rt, copy_stays)
}

/// Ends the test where the copy of what is added to a new state does not stay.
fn copy_stays(rt: &impl Abort, alloc: Global, state: &mut State) -> Result<(), Fail> {
    add_one_of_each(alloc, state)?;
    let copy = state.copied(alloc)?;
    let ended = stays(rt, alloc, state, &copy);
    drop(copy);
    ended
}

/// Changes a state, and ends the test where its copy does not stay as it was.
fn stays(rt: &impl Abort, alloc: Global, state: &mut State, copy: &State) -> Result<(), Fail> {
    change(alloc, state)?;
    is_as_before(rt, copy);
    let slots = slots_of(alloc, copy, "p")?;
    holds(rt, slots == Some(2), "the slots");
    Ok(())
}

#[test]
fn a_state_changes_and_its_copy_too(rt: HostRuntime) -> Result<(), Fail> {
    with_new_state(&rt, copy_changes)
}

/// Ends the test where the copy of what is added to a new state does not change.
fn copy_changes(rt: &impl Abort, alloc: Global, state: &mut State) -> Result<(), Fail> {
    add_one_of_each(alloc, state)?;
    let mut copy = state.copied(alloc)?;
    let ended = changes(rt, alloc, &mut copy);
    drop(copy);
    ended
}

/// Changes a copy, and ends the test where it is not changed.
fn changes(rt: &impl Abort, alloc: Global, copy: &mut State) -> Result<(), Fail> {
    change(alloc, copy)?;
    holds(rt, first_are(copy, SUCCESS), "the instance");
    let slots = slots_of(alloc, copy, "p")?;
    holds(rt, slots == Some(7), "the slots");
    holds(rt, copy.variables().is_empty(), "the variable");
    Ok(())
}
