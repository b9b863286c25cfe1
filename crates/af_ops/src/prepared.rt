ghost use Rattle.std.specs.Prelude.{◌≡◌, Some, None};
ghost use Rattle.af_ops.specs.Edits.{edited, is_edit, with_run};
ghost use Rattle.af_sched.specs.Plan.{applied};
ghost use Rattle.af_ops.specs.Prepared.{CanAddRun, CanAddRuns, CanDo};

use crate::body::Body;
use crate::edit::Edit;
use crate::row_edits::{
    add_pool, add_variable, remove_pool, remove_variable, set_slots, set_variable,
};
use af_runs::NewRun;
use af_sched::{Plan, State};
use std::marker::Model;

/// An operation that can be committed without memory. Contracts see the body of its reply, if it has one, and its edit.
#[derive(Drop)]
pub struct Prepared {
    reply: Option<Body>,
    edit: Edit,
}

impl Model for Prepared {
    ghost use Rattle.af_ops.specs.Prepared.{Preparation};

    ghost Value = { Preparation };

    ghost view = { λ p. record { reply = p.reply; edit = p.edit } };
}

impl Prepared {
    /// What gives a reply of these bytes and does this edit.
    pub(crate) fn of(body: Vec<u8>, edit: Edit) -> Prepared
        ensures { result ≡ record { reply = Some body.items; edit = edit } }
    {
        Prepared {
            reply: Some(Body::of(body)),
            edit,
        }
    }

    /// What does this edit, and of which nothing is told.
    pub(crate) fn without_reply(edit: Edit) -> Prepared
        ensures { result ≡ record { reply = None; edit = edit } }
    {
        Prepared { reply: None, edit }
    }

    /// The body of its reply, if it has one.
    pub(crate) fn into_reply(self) -> Option<Body>
        ensures { result ≡ self.reply }
    {
        let Prepared { reply, edit: _ } = self;
        reply
    }

    /// Whether it will change the state.
    pub fn changes(&self) -> bool
        ensures { result ≡ is_edit self.now.edit }
    {
        match &self.edit {
            Edit::Nothing => false,
            Edit::DagPaused(_, _)
            | Edit::RunAdded(_)
            | Edit::RunMarked(_, _, _)
            | Edit::InstancesCleared(_, _)
            | Edit::RunRemoved(_)
            | Edit::RunsPlanned(_)
            | Edit::PoolAdded(_, _)
            | Edit::PoolSet(_, _)
            | Edit::PoolRemoved(_)
            | Edit::VariableAdded(_)
            | Edit::VariableSet(_, _)
            | Edit::VariableRemoved(_) => true,
        }
    }
}

/// Does a prepared operation, on the state that it was prepared on, and gives the body of its reply, if it has one. It takes no memory.
pub fn commit(state: &mut State, prepared: Prepared) -> Option<Body>
    requires { CanDo state.old prepared.edit }
    ensures reply { result ≡ prepared.reply }
    ensures next { state.new.rows ≡ edited prepared.edit state.old.rows }
{
    let Prepared { reply, edit } = prepared;
    do_edit(state, edit);
    reply
}

/// Does an edit for which there is room. It takes no memory.
fn do_edit(state: &mut State, edit: Edit)
    requires { CanDo state.old edit }
    ensures { state.new.rows ≡ edited edit state.old.rows }
{
    match edit {
        Edit::Nothing => {}
        Edit::DagPaused(dag_id, is_paused) => state.set_paused(&dag_id, is_paused),
        Edit::RunAdded(new) => add_run(state, new),
        Edit::RunMarked(number, mark, at) => state.mark_run(number, mark, at),
        Edit::InstancesCleared(filter, selection) => state.clear_instances(&filter, &selection),
        Edit::RunRemoved(number) => state.remove_run(number),
        Edit::RunsPlanned(plan) => add_runs(state, plan),
        Edit::PoolAdded(name, slots) => add_pool(state, name, slots),
        Edit::PoolSet(name, slots) => set_slots(state, &name, slots),
        Edit::PoolRemoved(name) => remove_pool(state, &name),
        Edit::VariableAdded(variable) => add_variable(state, variable),
        Edit::VariableSet(key, value) => set_variable(state, &key, value),
        Edit::VariableRemoved(key) => remove_variable(state, &key),
    }
}

/// Adds a run that may be added. It takes no memory.
fn add_run(state: &mut State, new: NewRun)
    requires { CanAddRun state.old new }
    ensures { state.new.rows ≡ with_run state.old.rows new }
{
    // There is room for it and no fault, so it succeeds.
    let _number = state.add_run(new);
}

/// Adds the runs of a plan that may be done. It takes no memory.
fn add_runs(state: &mut State, plan: Plan)
    requires { CanAddRuns state.old plan }
    ensures { state.new.rows ≡ applied plan state.old.rows }
{
    state.commit(plan);
}
