ghost use Rattle.std.specs.Prelude.{◌≡◌, IfOk, OnOk};
ghost use Rattle.af_audit.specs.Acts.{IsAfter, IsState, after_op};
ghost use Rattle.af_audit.specs.Entries.{IsReplay};

use crate::act::Act;
use crate::entry::Entry;
use crate::nobody::Nobody;
use af_names::Instant;
use af_ops::{Op, OpFault, commit, prepare};
use af_sched::State;
use std::alloc::{AllocError, Global};

/// The state that these entries make of this one: each act is done again at its moment, and one that would be refused leaves
/// the state as it is. The state that is handed in is given up. `AllocError` only where a growth was refused, now or when the
/// body of an operation was read.
pub fn replay(alloc: Global, opening: State, entries: &[Entry]) -> Result<State, AllocError>
    ensures { IfOk result (λ state. IsReplay opening.rows entries.now state.rows) }
{
    let mut state = opening;
    for entry in entries {
        redo(alloc, &mut state, entry)?;
    }
    Ok(state)
}

/// Does the act of an entry again.
fn redo(alloc: Global, state: &mut State, entry: &Entry) -> Result<(), AllocError>
    ensures after { OnOk result (IsAfter entry.now.act entry.now.moment state.old.rows state.new.rows) }
    ensures state { OnOk result (IsState state.new.rows) }
{
    redo_act(alloc, state, &entry.act, entry.moment)?;
    show_state(state);
    Ok(())
}

/// Does an act again, at a moment.
fn redo_act(alloc: Global, state: &mut State, act: &Act, at: Instant) -> Result<(), AllocError>
    ensures { OnOk result (IsAfter act.now at state.old.rows state.new.rows) }
{
    match act {
        Act::Did(op) => redo_op(alloc, state, op, at),
        Act::Tick => {
            let _changed = state.tick(alloc, at)?;
            Ok(())
        }
        Act::Claim(_) => {
            let _claim = state.claim(alloc, at)?;
            Ok(())
        }
        Act::Report(claim, outcome) => {
            // A report that is refused leaves the state.
            let _told = state.report(claim, *outcome, at);
            Ok(())
        }
    }
}

/// Does an operation again, at a moment.
fn redo_op(alloc: Global, state: &mut State, op: &Op, at: Instant) -> Result<(), AllocError>
    ensures { OnOk result (state.new.rows ≡ after_op op.now at state.old.rows) }
{
    match prepare(alloc, state, op, &Nobody, at) {
        Ok(prepared) => {
            let _reply = commit(state, prepared);
            Ok(())
        }
        Err(OpFault::OutOfMemory) => Err(AllocError),
        Err(_) => Ok(()),
    }
}

/// A state's rows are as rows are at all times.
pub(crate) fn show_state(state: &State)
    ensures { IsState state.now.rows }
{
    let _dags = state.dags();
    let _runs = state.runs();
}
