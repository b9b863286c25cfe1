// What is done to pools and variables. Each edit has room and no fault, so it succeeds, and takes no memory.
ghost use Rattle.std.specs.Prelude.{◌≡◌};
ghost use Rattle.af_ops.specs.declared.edit.Edit.TheVariants.{PoolAdded, PoolRemoved, PoolSet, VariableAdded, VariableRemoved, VariableSet};
ghost use Rattle.af_ops.specs.Edits.{edited};
ghost use Rattle.af_ops.specs.Prepared.{CanDo};

use af_names::{PoolName, VarKey};
use af_sched::State;
use af_vars::{VarText, Variable};

/// A pool is added.
pub(crate) fn add_pool(state: &mut State, name: PoolName, slots: u32)
    requires { CanDo state.old (PoolAdded name slots) }
    ensures { state.new.rows ≡ edited (PoolAdded name slots) state.old.rows }
{
    let _done = state.add_pool(name, u64::from(slots));
}

/// A pool gets other slots.
pub(crate) fn set_slots(state: &mut State, name: &PoolName, slots: u32)
    requires { CanDo state.old (PoolSet name.now slots) }
    ensures { state.new.rows ≡ edited (PoolSet name.now slots) state.old.rows }
{
    let _done = state.set_slots(name, u64::from(slots));
}

/// A pool is taken out.
pub(crate) fn remove_pool(state: &mut State, name: &PoolName)
    requires { CanDo state.old (PoolRemoved name.now) }
    ensures { state.new.rows ≡ edited (PoolRemoved name.now) state.old.rows }
{
    let _done = state.remove_pool(name);
}

/// A variable is added.
pub(crate) fn add_variable(state: &mut State, variable: Variable)
    requires { CanDo state.old (VariableAdded variable) }
    ensures { state.new.rows ≡ edited (VariableAdded variable) state.old.rows }
{
    let _done = state.add_variable(variable);
}

/// A variable gets another text.
pub(crate) fn set_variable(state: &mut State, key: &VarKey, value: VarText)
    requires { CanDo state.old (VariableSet key.now value) }
    ensures { state.new.rows ≡ edited (VariableSet key.now value) state.old.rows }
{
    let _done = state.set_variable(key, value);
}

/// A variable is taken out.
pub(crate) fn remove_variable(state: &mut State, key: &VarKey)
    requires { CanDo state.old (VariableRemoved key.now) }
    ensures { state.new.rows ≡ edited (VariableRemoved key.now) state.old.rows }
{
    let _done = state.remove_variable(key);
}
