// The operations on variables.
ghost use Rattle.std.specs.Prelude.{◌≡◌, IfOk, None, Ok, true, if◌then◌else◌, nat_eq};
ghost use Rattle.std.specs.Cmp.Lexicographic.{pointwise};
ghost use Rattle.serde_json.specs.Written.{compact_text};
ghost use Rattle.af_base.specs.Readings.{seen};
ghost use Rattle.af_vars.specs.Variables.{add_fault};
ghost use Rattle.af_ops.specs.declared.answer.OpFault.TheVariants.{OutOfMemory};
ghost use Rattle.af_ops.specs.declared.edit.Edit.TheVariants.{Nothing, VariableSet};
ghost use Rattle.af_ops.specs.Decisions.{ChangesWhereDone};
ghost use Rattle.af_ops.specs.EffectParts.{input_or};
ghost use Rattle.af_ops.specs.VariableEffects.{adding, got_variable, listed_variables, told_fault, unless_fault, variable_added, variable_changed, variable_deleted, variable_effect, variable_or, variables_data};
ghost use Rattle.af_ops.specs.Prepared.{CanDo, IsExact, MemoryLast, done_on};
ghost use Rattle.af_ops.specs.Table.{reads_only};
ghost use Rattle.af_ops.specs.VariableOps.{endpoint_of};

use crate::answer::OpFault;
use crate::body_fault::BodyFault;
use crate::edit::Edit;
use crate::operations::shared::{cut, input_fault, window_or};
use crate::prepared::Prepared;
use crate::row::{late_listing_text, row_text};
use crate::variable_op::VariableOp;
use crate::variable_text::WrittenRow;
use af_listing::Window;
use af_names::VarKey;
use af_policy::Parameter;
use af_sched::State;
use af_vars::{VarText, Variable, VariableFault};
use std::alloc::{AllocError, Global};

pub(crate) fn prepare_variables(
    alloc: Global,
    state: &mut State,
    op: &VariableOp,
) -> Result<Prepared, OpFault>
    ensures told { MemoryLast OutOfMemory (variable_effect state.old.rows op.now) (seen (done_on state.old.rows) result) }
    ensures room { IfOk result (λ prepared. CanDo state.new prepared.edit) }
    ensures exact { IfOk result (λ prepared. IsExact state.old.rows prepared.edit) }
    ensures rows { state.new.rows ≡ state.old.rows }
{
    match op {
        VariableOp::List(_) | VariableOp::Get(_) => read_variables(alloc, state, op),
        VariableOp::Add(input) => variable_added(alloc, state, input),
        VariableOp::Change(key, input) => variable_changed(alloc, state, key, input),
        VariableOp::Delete(key) => variable_deleted(alloc, state, key),
    }
}

/// What an operation that only reads tells of the variables.
pub(crate) fn read_variables(
    alloc: Global,
    state: &State,
    op: &VariableOp,
) -> Result<Prepared, OpFault>
    requires { reads_only (endpoint_of op.now) ≡ true }
    ensures told { MemoryLast OutOfMemory (variable_effect state.now.rows op.now) (seen (done_on state.now.rows) result) }
    ensures room { IfOk result (λ prepared. CanDo state.now prepared.edit) }
    ensures exact { IfOk result (λ prepared. IsExact state.now.rows prepared.edit) }
{
    match op {
        VariableOp::List(asked) => listed_variables(alloc, state, asked),
        VariableOp::Get(key) => got_variable(alloc, state, key),
        VariableOp::Add(_) | VariableOp::Change(_, _) | VariableOp::Delete(_) => unreachable!(),
    }
}

/// Whether an operation changes the variables, where it is not refused. It takes no memory to tell.
pub(crate) fn would_change_variables(state: &State, op: &VariableOp) -> bool
    ensures { ChangesWhereDone (variable_effect state.now.rows op.now) result }
{
    match op {
        VariableOp::List(_) | VariableOp::Get(_) => false,
        VariableOp::Add(Ok(_)) | VariableOp::Delete(_) => true,
        VariableOp::Change(key, Ok(value)) => would_write(state, key, value),
        VariableOp::Add(Err(_)) | VariableOp::Change(_, Err(_)) => false,
    }
}

/// Whether a variable does not hold this text, where it is there.
fn would_write(state: &State, key: &VarKey, value: &VarText) -> bool
    ensures { ChangesWhereDone (variable_changed state.now.rows key.now (Ok value.now)) result }
{
    match state.variable(key) {
        Some(row) => !holds(row, value),
        None => false,
    }
}

fn listed_variables(
    alloc: Global,
    state: &State,
    asked: &Result<Window, Parameter>,
) -> Result<Prepared, OpFault>
    ensures told { MemoryLast OutOfMemory (listed_variables state.now.rows asked.now) (seen (done_on state.now.rows) result) }
    ensures room { IfOk result (λ prepared. CanDo state.now prepared.edit) }
    ensures exact { IfOk result (λ prepared. IsExact state.now.rows prepared.edit) }
{
    let window = window_or(asked)?;
    let body = variables_text(alloc, state.variables(), window)?;
    Ok(Prepared::of(body, Edit::Nothing))
}

/// The text of a page of the variables.
fn variables_text(alloc: Global, all: &[Variable], window: Window) -> Result<Vec<u8>, AllocError>
    ensures { IfOk result (λ body. body.items ≡ compact_text (variables_data window all.now)) }
{
    let shown: Vec<&Variable> = cut(all, window).iter().collect(alloc)?;
    let body = late_listing_text(alloc, "variables", shown.as_slice(), all.len())?;
    Ok(body)
}

fn variable_added(
    alloc: Global,
    state: &mut State,
    input: &Result<Variable, BodyFault>,
) -> Result<Prepared, OpFault>
    ensures told { MemoryLast OutOfMemory (variable_added state.old.rows input.now) (seen (done_on state.old.rows) result) }
    ensures room { IfOk result (λ prepared. CanDo state.new prepared.edit) }
    ensures exact { IfOk result (λ prepared. IsExact state.old.rows prepared.edit) }
    ensures rows { state.new.rows ≡ state.old.rows }
{
    let variable = added_or(input)?;
    unless_fault(state.add_variable_fault(&variable.key))?;
    let prepared = new_variable(alloc, state, variable)?;
    Ok(prepared)
}

/// A variable that may be added, with room for it, and the text of its reply.
fn new_variable(
    alloc: Global,
    state: &mut State,
    variable: &Variable,
) -> Result<Prepared, AllocError>
    requires free { add_fault state.old.rows.variables variable.now.key ≡ None }
    ensures told { IfOk result (λ prepared. done_on state.old.rows prepared ≡ adding state.old.rows variable.now) }
    ensures room { IfOk result (λ prepared. CanDo state.new prepared.edit) }
    ensures exact { IfOk result (λ prepared. IsExact state.old.rows prepared.edit) }
    ensures rows { state.new.rows ≡ state.old.rows }
{
    state.reserve_variables(1)?;
    let body = row_text(alloc, variable)?;
    let variable = variable.copied(alloc)?;
    Ok(Prepared::of(body, Edit::VariableAdded(variable)))
}

fn got_variable(alloc: Global, state: &State, key: &VarKey) -> Result<Prepared, OpFault>
    ensures told { MemoryLast OutOfMemory (got_variable state.now.rows key.now) (seen (done_on state.now.rows) result) }
    ensures room { IfOk result (λ prepared. CanDo state.now prepared.edit) }
    ensures exact { IfOk result (λ prepared. IsExact state.now.rows prepared.edit) }
{
    let row = variable_or(state, key)?;
    let body = row_text(alloc, row)?;
    Ok(Prepared::of(body, Edit::Nothing))
}

fn variable_changed(
    alloc: Global,
    state: &State,
    key: &VarKey,
    input: &Result<VarText, BodyFault>,
) -> Result<Prepared, OpFault>
    ensures told { MemoryLast OutOfMemory (variable_changed state.now.rows key.now input.now) (seen (done_on state.now.rows) result) }
    ensures room { IfOk result (λ prepared. CanDo state.now prepared.edit) }
    ensures exact { IfOk result (λ prepared. IsExact state.now.rows prepared.edit) }
{
    let value = value_or(input)?;
    let row = variable_or(state, key)?;
    let body = row_text(alloc, &WrittenRow { row, value })?;
    let edit = write_edit(alloc, row, key, value)?;
    Ok(Prepared::of(body, edit))
}

/// The edit that gives a variable this text: nothing where it holds it.
fn write_edit(
    alloc: Global,
    row: &Variable,
    key: &VarKey,
    value: &VarText,
) -> Result<Edit, AllocError>
    ensures { IfOk result (λ edit. edit ≡ (if pointwise nat_eq row.now.value value.now then Nothing else VariableSet key.now value.now)) }
{
    if holds(row, value) {
        return Ok(Edit::Nothing);
    }
    let key = key.copied(alloc)?;
    let value = value.copied(alloc)?;
    Ok(Edit::VariableSet(key, value))
}

/// Whether a variable holds this text.
fn holds(row: &Variable, value: &VarText) -> bool
    ensures { result ≡ pointwise nat_eq row.now.value value.now }
{
    row.value.as_str() == value.as_str()
}

fn variable_deleted(alloc: Global, state: &State, key: &VarKey) -> Result<Prepared, OpFault>
    ensures told { MemoryLast OutOfMemory (variable_deleted state.now.rows key.now) (seen (done_on state.now.rows) result) }
    ensures room { IfOk result (λ prepared. CanDo state.now prepared.edit) }
    ensures exact { IfOk result (λ prepared. IsExact state.now.rows prepared.edit) }
{
    unless_fault(state.change_variable_fault(key))?;
    let key = key.copied(alloc)?;
    Ok(Prepared::without_reply(Edit::VariableRemoved(key)))
}

/// The variable of a key.
fn variable_or<'a>(state: &'a State, key: &VarKey) -> Result<&'a Variable, OpFault>
    ensures { seen (λ row. row.now) result ≡ variable_or state.now.rows key.now }
{
    state.variable(key).ok_or(OpFault::NoSuchVariable)
}

/// The variable that was read of a body.
fn added_or(input: &Result<Variable, BodyFault>) -> Result<&Variable, OpFault>
    ensures { seen (λ variable. variable.now) result ≡ input_or input.now }
{
    match input {
        Ok(variable) => Ok(variable),
        Err(why) => Err(input_fault(*why)),
    }
}

/// The text that was read of a body.
fn value_or(input: &Result<VarText, BodyFault>) -> Result<&VarText, OpFault>
    ensures { seen (λ value. value.now) result ≡ input_or input.now }
{
    match input {
        Ok(value) => Ok(value),
        Err(why) => Err(input_fault(*why)),
    }
}

fn unless_fault(fault: Option<VariableFault>) -> Result<(), OpFault>
    ensures { result ≡ unless_fault fault }
{
    match fault {
        Some(why) => Err(told_fault(why)),
        None => Ok(()),
    }
}

/// How the fault of a change of variables is told.
fn told_fault(why: VariableFault) -> OpFault
    ensures { result ≡ told_fault why }
{
    match why {
        VariableFault::NoSuchVariable => OpFault::NoSuchVariable,
        VariableFault::Exists => OpFault::Exists,
        VariableFault::Full => OpFault::TooMany,
        VariableFault::OutOfMemory => OpFault::OutOfMemory,
    }
}
