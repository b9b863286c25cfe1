use crate::tests::asserts::holds;
use crate::tests::fresh::with_new_state;
use af_names::VarKey;
use af_sched::State;
use af_vars::{VarText, Variable, VariableFault};
use std::alloc::Global;
use std::process::Abort;
use std::test::Fail;

/// What is done to the variable of a key.
#[derive(Clone, Copy)]
enum Change {
    /// It is added with this text.
    Add(&'static str),
    /// It gets this text.
    Set(&'static str),
    Remove,
}

use Change::{Add, Remove, Set};

/// A key, what is done, and the fault that is told.
type Row = (&'static str, Change, Option<VariableFault>);

const CHANGES: &[Row] = &[
    ("b", Add("1"), None),
    ("a", Add("2"), None),
    ("b", Add("3"), Some(VariableFault::Exists)),
    ("c", Set("3"), Some(VariableFault::NoSuchVariable)),
    ("c", Remove, Some(VariableFault::NoSuchVariable)),
    ("c", Add("4"), None),
    ("b", Set("5"), None),
    ("a", Remove, None),
];

const LEFT: &[(&str, &str)] = &[("b", "5"), ("c", "4")];

fn variable(alloc: Global, key: &str, text: &str) -> Result<Variable, Fail> {
    let key = VarKey::parse(alloc, key)?;
    let value = VarText::of(String::from_str(alloc, text)?);
    Ok(Variable { key, value })
}

pub fn add_variable(alloc: Global, state: &mut State, key: &str, text: &str) -> Result<(), Fail> {
    state.add_variable(variable(alloc, key, text)?)?;
    Ok(())
}

/// Whether the variable of this key may be removed, and is.
pub fn remove_variable(alloc: Global, state: &mut State, key: &str) -> Result<bool, Fail> {
    let key = VarKey::parse(alloc, key)?;
    Ok(state.remove_variable(&key).is_ok())
}

/// Whether the variables have these keys and texts.
pub fn are_variables(rows: &[Variable], wanted: &[(&str, &str)]) -> bool {
    for (row, (key, text)) in rows.iter().zip(wanted) {
        if row.key.as_str() != *key || row.value.as_str() != *text {
            return false;
        }
    }
    rows.len() == wanted.len()
}

/// The fault that is told beforehand.
fn foretold(
    alloc: Global,
    state: &State,
    key: &str,
    change: Change,
) -> Result<Option<VariableFault>, Fail> {
    let key = VarKey::parse(alloc, key)?;
    match change {
        Add(_) => Ok(state.add_variable_fault(&key)),
        Set(_) | Remove => Ok(state.change_variable_fault(&key)),
    }
}

/// The fault that is told when it is done.
fn told(
    alloc: Global,
    state: &mut State,
    key: &str,
    change: Change,
) -> Result<Option<VariableFault>, Fail> {
    match change {
        Add(text) => Ok(state.add_variable(variable(alloc, key, text)?).err()),
        Set(text) => set_variable(alloc, state, key, text),
        Remove => {
            let key = VarKey::parse(alloc, key)?;
            Ok(state.remove_variable(&key).err())
        }
    }
}

/// The fault that is told when the variable of this key gets this text.
fn set_variable(
    alloc: Global,
    state: &mut State,
    key: &str,
    text: &str,
) -> Result<Option<VariableFault>, Fail> {
    let key = VarKey::parse(alloc, key)?;
    let value = VarText::of(String::from_str(alloc, text)?);
    Ok(state.set_variable(&key, value).err())
}

/// Does what a row says: whether what is told beforehand, and then, is the fault of the row.
fn goes(alloc: Global, state: &mut State, row: Row) -> Result<(bool, bool), Fail> {
    let (key, change, wanted) = row;
    let before = foretold(alloc, state, key, change)?;
    let then = told(alloc, state, key, change)?;
    Ok((before == wanted, then == wanted))
}

/// Ends the test where a change of variables is not foretold and told as it should be.
fn are_told(rt: &impl Abort, alloc: Global, state: &mut State) -> Result<(), Fail> {
    for row in CHANGES {
        let (before, then) = goes(alloc, state, *row)?;
        holds(rt, before, row.0);
        holds(rt, then, row.0);
    }
    Ok(())
}

#[test]
fn variables_are_changed_one_by_one(rt: HostRuntime) -> Result<(), Fail> {
    with_new_state(&rt, are_changed)
}

/// Ends the test where the variables of a new state are not changed as they should be.
fn are_changed(rt: &impl Abort, alloc: Global, state: &mut State) -> Result<(), Fail> {
    holds(rt, state.variables().is_empty(), "none at first");
    state.reserve_variables(3)?;
    are_told(rt, alloc, state)?;
    let are_left = are_variables(state.variables(), LEFT);
    holds(rt, are_left, "the variables that are left");
    Ok(())
}

/// Whether a variable has this text; of none, whether there is no variable.
pub fn has_text(found: Option<&Variable>, wanted: Option<&str>) -> bool {
    match (found, wanted) {
        (Some(row), Some(text)) => row.value.as_str() == text,
        (None, None) => true,
        _ => false,
    }
}

#[test]
fn a_variable_is_looked_up(rt: HostRuntime) -> Result<(), Fail> {
    with_new_state(&rt, is_looked_up)
}

/// Ends the test where a variable that is added to a new state is not found, or another is.
fn is_looked_up(rt: &impl Abort, alloc: Global, state: &mut State) -> Result<(), Fail> {
    add_variable(alloc, state, "k", "v")?;
    for (name, wanted) in LOOKED_UP {
        let is_there = is_there(alloc, state, name, *wanted)?;
        holds(rt, is_there, name);
    }
    Ok(())
}

/// Keys, and the texts that are found.
const LOOKED_UP: &[(&str, Option<&str>)] = &[("k", Some("v")), ("x", None)];

/// Whether the variable of this key has this text; of none, whether there is no variable.
fn is_there(alloc: Global, state: &State, name: &str, wanted: Option<&str>) -> Result<bool, Fail> {
    let key = VarKey::parse(alloc, name)?;
    Ok(has_text(state.variable(&key), wanted))
}
