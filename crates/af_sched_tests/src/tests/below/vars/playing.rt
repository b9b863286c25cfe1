//! Steps on variables, and what they answer. What should not fail is expected to succeed, with words for it: so no function has a
//! way out before its end, at which what it owns would be dropped anew.
use crate::tests::asserts::{has_memory, holds, is_right};
use crate::tests::variables::are_variables;
use af_names::VarKey;
use af_vars::{VarText, Variable, VariableFault, Variables};
use std::alloc::Global;
use std::process::Abort;

/// A variable is added or gets another text, with this text, or is removed.
#[derive(Clone, Copy)]
pub enum Step {
    Add(&'static str),
    Set(&'static str),
    Remove,
}

use Step::{Add, Remove, Set};

/// A step on the variable of a key, and what it answers.
pub type Row = (Step, &'static str, Result<(), VariableFault>);

/// What is told beforehand, and what is answered.
type Told = (Option<VariableFault>, Result<(), VariableFault>);

/// The key of this text.
pub fn key(rt: &impl Abort, alloc: Global, text: &str) -> VarKey {
    VarKey::parse(alloc, text).expect(rt, "the key of a variable")
}

/// The text of a variable.
pub fn text(rt: &impl Abort, alloc: Global, text: &str) -> VarText {
    VarText::of(String::from_str(alloc, text).expect(rt, "the text of a variable"))
}

/// Adds a variable of this key and this text.
fn add(
    rt: &impl Abort,
    alloc: Global,
    variables: &mut Variables,
    key: VarKey,
    value: &str,
) -> Told {
    let foretold = variables.add_fault(&key);
    let value = text(rt, alloc, value);
    (foretold, variables.add(Variable { key, value }))
}

/// Gives the variable of this key another text.
fn set(
    rt: &impl Abort,
    alloc: Global,
    variables: &mut Variables,
    key: VarKey,
    value: &str,
) -> Told {
    let foretold = variables.change_fault(&key);
    let told = variables.set_value(&key, text(rt, alloc, value));
    drop(key);
    (foretold, told)
}

/// Removes the variable of this key.
fn remove(variables: &mut Variables, key: VarKey) -> Told {
    let told = (variables.change_fault(&key), variables.remove(&key));
    drop(key);
    told
}

/// Takes a step on the variable of a key.
fn taken(rt: &impl Abort, alloc: Global, variables: &mut Variables, row: Row) -> Told {
    let key = key(rt, alloc, row.1);
    match row.0 {
        Add(value) => add(rt, alloc, variables, key, value),
        Set(value) => set(rt, alloc, variables, key, value),
        Remove => remove(variables, key),
    }
}

/// Takes the steps, and ends the test where one is foretold or answers otherwise, or the rows after the last are not these.
pub fn play(
    rt: &impl Abort,
    alloc: Global,
    variables: &mut Variables,
    steps: &[Row],
    rows: &[(&str, &str)],
) {
    for (place, step) in steps.iter().enumerate() {
        let (foretold, told) = taken(rt, alloc, variables, *step);
        has_memory(rt, told != Err(VariableFault::OutOfMemory), step.1);
        is_right(rt, foretold == step.2.err(), "what is foretold", place);
        is_right(rt, told == step.2, "the answer", place);
    }
    let are_variables = are_variables(variables.rows(), rows);
    holds(rt, are_variables, "the rows after the steps");
}
