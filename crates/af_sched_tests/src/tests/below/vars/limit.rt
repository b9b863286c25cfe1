use crate::tests::asserts::holds;
use crate::tests::below::vars::playing::{key, text};
use af_names::VarKey;
use af_vars::{MOST_VARIABLES, Variable, VariableFault, Variables};
use std::alloc::Global;
use std::process::Abort;

/// The key that is this number.
fn key_of(rt: &impl Abort, alloc: Global, number: usize) -> VarKey {
    let shown = format!(in alloc; "{number}").expect(rt, "the text of a key");
    let key = key(rt, alloc, shown.as_str());
    drop(shown);
    key
}

/// A variable whose key is this number.
fn numbered(rt: &impl Abort, alloc: Global, number: usize) -> Variable {
    let value = text(rt, alloc, "");
    Variable {
        key: key_of(rt, alloc, number),
        value,
    }
}

/// Adds as many variables as there may be, whose keys are the numbers from 100,000 on.
fn fill(rt: &impl Abort, alloc: Global, variables: &mut Variables) {
    for place in 0..65_536 {
        let told = variables.add(numbered(rt, alloc, 100_000 + place));
        told.expect(rt, "a variable is added");
    }
}

#[test]
fn at_the_limit_none_is_added(rt: HostRuntime) {
    let mut variables = Variables::new(rt.alloc());
    fill(&rt, rt.alloc(), &mut variables);
    none_is_added(&rt, rt.alloc(), &mut variables);
    drop(variables);
}

/// Ends the test where there are not as many variables as there may be, or one more is not refused.
fn none_is_added(rt: &impl Abort, alloc: Global, variables: &mut Variables) {
    let count = variables.rows().len();
    holds(rt, count == MOST_VARIABLES, "as many as there may be");
    let told = variables.add(numbered(rt, alloc, 100_000));
    holds(
        rt,
        told == Err(VariableFault::Exists),
        "the key is told first",
    );
    let told = variables.add(numbered(rt, alloc, 99_999));
    holds(rt, told == Err(VariableFault::Full), "one too many");
}
