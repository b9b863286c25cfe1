use crate::tests::asserts::{holds, is_right};
use crate::tests::below::vars::playing::{Row, Step, key, play};
use crate::tests::variables::has_text;
use Step::{Add, Remove, Set};
use af_vars::{Variable, VariableFault, Variables};
use std::alloc::Global;
use std::process::Abort;

const ADDED: &[Row] = &[
    (Add("v"), "k", Ok(())),
    (Add(""), "Zed", Ok(())),
    (Add("a \u{e9}"), "a b", Ok(())),
];

const REFUSED: &[Row] = &[
    (Add("w"), "k", Err(VariableFault::Exists)),
    (Set("w"), "absent", Err(VariableFault::NoSuchVariable)),
    (Remove, "absent", Err(VariableFault::NoSuchVariable)),
];

const CHANGED: &[Row] = &[
    (Set("w"), "k", Ok(())),
    (Set("w"), "Zed", Ok(())),
    (Remove, "a b", Ok(())),
    (Remove, "a b", Err(VariableFault::NoSuchVariable)),
];

const ALL: &[(&str, &str)] = &[("Zed", ""), ("a b", "a \u{e9}"), ("k", "v")];

const LEFT: &[(&str, &str)] = &[("Zed", "w"), ("k", "w")];

/// Steps, and the rows after the last of them.
const STAGES: &[(&[Row], &[(&str, &str)])] = &[
    (&[], &[]),
    (ADDED, ALL),
    (REFUSED, ALL),
    (CHANGED, LEFT),
];

/// Keys, and the texts of their variables, where these are there.
const FOUND: &[(&str, Option<&str>)] = &[("k", Some("w")), ("Zed", Some("w")), ("absent", None)];

/// Whether it is told rightly that the variable of a key is there, and whether it has this text.
fn is_found(
    rt: &impl Abort,
    alloc: Global,
    variables: &Variables,
    text: &str,
    value: Option<&str>,
) -> (bool, bool) {
    let key = key(rt, alloc, text);
    let is_there = variables.has(&key) == value.is_some();
    let has_text = has_text(variables.get(&key), value);
    drop(key);
    (is_there, has_text)
}

/// Ends the test where a variable is not found as it should be.
fn are_found(rt: &impl Abort, alloc: Global, variables: &Variables) {
    for (row, (key, value)) in FOUND.iter().enumerate() {
        let (is_there, has_text) = is_found(rt, alloc, variables, key, *value);
        is_right(rt, is_there, "whether it is there", row);
        is_right(rt, has_text, "its text", row);
    }
}

/// Ends the test where one of the stages does not go as it says.
fn go(rt: &impl Abort, alloc: Global, variables: &mut Variables) {
    for (steps, rows) in STAGES {
        play(rt, alloc, variables, steps, rows);
    }
}

#[test]
fn rows_go_by_key_and_a_fault_leaves_them(rt: HostRuntime) {
    let mut variables = Variables::new(rt.alloc());
    go(&rt, rt.alloc(), &mut variables);
    are_found(&rt, rt.alloc(), &variables);
    drop(variables);
}

const IN_RESERVE: &[Row] = &[(Add("1"), "q", Ok(())), (Add("2"), "p", Ok(()))];

const TWO: &[(&str, &str)] = &[("p", "2"), ("q", "1")];

/// A copy of the first variable.
fn first_again(rt: &impl Abort, alloc: Global, variables: &Variables) -> Variable {
    let first = variables.rows().first().expect(rt, "the first row");
    first.copied(alloc).expect(rt, "a copy of a variable")
}

/// Ends the test where a copy of the first variable is not that of p.
fn is_copied(rt: &impl Abort, alloc: Global, variables: &Variables) {
    let again = first_again(rt, alloc, variables);
    holds(rt, again.key.as_str() == "p", "the key of the copy");
    holds(rt, again.value.as_str() == "2", "the text of the copy");
    drop(again);
}

/// Reserves two rows of new variables; ends the test where the rows are not as before, or there is no room for two.
fn reserve_two(rt: &impl Abort, variables: &mut Variables) {
    variables.reserve(2).expect(rt, "two rows are reserved");
    holds(rt, variables.rows().is_empty(), "as before");
    holds(rt, variables.spare() >= 2, "room for two");
}

#[test]
fn reserved_rows_are_there(rt: HostRuntime) {
    let mut variables = Variables::new(rt.alloc());
    reserve_two(&rt, &mut variables);
    play(&rt, rt.alloc(), &mut variables, IN_RESERVE, TWO);
    is_copied(&rt, rt.alloc(), &variables);
    drop(variables);
}
