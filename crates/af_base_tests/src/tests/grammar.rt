use super::asserts::{are_json, are_refused};
use std::test::Fail;

const TEXTS: &[&str] = &[
    "null",
    " true ",
    "false",
    "0",
    "-0.5e+3",
    "\"\"",
    "[]",
    "[ ]",
    "{}",
    "\t\n\r {\"a\" : [1, {\"\":null}]} ",
    "\"\\\"\\\\\\/\\b\\f\\n\\r\\t\\u0000\"",
    "\"\u{7f}\"",
    "[1e-400]",
    "{\"a\":1,\"a\":1}",
];

const REFUSED: &[&str] = &[
    "",
    " ",
    "nul",
    "True",
    "01",
    "1.",
    ".5",
    "+1",
    "-",
    "1e",
    "0x1",
    "NaN",
    "Infinity",
    "[1,]",
    "[,1]",
    "[1 2]",
    "[1",
    "]",
    "[1}",
    "{\"a\"}",
    "{\"a\":}",
    "{\"a\":1,}",
    "{a:1}",
    "{1:2}",
    "'a'",
    "\"a",
    "\"\t\"",
    "\"\\x\"",
    "\"\\u00g0\"",
    "1 2",
    "[]]",
    "{}x",
    "\u{feff}{}",
];

#[test]
fn texts_of_the_grammar(rt: HostRuntime) -> Result<(), Fail> {
    are_json(&rt, rt.alloc(), TEXTS)?;
    are_refused(&rt, rt.alloc(), REFUSED)
}
