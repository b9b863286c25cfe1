use super::asserts::{are_refused, holds};
use af_base::json_in;
use json::Scratch;
use std::alloc::Global;
use std::test::Fail;

/// A JSON text, and the text that it is, if it is one.
const TEXTS: &[(&str, Option<&str>)] = &[
    ("\"\"", Some("")),
    ("\"a b\"", Some("a b")),
    (
        "\"\\ud83d\\ude00\\u00e9\\n\\/\"",
        Some("\u{1f600}\u{e9}\n/"),
    ),
    ("\"\\u0041\"", Some("A")),
    ("1", None),
    ("null", None),
    ("[\"a\"]", None),
];

/// Half a pair of surrogates.
const HALVES: &[&str] = &[
    "\"\\ud83d\"",
    "\"\\ude00\"",
    "\"\\ud83d\\ud83d\"",
    "\"\\ude00\\ud83d\"",
    "\"\\ud83dx\"",
    "{\"\\ud83d\":1}",
];

/// Whether a JSON text is this text, or none.
fn is_text(alloc: Global, text: &str, wanted: Option<&str>) -> Result<bool, Fail> {
    let mut scratch = Scratch::new(alloc);
    match json_in(alloc, text.as_bytes(), &mut scratch)? {
        Some(value) => Ok(value.as_str() == wanted),
        None => Ok(false),
    }
}

#[test]
fn texts_and_their_escapes(rt: HostRuntime) -> Result<(), Fail> {
    for (text, wanted) in TEXTS {
        let is_text = is_text(rt.alloc(), text, *wanted)?;
        holds(&rt, is_text, text);
    }
    are_refused(&rt, rt.alloc(), HALVES)
}
