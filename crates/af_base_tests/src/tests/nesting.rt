use super::asserts::holds;
use super::is_json;
use std::alloc::Global;
use std::test::Fail;

/// Adds a text so many times.
fn push_times(text: &mut String, part: &str, times: usize) -> Result<(), Fail> {
    for _ in 0..times {
        text.push_str(part)?;
    }
    Ok(())
}

/// A list or an object in another, this many deep.
fn nested(alloc: Global, open: &str, close: &str, depth: usize) -> Result<String, Fail> {
    let mut text = String::new(alloc);
    push_times(&mut text, open, depth)?;
    text.push('0')?;
    push_times(&mut text, close, depth)?;
    Ok(text)
}

/// Whether such a text is JSON.
fn is_nested(alloc: Global, open: &str, close: &str, depth: usize) -> Result<bool, Fail> {
    let text = nested(alloc, open, close, depth)?;
    is_json(alloc, text.as_bytes())
}

/// What opens, what closes, how deep, and whether that is JSON.
const NESTED: &[(&str, &str, usize, bool)] = &[
    ("[", "]", 126, true),
    ("{\"a\":", "}", 126, true),
    ("[[],", "]", 126, true),
    ("{\"a\":{},\"b\":", "}", 126, true),
    ("[", "]", 127, true),
    ("[", "]", 128, false),
    ("{\"a\":", "}", 127, true),
    ("{\"a\":", "}", 128, false),
];

#[test]
fn nesting_and_its_limit(rt: HostRuntime) -> Result<(), Fail> {
    for (open, close, depth, wanted) in NESTED {
        let is_nested = is_nested(rt.alloc(), open, close, *depth)?;
        holds(&rt, is_nested == *wanted, open);
    }
    Ok(())
}
