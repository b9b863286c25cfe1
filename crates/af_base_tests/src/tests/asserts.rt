//! What ends a test, in functions of their own: a message with arguments is dear to prove where it stands.
use super::is_json;
use std::alloc::Global;
use std::process::Abort;
use std::test::Fail;

/// Ends the test where this does not hold.
pub fn holds(rt: &impl Abort, holds: bool, what: &str) {
    assert!(rt; holds, "{what}");
}

/// Ends the test where a row does not hold.
pub fn row_holds(rt: &impl Abort, holds: bool, row: usize) {
    assert!(rt; holds, "row {row}");
}

/// Ends the test where one of these is no JSON text.
pub fn are_json(rt: &impl Abort, alloc: Global, texts: &[&str]) -> Result<(), Fail> {
    for text in texts {
        let is_json = is_json(alloc, text.as_bytes())?;
        holds(rt, is_json, text);
    }
    Ok(())
}

/// Ends the test where one of these is a JSON text.
pub fn are_refused(rt: &impl Abort, alloc: Global, texts: &[&str]) -> Result<(), Fail> {
    for text in texts {
        let is_json = is_json(alloc, text.as_bytes())?;
        holds(rt, !is_json, text);
    }
    Ok(())
}
