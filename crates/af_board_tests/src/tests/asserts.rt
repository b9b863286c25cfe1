//! What ends a test, in functions of their own: a message with arguments is dear to prove where it stands.
use std::process::Abort;

/// Ends the test where this does not hold.
pub fn holds(rt: &impl Abort, holds: bool, what: &str) {
    assert!(rt; holds, "{what}");
}

/// Ends the test where an allocation failed, in words that say so.
pub fn has_memory(rt: &impl Abort, has_memory: bool, what: &str) {
    assert!(rt; has_memory, "{what}: OutOfMemory");
}

/// Ends the test where a row does not hold.
pub fn row_holds(rt: &impl Abort, holds: bool, what: &str, row: usize) {
    assert!(rt; holds, "{what}: row {row}");
}
