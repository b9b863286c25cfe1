//! What ends a test, in functions of their own: a message with arguments is dear to prove where it stands.
use std::process::Abort;

/// Ends the test where this does not hold.
pub fn holds(rt: &impl Abort, holds: bool, what: &str) {
    assert!(rt; holds, "{what}");
}

/// Ends the test where what is named was refused memory, in words that say so.
pub fn has_memory(rt: &impl Abort, has_memory: bool, what: &str) {
    assert!(rt; has_memory, "{what}: OutOfMemory");
}

/// Ends the test where a row does not hold.
pub fn row_holds(rt: &impl Abort, holds: bool, row: usize) {
    assert!(rt; holds, "row {row}");
}

/// Ends the test where what is told of a row is not right.
pub fn is_right(rt: &impl Abort, is_right: bool, what: &str, row: usize) {
    assert!(rt; is_right, "{what}: row {row}");
}

/// Ends the test where a step does not go as it says, by its number.
pub fn all_go(rt: &impl Abort, fault: Option<usize>, what: &str) {
    assert!(rt; fault.is_none(), "{what}: step {fault:?}");
}
