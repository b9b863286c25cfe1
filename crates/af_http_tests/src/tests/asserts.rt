//! What ends a test, in functions of their own: a message with arguments is dear to prove where it stands.
use std::process::Abort;

/// Ends the test where this does not hold.
pub fn holds(rt: &impl Abort, holds: bool, what: &str) {
    assert!(rt; holds, "{what}");
}

/// Ends the test where what is named was refused memory, in words that say so.
pub fn has_memory(rt: &impl Abort, has_memory: bool, what: &str) {
    assert!(rt; has_memory, "{what}: OutOfMemory");
}

/// Ends the test where a row does not hold.
pub fn row_holds(rt: &impl Abort, holds: bool, row: usize) {
    assert!(rt; holds, "row {row}");
}

/// Ends the test where this does not hold of a number.
pub fn number_holds(rt: &impl Abort, holds: bool, what: &str, number: usize) {
    assert!(rt; holds, "{what} {number}");
}

/// Ends the test where a call with pieces of a size does not hold.
pub fn call_holds(rt: &impl Abort, holds: bool, size: usize, call: usize) {
    assert!(rt; holds, "pieces of {size}, call {call}");
}

/// Ends the test where a row does not go as it says with pieces of a size.
pub fn row_goes(rt: &impl Abort, fault: Option<usize>, row: usize) {
    assert!(rt; fault.is_none(), "row {row}: pieces of {fault:?}");
}
