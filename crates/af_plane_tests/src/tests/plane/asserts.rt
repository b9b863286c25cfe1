//! What ends a test, in functions of their own: a message with arguments is dear to prove where it stands.
use std::process::Abort;

/// Ends the test where not all rows of a story go as they should.
pub fn story_holds(rt: &impl Abort, told: usize, rows: usize, what: &str) {
    assert!(rt; told == rows, "{what}: row {told}");
}

/// Ends the test where this does not hold.
pub fn holds(rt: &impl Abort, holds: bool, what: &str) {
    assert!(rt; holds, "{what}");
}
