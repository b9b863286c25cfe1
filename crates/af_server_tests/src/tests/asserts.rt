//! What ends a test, in functions of their own: a message with arguments is dear to prove where it stands.
use std::alloc::{AllocError, Global};
use std::process::Abort;

/// The number of the first row or front, or the size or length, that does not go as it says, or none.
pub type Fault = Result<Option<usize>, AllocError>;

/// Ends the test where this does not hold.
pub fn holds(rt: &impl Abort, holds: bool, what: &str) {
    assert!(rt; holds, "{what}");
}

/// Ends the test where one of these does not go as it says, by its number, or where there is no memory.
pub fn all_go(rt: &impl Abort, fault: Fault, what: &str) {
    assert!(rt; fault == Ok(None), "{what}: {fault:?}");
}

/// The number of the first of these rows that does not go as it says.
pub fn first_fault<T, F>(alloc: Global, rows: &[T], goes: F) -> Fault
where
    F: FnOnce(Global, &T) -> Result<bool, AllocError> + Copy,
    requires { F.IsAlwaysCallable goes }
{
    for (number, row) in rows.iter().enumerate() {
        if !goes(alloc, row)? {
            return Ok(Some(number));
        }
    }
    Ok(None)
}
