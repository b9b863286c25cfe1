/// Why a text is no instant, in the order in which the faults are told.
#[derive(Clone, Copy, Debug, PartialEq, Eq)]
pub enum InstantError {
    /// The text is no date and time with an offset from UTC.
    BadInstant,
    /// The moment is before 1970 or after the end of 9998.
    OutOfRange,
    /// A growth of memory was refused. Reading an instant takes no memory, so this is never told:
    /// it stands for callers that handle the faults of all readers in one way.
    OutOfMemory,
}
