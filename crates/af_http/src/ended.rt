use af_ops::Status;

/// How serving a connection ended.
#[derive(Clone, Copy, Debug, PartialEq, Eq)]
pub enum Ended {
    /// The input ended between requests, or after a request that closes.
    Closed,
    /// The reader failed.
    ReadFault,
    /// The writer failed, or took no byte.
    WriteFault,
    /// What stood in a request's place was refused with this status.
    Refused(Status),
    /// There were too many reads for one request.
    Turns,
    /// There was no memory, at the opening or for a request.
    NoMemory,
}
