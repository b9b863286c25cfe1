/// There was no memory for the word.
#[derive(Clone, Copy, Debug, PartialEq, Eq)]
pub struct OutOfMemory;

/// Why a place was not published.
#[derive(Clone, Copy, Debug, PartialEq, Eq)]
pub enum PublishFault {
    /// The version to follow is the last that the word takes. Nothing was done.
    Last,
    /// Somebody published first. This is the version and the place that were found, and the pass has now seen them.
    Moved { version: u32, index: u32 },
}
