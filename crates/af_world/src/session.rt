/// What a session has seen.
#[derive(Clone, Copy, Debug, PartialEq, Eq)]
pub struct Seen {
    /// The latest policy version.
    pub version: u32,
    /// The number of entries of the audit, when it was last answered there.
    pub entries: u32,
}
