use af_ops::{Methods, Status};

/// An answer, wherever its body lies.
#[derive(Clone, Copy)]
pub struct Answer<'b> {
    pub status: Status,
    /// The methods of the path, with 405.
    pub allow: Option<Methods>,
    /// The policy version.
    pub version: Option<u32>,
    /// The number of entries.
    pub seq: Option<u32>,
    pub body: Option<&'b [u8]>,
}
