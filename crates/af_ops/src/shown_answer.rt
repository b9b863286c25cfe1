use crate::body::Body;
use crate::status::Status;

/// What of an answer is told: RFC 9110 puts it into a message.
#[derive(Drop)]
pub struct Shown {
    pub status: Status,
    /// The policy version that the operation was decided under, where it was decided.
    pub version: Option<u32>,
    /// How many entries the audit has, the call's own included, where it was decided on the state.
    pub seq: Option<u32>,
    /// None where the status has no content.
    pub body: Option<Body>,
}
