/// Why no request can be read where one should begin. Where the method is known it says whether it is HEAD, whose answer
/// has no body.
#[derive(Clone, Copy, Debug, PartialEq, Eq)]
pub enum Refusal {
    /// The head is no request's, or one without a `Host` or with a bad `Content-Length`.
    BadHead(bool),
    /// The input ended within a request.
    Incomplete(bool),
    /// More bytes or more lines than a head may have.
    HeadTooLarge,
    /// The body comes in a coding of the transfer.
    Coding(bool),
    /// A body longer than one may be.
    BodyTooLarge(bool),
}
