/// What the server reads of a head.
#[derive(Clone, Copy)]
pub struct Request<'b> {
    pub method: &'b [u8],
    pub target: &'b [u8],
    /// The bearer's token.
    pub token: Option<&'b [u8]>,
    /// The client wants the connection closed after it.
    pub closes: bool,
    /// How many bytes its body has.
    pub length: usize,
}
