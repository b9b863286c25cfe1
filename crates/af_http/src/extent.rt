/// What stands at the front of a text that begins with no empty line.
#[derive(Clone, Copy, Debug, PartialEq, Eq)]
pub enum Extent {
    /// Less than a head.
    Part,
    /// More bytes than a head may have.
    Large,
    /// A head of so many bytes, its empty line included.
    Whole(usize),
}
