/// There was no memory for the word.
#[derive(Clone, Copy, Debug, PartialEq, Eq)]
pub struct OutOfMemory;
