/// An allocation failed while the board was opened.
#[derive(Clone, Copy, Debug, PartialEq, Eq)]
pub struct OutOfMemory;

/// The table gave no token for the place of the last version. It never comes at version 0.
#[derive(Clone, Copy, Debug, PartialEq, Eq)]
pub struct NotFound;
