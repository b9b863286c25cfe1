use crate::ended::Ended;

/// What comes of the message at the front of what is held.
#[derive(Clone, Copy)]
pub enum Handled {
    /// It was answered or refused: how the connection ends, if it does, and how many bytes the message has.
    Over(Option<Ended>, usize),
    /// Its body, of so many bytes, is not whole. Whether its method is HEAD.
    Short(usize, bool),
}
