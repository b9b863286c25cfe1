use crate::shown_answer::Shown;

/// What a service gives for one operation.
#[derive(Drop)]
pub enum Served {
    /// An answer.
    Shown(Shown),
    /// There was no memory, and nothing was done.
    NothingDone,
}
