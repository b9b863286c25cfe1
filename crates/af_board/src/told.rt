use crate::Mark;

/// An answer, and the version of the policy under which it was decided.
#[derive(Drop)]
pub struct Told<T: Drop> {
    pub mark: Mark,
    pub answer: T,
}
