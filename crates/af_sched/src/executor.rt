use crate::claim::Claim;
use crate::outcome::Outcome;

/// What runs claimed instances, and tells how their tries end.
pub trait Executor {
    /// Runs the try of a claim, and tells how it ended.
    fn run(&mut self, claim: &Claim) -> Outcome;
}
