ghost use Rattle.std.specs.Prelude.{◌≡◌};
ghost use Rattle.std.specs.Option.{option_copied};
ghost use Rattle.af_board.specs.Faults.{mark_of, plain};

use crate::{Mark, Spent};
use af_policy::{BadInput, ChangeFault, Refusal};
use af_role::Need;

/// Why a submitted change made no version, in the order in which the errors are reported. Each error of a decision carries the mark of
/// the version under which it was decided.
#[derive(Drop)]
pub enum SubmitFault {
    /// The table gave no token for the place of the last version, so nothing was decided. It never comes at version 0.
    NotFound,
    /// The token is missing, or no user has it.
    Unauthenticated(Mark),
    /// The author's roles do not list a requirement of the change: the first one.
    Denied(Mark, Need),
    /// The body is no change.
    BadBody(Mark, BadInput),
    /// The first error of the change itself.
    Refused(Mark, ChangeFault),
    /// The version is the last one that the board takes; or the places of the table are used up, for which a push is the evidence.
    Full(Mark, Option<Spent>),
    /// An allocation failed.
    OutOfMemory(Mark),
    /// Another version was published after the draft's base. This is the number of the last one.
    Moved { version: u32 },
}

impl SubmitFault {
    /// The version under which the change was decided. None for `NotFound` and `Moved`.
    pub fn mark(&self) -> Option<&Mark>
        ensures { option_copied result ≡ mark_of self.now }
    {
        match self {
            SubmitFault::NotFound | SubmitFault::Moved { .. } => None,
            SubmitFault::Unauthenticated(mark) | SubmitFault::OutOfMemory(mark) => Some(mark),
            SubmitFault::Denied(mark, _) => Some(mark),
            SubmitFault::BadBody(mark, _) => Some(mark),
            SubmitFault::Refused(mark, _) => Some(mark),
            SubmitFault::Full(mark, _) => Some(mark),
        }
    }

    /// The same error without its mark: what is reported to the author.
    pub fn told(self) -> Refusal
        ensures { result ≡ plain self }
    {
        match self {
            SubmitFault::NotFound => Refusal::NotFound,
            SubmitFault::Unauthenticated(_) => Refusal::Unauthenticated,
            SubmitFault::Denied(_, need) => Refusal::Denied(need),
            SubmitFault::BadBody(_, input) => Refusal::BadBody(input),
            SubmitFault::Refused(_, fault) => Refusal::Refused(fault),
            SubmitFault::Full(_, _) => Refusal::Full,
            SubmitFault::OutOfMemory(_) => Refusal::OutOfMemory,
            SubmitFault::Moved { version } => Refusal::Moved(version),
        }
    }
}
