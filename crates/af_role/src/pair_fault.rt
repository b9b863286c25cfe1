use crate::{PairText, Text};
use std::alloc::AllocError;

/// Why texts are no permissions, in the order in which the faults are told.
#[derive(Drop)]
pub enum PairFault {
    /// A text is none of the four actions: the first.
    BadAction(Text),
    /// A resource is not known, or it is one DAG and the action is to create: the first.
    NotAllowed(PairText),
    /// A growth of memory was refused.
    OutOfMemory,
}

impl From<AllocError> for PairFault {
    ghost use Rattle.std.specs.Prelude.{◌≡◌};
    ghost use Rattle.af_role.specs.declared.pair_fault.PairFault.TheVariants.{OutOfMemory};

    ghost from_gives = { λ _ e. e ≡ OutOfMemory };

    fn from(_error: AllocError) -> PairFault {
        PairFault::OutOfMemory
    }
}
