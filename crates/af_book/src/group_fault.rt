ghost use Rattle.std.specs.Prelude.{◌≡◌};
ghost use Rattle.af_book.specs.declared.group_fault.GroupFault.TheVariants.{OutOfMemory};

use af_store::LineFault;
use std::alloc::{AllocError, AllocFailed};

/// Why a record is not added to a group.
#[derive(Clone, Copy, Debug, PartialEq, Eq)]
pub enum GroupFault {
    /// The entry does not have the next number, or its version of the policy is later than the changes so far.
    OutOfOrder,
    /// There are as many changes as a book may hold.
    TooMany,
    /// No line tells the entry.
    NotALine,
    /// A growth of memory was refused.
    OutOfMemory,
}

impl From<AllocError> for GroupFault {
    ghost from_gives = { λ _ fault. fault ≡ OutOfMemory };

    fn from(_error: AllocError) -> GroupFault {
        GroupFault::OutOfMemory
    }
}

impl<T: Drop> From<AllocFailed<T>> for GroupFault {
    ghost from_gives = { λ _ fault. fault ≡ OutOfMemory };

    fn from(_error: AllocFailed<T>) -> GroupFault {
        GroupFault::OutOfMemory
    }
}

impl From<LineFault> for GroupFault {
    ghost use Rattle.std.specs.Prelude.{◌≡◌};
    ghost use Rattle.af_book.specs.Groups.{fault_of};

    ghost from_gives = { λ error fault. fault ≡ fault_of error };

    fn from(error: LineFault) -> GroupFault {
        match error {
            LineFault::NotALine => GroupFault::NotALine,
            LineFault::OutOfMemory => GroupFault::OutOfMemory,
        }
    }
}
