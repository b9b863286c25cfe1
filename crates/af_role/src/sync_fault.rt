use crate::Text;
use af_names::RoleName;
use std::alloc::AllocError;

/// Why a DAG's access control is not taken over, in the order in which the faults are told.
#[derive(Drop)]
pub enum SyncFault {
    /// A text is no action on what it is listed for, one DAG or its runs: the first.
    BadAction(Text),
    /// A role is named that is not there: the first.
    UnknownRole(RoleName),
    /// A growth of memory was refused.
    OutOfMemory,
}

impl From<AllocError> for SyncFault {
    ghost use Rattle.std.specs.Prelude.{◌≡◌};
    ghost use Rattle.af_role.specs.declared.sync_fault.SyncFault.TheVariants.{OutOfMemory};

    ghost from_gives = { λ _ e. e ≡ OutOfMemory };

    fn from(_error: AllocError) -> SyncFault {
        SyncFault::OutOfMemory
    }
}
