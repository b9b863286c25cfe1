use crate::entry::Entry;
use af_ops::OpFault;
use std::alloc::{AllocError, AllocFailed};

/// Why no entry is added, in the order in which the reasons are told.
#[derive(Clone, Copy, Debug, PartialEq, Eq)]
pub enum AuditFault {
    /// There are as many entries as there may be.
    HistoryFull,
    /// A growth of memory was refused.
    OutOfMemory,
}

impl From<AllocError> for AuditFault {
    ghost use Rattle.std.specs.Prelude.{◌≡◌};
    ghost use Rattle.af_audit.specs.declared.audit_fault.AuditFault.TheVariants.{OutOfMemory};

    ghost from_gives = { λ _ fault. fault ≡ OutOfMemory };

    fn from(_error: AllocError) -> AuditFault {
        AuditFault::OutOfMemory
    }
}

impl From<AllocFailed<Entry>> for AuditFault {
    ghost use Rattle.std.specs.Prelude.{◌≡◌};
    ghost use Rattle.af_audit.specs.declared.audit_fault.AuditFault.TheVariants.{OutOfMemory};

    ghost from_gives = { λ _ fault. fault ≡ OutOfMemory };

    fn from(_error: AllocFailed<Entry>) -> AuditFault {
        AuditFault::OutOfMemory
    }
}

impl From<AuditFault> for OpFault {
    ghost use Rattle.std.specs.Prelude.{◌≡◌};
    ghost use Rattle.af_audit.specs.Answered.{op_fault};

    ghost from_gives = { λ fault why. why ≡ op_fault fault };

    fn from(fault: AuditFault) -> OpFault {
        match fault {
            AuditFault::HistoryFull => OpFault::HistoryFull,
            AuditFault::OutOfMemory => OpFault::OutOfMemory,
        }
    }
}
