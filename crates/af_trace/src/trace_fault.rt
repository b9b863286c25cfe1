ghost use Rattle.std.specs.Prelude.{◌≡◌};
ghost use Rattle.af_trace.specs.declared.trace_fault.TraceFault.TheVariants.{OutOfMemory};

use std::alloc::{AllocError, AllocFailed};

/// Why a value is no trace.
#[derive(Clone, Copy, Debug, PartialEq, Eq)]
pub enum TraceFault {
    /// It has not the form of a trace.
    Form,
    /// A growth of memory was refused.
    OutOfMemory,
}

impl From<AllocError> for TraceFault {
    ghost from_gives = { λ _ fault. fault ≡ OutOfMemory };

    fn from(_error: AllocError) -> TraceFault {
        TraceFault::OutOfMemory
    }
}

impl<T: Drop> From<AllocFailed<T>> for TraceFault {
    ghost from_gives = { λ _ fault. fault ≡ OutOfMemory };

    fn from(_error: AllocFailed<T>) -> TraceFault {
        TraceFault::OutOfMemory
    }
}
