use std::alloc::AllocError;

/// Why a draft becomes no policy, in the order in which the faults are told.
#[derive(Clone, Copy, Debug, PartialEq, Eq)]
pub enum FinishFault {
    /// No user of the draft has the role Admin.
    NoAdmin,
    /// A growth of memory was refused.
    OutOfMemory,
}

impl From<AllocError> for FinishFault {
    ghost use Rattle.std.specs.Prelude.{◌≡◌};
    ghost use Rattle.af_policy.specs.declared.finish_fault.FinishFault.TheVariants.{OutOfMemory};

    ghost from_gives = { λ _ e. e ≡ OutOfMemory };

    fn from(_error: AllocError) -> FinishFault {
        FinishFault::OutOfMemory
    }
}
