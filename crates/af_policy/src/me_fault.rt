use std::alloc::AllocError;

/// Why nobody is told who the bearer of a token is, in the order in which the faults are told.
#[derive(Clone, Copy, Debug, PartialEq, Eq)]
pub enum MeFault {
    /// There is no policy to decide under; a list of versions always has one.
    NotFound,
    /// There is no token, or it is nobody's.
    Unauthenticated,
    /// A growth of memory was refused.
    OutOfMemory,
}

impl From<AllocError> for MeFault {
    ghost use Rattle.std.specs.Prelude.{◌≡◌};
    ghost use Rattle.af_policy.specs.declared.me_fault.MeFault.TheVariants.{OutOfMemory};

    ghost from_gives = { λ _ e. e ≡ OutOfMemory };

    fn from(_error: AllocError) -> MeFault {
        MeFault::OutOfMemory
    }
}
