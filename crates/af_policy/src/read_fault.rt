use crate::BadInput;
use af_role::Need;
use std::alloc::AllocError;

/// Why nothing is told of a policy, in the order in which the faults are told.
#[derive(Clone, Copy, Debug, PartialEq, Eq)]
pub enum ReadFault {
    /// There is no policy to decide under; a list of versions always has one.
    NotFound,
    /// There is no token, or it is nobody's.
    Unauthenticated,
    /// The reader lacks a requirement: the first.
    Denied(Need),
    /// A parameter of the request is none.
    BadBody(BadInput),
    /// There is no role of that name.
    NoSuchRole,
    /// There is no user of that name.
    NoSuchUser,
    /// A growth of memory was refused.
    OutOfMemory,
}

impl From<AllocError> for ReadFault {
    ghost use Rattle.std.specs.Prelude.{◌≡◌};
    ghost use Rattle.af_policy.specs.declared.read_fault.ReadFault.TheVariants.{OutOfMemory};

    ghost from_gives = { λ _ e. e ≡ OutOfMemory };

    fn from(_error: AllocError) -> ReadFault {
        ReadFault::OutOfMemory
    }
}
