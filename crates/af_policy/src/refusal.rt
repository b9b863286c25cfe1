use crate::{BadInput, ChangeFault};
use af_role::Need;
use std::alloc::AllocError;

/// Why a change that is asked for makes no version, in the order in which the faults are told.
#[derive(Drop)]
pub enum Refusal {
    /// There is no policy to decide under; a list of versions always has one.
    NotFound,
    /// There is no token, or it is nobody's.
    Unauthenticated,
    /// The author lacks a requirement: the first.
    Denied(Need),
    /// The body asks for no change.
    BadBody(BadInput),
    /// The change has a fault: the first.
    Refused(ChangeFault),
    /// The latest version has the greatest number that a version may have.
    Full,
    /// A growth of memory was refused.
    OutOfMemory,
    /// Another version was made since; never in a list of one thread.
    Moved(u32),
}

impl From<AllocError> for Refusal {
    ghost use Rattle.std.specs.Prelude.{◌≡◌};
    ghost use Rattle.af_policy.specs.declared.refusal.Refusal.TheVariants.{OutOfMemory};

    ghost from_gives = { λ _ e. e ≡ OutOfMemory };

    fn from(_error: AllocError) -> Refusal {
        Refusal::OutOfMemory
    }
}

impl From<ChangeFault> for Refusal {
    ghost use Rattle.std.specs.Prelude.{◌≡◌};
    ghost use Rattle.af_policy.specs.Versions.{refused_by};

    ghost from_gives = { λ fault e. e ≡ refused_by fault };

    fn from(fault: ChangeFault) -> Refusal {
        match fault {
            ChangeFault::OutOfMemory => Refusal::OutOfMemory,
            ChangeFault::BadAction(text) => Refusal::Refused(ChangeFault::BadAction(text)),
            ChangeFault::PairNotAllowed(pair) => {
                Refusal::Refused(ChangeFault::PairNotAllowed(pair))
            }
            ChangeFault::UnknownRole(name) => Refusal::Refused(ChangeFault::UnknownRole(name)),
            ChangeFault::NoSuchRole => Refusal::Refused(ChangeFault::NoSuchRole),
            ChangeFault::NoSuchUser => Refusal::Refused(ChangeFault::NoSuchUser),
            ChangeFault::DefaultRole => Refusal::Refused(ChangeFault::DefaultRole),
            ChangeFault::Exists => Refusal::Refused(ChangeFault::Exists),
            ChangeFault::RoleInUse => Refusal::Refused(ChangeFault::RoleInUse),
            ChangeFault::LastAdmin => Refusal::Refused(ChangeFault::LastAdmin),
            ChangeFault::TooMany => Refusal::Refused(ChangeFault::TooMany),
        }
    }
}
