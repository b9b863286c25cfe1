use af_names::RoleName;
use af_role::{PairFault, PairText, Text};
use std::alloc::AllocError;

/// Why a policy is not changed, in the order in which the faults are told.
#[derive(Drop)]
pub enum ChangeFault {
    /// A text is no action, or none that what it is listed for, a single DAG or its runs, carries: the first.
    BadAction(Text),
    /// A resource is not known, or it is one DAG and the action is to create: the first.
    PairNotAllowed(PairText),
    /// A role is named that is not there: the first.
    UnknownRole(RoleName),
    /// The role that is changed or dropped is not there.
    NoSuchRole,
    /// The user who is changed or dropped is not there.
    NoSuchUser,
    /// A default role is changed or dropped.
    DefaultRole,
    /// The name of a new role or user is taken, or the digest is another user's.
    Exists,
    /// The role that is dropped is some user's.
    RoleInUse,
    /// No user would have the role Admin.
    LastAdmin,
    /// There are 4,096 roles, the default ones among them, or 65,536 users.
    TooMany,
    /// A growth of memory was refused.
    OutOfMemory,
}

impl From<AllocError> for ChangeFault {
    ghost use Rattle.std.specs.Prelude.{◌≡◌};
    ghost use Rattle.af_policy.specs.declared.change_fault.ChangeFault.TheVariants.{OutOfMemory};

    ghost from_gives = { λ _ e. e ≡ OutOfMemory };

    fn from(_error: AllocError) -> ChangeFault {
        ChangeFault::OutOfMemory
    }
}

impl From<PairFault> for ChangeFault {
    ghost use Rattle.std.specs.Prelude.{◌≡◌};
    ghost use Rattle.af_policy.specs.Changes.{refused_pairs};

    ghost from_gives = { λ fault e. e ≡ refused_pairs fault };

    fn from(fault: PairFault) -> ChangeFault {
        match fault {
            PairFault::BadAction(text) => ChangeFault::BadAction(text),
            PairFault::NotAllowed(pair) => ChangeFault::PairNotAllowed(pair),
            PairFault::OutOfMemory => ChangeFault::OutOfMemory,
        }
    }
}
