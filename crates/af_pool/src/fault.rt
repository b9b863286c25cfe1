use std::alloc::AllocError;
use std::fmt;

/// Why a pool is not added, changed or removed, in the order in which faults are told.
#[derive(Clone, Copy, Debug, PartialEq, Eq)]
pub enum PoolFault {
    /// The slots asked for are above 1,000,000.
    BadSlots,
    /// There is no pool of that name.
    NoSuchPool,
    /// A pool of that name is there already.
    Exists,
    /// The default pool is never removed.
    DefaultPool,
    /// Some task names the pool.
    InUse,
    /// There are 65,536 pools.
    Full,
    /// A growth of memory was refused.
    OutOfMemory,
}

impl From<AllocError> for PoolFault {
    ghost use Rattle.std.specs.Prelude.{◌≡◌};
    ghost use Rattle.af_pool.specs.declared.fault.PoolFault.TheVariants.{OutOfMemory};

    ghost from_gives = { λ _ e. e ≡ OutOfMemory };

    fn from(_error: AllocError) -> PoolFault {
        PoolFault::OutOfMemory
    }
}

impl fmt::Display for PoolFault {
    ghost use Rattle.std.specs.Prelude.{Some};
    ghost use Rattle.af_pool.specs.Texts.{fault_text};

    ghost output = { λ fault. Some (fault_text fault) };

    fn fmt<W: fmt::Write>(&self, f: &mut fmt::Formatter<W>) -> fmt::Result {
        f.write_str(match self {
            PoolFault::BadSlots => "more than 1000000 slots",
            PoolFault::NoSuchPool => "no such pool",
            PoolFault::Exists => "a pool of that name is there",
            PoolFault::DefaultPool => "the default pool stays",
            PoolFault::InUse => "a task names the pool",
            PoolFault::Full => "65536 pools are there",
            PoolFault::OutOfMemory => "out of memory",
        })
    }
}
