use std::alloc::AllocError;
use std::fmt;

/// Why a variable is not added, changed or removed, in the order in which faults are told.
#[derive(Clone, Copy, Debug, PartialEq, Eq)]
pub enum VariableFault {
    /// There is no variable of that key.
    NoSuchVariable,
    /// A variable of that key is there already.
    Exists,
    /// There are 65,536 variables.
    Full,
    /// A growth of memory was refused.
    OutOfMemory,
}

impl From<AllocError> for VariableFault {
    ghost use Rattle.std.specs.Prelude.{◌≡◌};
    ghost use Rattle.af_vars.specs.declared.fault.VariableFault.TheVariants.{OutOfMemory};

    ghost from_gives = { λ _ e. e ≡ OutOfMemory };

    fn from(_error: AllocError) -> VariableFault {
        VariableFault::OutOfMemory
    }
}

impl fmt::Display for VariableFault {
    ghost use Rattle.std.specs.Prelude.{Some};
    ghost use Rattle.af_vars.specs.Texts.{fault_text};

    ghost output = { λ fault. Some (fault_text fault) };

    fn fmt<W: fmt::Write>(&self, f: &mut fmt::Formatter<W>) -> fmt::Result {
        f.write_str(match self {
            VariableFault::NoSuchVariable => "no such variable",
            VariableFault::Exists => "a variable of that key is there",
            VariableFault::Full => "65536 variables are there",
            VariableFault::OutOfMemory => "out of memory",
        })
    }
}
