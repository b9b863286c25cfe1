use std::alloc::AllocError;
use std::fmt;

/// Why a run is not added, in the order in which faults are told.
#[derive(Clone, Copy, Debug, PartialEq, Eq)]
pub enum RunFault {
    /// The DAG has a run of that id.
    RunExists,
    /// The DAG has a run of that logical date.
    DateTaken,
    /// The DAG has 65,536 runs, or no run number is left.
    Full,
    /// A growth of memory was refused.
    OutOfMemory,
}

impl From<AllocError> for RunFault {
    ghost use Rattle.std.specs.Prelude.{◌≡◌};
    ghost use Rattle.af_runs.specs.declared.run_fault.RunFault.TheVariants.{OutOfMemory};

    ghost from_gives = { λ _ e. e ≡ OutOfMemory };

    fn from(_error: AllocError) -> RunFault {
        RunFault::OutOfMemory
    }
}

impl fmt::Display for RunFault {
    ghost use Rattle.std.specs.Prelude.{Some};
    ghost use Rattle.af_runs.specs.FaultTexts.{run_text};

    ghost output = { λ fault. Some (run_text fault) };

    fn fmt<W: fmt::Write>(&self, f: &mut fmt::Formatter<W>) -> fmt::Result {
        f.write_str(match self {
            RunFault::RunExists => "the DAG has a run of that id",
            RunFault::DateTaken => "the DAG has a run of that logical date",
            RunFault::Full => "the DAG has as many runs as it may have",
            RunFault::OutOfMemory => "out of memory",
        })
    }
}
