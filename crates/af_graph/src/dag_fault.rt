use af_names::TaskId;
use std::alloc::{AllocError, AllocFailed};
use std::fmt;

/// Why a definition makes no DAG, with the task that is told: its id, or its place where no id is at hand. Where several
/// apply, the first is told.
#[derive(Clone, Copy, Debug, Drop, PartialEq, Eq)]
pub enum DagFault<T = TaskId> {
    /// The definition has no task.
    NoTask,
    /// It has more than 512 tasks.
    TooMany,
    /// An earlier task has the id of this one, the first such task.
    Duplicate(T),
    /// This task, the first such one, names an upstream task that the definition doesn't have.
    UnknownUpstream(T),
    /// This task, the first such one, stands on a cycle of upstream tasks or below one.
    Cycle(T),
    /// This task, the first such one, asks for no pool slot or for more than 1,000,000.
    BadSlots(T),
    /// A growth was refused.
    OutOfMemory,
}

impl<T> From<AllocError> for DagFault<T> {
    ghost use Rattle.std.specs.Prelude.{◌≡◌};
    ghost use Rattle.af_graph.specs.declared.dag_fault.DagFault.TheVariants.{OutOfMemory};

    ghost from_gives = { λ _ fault. fault ≡ OutOfMemory };

    fn from(_error: AllocError) -> DagFault<T> {
        DagFault::OutOfMemory
    }
}

impl<X: Drop, T> From<AllocFailed<X>> for DagFault<T> {
    ghost use Rattle.std.specs.Prelude.{◌≡◌};
    ghost use Rattle.af_graph.specs.declared.dag_fault.DagFault.TheVariants.{OutOfMemory};

    ghost from_gives = { λ _ fault. fault ≡ OutOfMemory };

    fn from(_error: AllocFailed<X>) -> DagFault<T> {
        DagFault::OutOfMemory
    }
}

impl fmt::Display for DagFault {
    ghost use Rattle.std.specs.Prelude.{Some};
    ghost use Rattle.af_graph.specs.FaultTexts.{dag_text};

    ghost output = { λ fault. Some (dag_text fault) };

    fn fmt<W: fmt::Write>(&self, f: &mut fmt::Formatter<W>) -> fmt::Result {
        match self {
            DagFault::NoTask => f.write_str("no task"),
            DagFault::TooMany => f.write_str("more than 512 tasks"),
            DagFault::Duplicate(id) => write!(f, "two tasks of one id: {id}"),
            DagFault::UnknownUpstream(id) => write!(f, "an upstream task that is not there: {id}"),
            DagFault::Cycle(id) => write!(f, "on a cycle or below one: {id}"),
            DagFault::BadSlots(id) => write!(f, "pool slots out of range: {id}"),
            DagFault::OutOfMemory => f.write_str("out of memory"),
        }
    }
}
