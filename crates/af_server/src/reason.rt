ghost use Rattle.std.specs.Prelude.{◌≡◌};
ghost use Rattle.af_server.specs.declared.reason.Reason.TheVariants.{Memory};
ghost use Rattle.af_server.specs.Reasons.{change_reason, name_reason, reason_text, row_reason, dag_reason, graph_reason, pool_reason, trace_reason, variable_reason};

use af_board::OutOfMemory;
use af_graph::DagFault;
use af_names::NameError;
use af_policy::{ChangeFault, RowFault};
use af_pool::PoolFault;
use af_sched::AddDagFault;
use af_trace::TraceFault;
use af_vars::VariableFault;
use std::alloc::{AllocError, AllocFailed};

/// Why a configuration or a trace is refused.
#[derive(Clone, Copy, Debug, PartialEq, Eq)]
pub enum Reason {
    /// The file can't be read, or is longer than 16 MiB.
    Unreadable,
    /// It is not JSON.
    Syntax,
    /// A member is missing or of a wrong kind, or a trigger rule or an outcome is not known.
    Shape,
    /// A name does not parse.
    Name,
    /// Two rows have one name, two users have one digest, or a role has a default role's name.
    Duplicate,
    /// A role that a user has, or that access control names, is not there.
    Role,
    /// An action is none of the four; in access control, none that a single DAG, or its runs, carry.
    Action,
    /// A resource is not known, or `can_create` is listed on a single DAG.
    Pair,
    /// No user has the role Admin.
    Admin,
    /// A task's pool is not there.
    Pool,
    /// The tasks of a DAG make no graph.
    Graph,
    /// A schedule is not known, or has no start date or a bad one.
    Schedule,
    /// A number is outside its limits, or there are too many rows.
    Limit,
    /// A growth of memory was refused.
    Memory,
    /// A trace has not the form of one.
    Trace,
}

impl Reason {
    /// The word that tells it.
    pub fn text(&self) -> &'static str
        ensures { result.now ≡ reason_text self.now }
    {
        match self {
            Reason::Unreadable => "unreadable",
            Reason::Syntax => "syntax",
            Reason::Shape => "shape",
            Reason::Name => "name",
            Reason::Duplicate => "duplicate",
            Reason::Role => "role",
            Reason::Action => "action",
            Reason::Pair => "pair",
            Reason::Admin => "admin",
            Reason::Pool => "pool",
            Reason::Graph => "graph",
            Reason::Schedule => "schedule",
            Reason::Limit => "limit",
            Reason::Memory => "memory",
            Reason::Trace => "trace",
        }
    }
}

impl From<AllocError> for Reason {
    ghost from_gives = { λ _ reason. reason ≡ Memory };

    fn from(_error: AllocError) -> Reason {
        Reason::Memory
    }
}

impl<T: Drop> From<AllocFailed<T>> for Reason {
    ghost from_gives = { λ _ reason. reason ≡ Memory };

    fn from(_error: AllocFailed<T>) -> Reason {
        Reason::Memory
    }
}

impl From<OutOfMemory> for Reason {
    ghost from_gives = { λ _ reason. reason ≡ Memory };

    fn from(_error: OutOfMemory) -> Reason {
        Reason::Memory
    }
}

impl From<NameError> for Reason {
    ghost from_gives = { λ error reason. reason ≡ name_reason error };

    fn from(error: NameError) -> Reason {
        match error {
            NameError::OutOfMemory => Reason::Memory,
            NameError::BadName | NameError::TooLong => Reason::Name,
        }
    }
}

impl From<RowFault> for Reason {
    ghost from_gives = { λ fault reason. reason ≡ row_reason fault };

    fn from(fault: RowFault) -> Reason {
        match fault {
            RowFault::UnknownRole => Reason::Role,
            RowFault::Exists => Reason::Duplicate,
            RowFault::TooMany => Reason::Limit,
            RowFault::OutOfMemory => Reason::Memory,
        }
    }
}

impl From<ChangeFault> for Reason {
    ghost from_gives = { λ fault reason. reason ≡ change_reason fault };

    fn from(fault: ChangeFault) -> Reason {
        match fault {
            ChangeFault::BadAction(_) => Reason::Action,
            ChangeFault::PairNotAllowed(_) => Reason::Pair,
            ChangeFault::UnknownRole(_) => Reason::Role,
            ChangeFault::NoSuchRole | ChangeFault::DefaultRole | ChangeFault::RoleInUse => {
                Reason::Role
            }
            ChangeFault::NoSuchUser => Reason::Name,
            ChangeFault::Exists => Reason::Duplicate,
            ChangeFault::LastAdmin => Reason::Admin,
            ChangeFault::TooMany => Reason::Limit,
            ChangeFault::OutOfMemory => Reason::Memory,
        }
    }
}

impl From<PoolFault> for Reason {
    ghost from_gives = { λ fault reason. reason ≡ pool_reason fault };

    fn from(fault: PoolFault) -> Reason {
        match fault {
            PoolFault::BadSlots | PoolFault::Full => Reason::Limit,
            PoolFault::Exists => Reason::Duplicate,
            PoolFault::NoSuchPool | PoolFault::DefaultPool | PoolFault::InUse => Reason::Pool,
            PoolFault::OutOfMemory => Reason::Memory,
        }
    }
}

impl From<VariableFault> for Reason {
    ghost from_gives = { λ fault reason. reason ≡ variable_reason fault };

    fn from(fault: VariableFault) -> Reason {
        match fault {
            VariableFault::NoSuchVariable => Reason::Name,
            VariableFault::Exists => Reason::Duplicate,
            VariableFault::Full => Reason::Limit,
            VariableFault::OutOfMemory => Reason::Memory,
        }
    }
}

impl From<DagFault> for Reason {
    ghost from_gives = { λ fault reason. reason ≡ graph_reason fault };

    fn from(fault: DagFault) -> Reason {
        match fault {
            DagFault::OutOfMemory => Reason::Memory,
            _ => Reason::Graph,
        }
    }
}

impl From<AddDagFault> for Reason {
    ghost from_gives = { λ fault reason. reason ≡ dag_reason fault };

    fn from(fault: AddDagFault) -> Reason {
        match fault {
            AddDagFault::NoActiveRuns | AddDagFault::NoStep | AddDagFault::Full => Reason::Limit,
            AddDagFault::NoSuchPool => Reason::Pool,
            AddDagFault::Exists => Reason::Duplicate,
            AddDagFault::OutOfMemory => Reason::Memory,
        }
    }
}

impl From<TraceFault> for Reason {
    ghost from_gives = { λ fault reason. reason ≡ trace_reason fault };

    fn from(fault: TraceFault) -> Reason {
        match fault {
            TraceFault::Form => Reason::Trace,
            TraceFault::OutOfMemory => Reason::Memory,
        }
    }
}
