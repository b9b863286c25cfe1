use crate::body_fault::Member;
use af_names::Instant;
use af_policy::Parameter;
use af_role::Need;
use std::alloc::AllocError;

/// What an operation is decided under: the policy version, and how many entries the audit has.
#[derive(Clone, Copy, Debug, PartialEq, Eq)]
pub struct Under {
    pub version: u32,
    pub seq: u32,
}

/// Why a permitted operation is not done, in the order in which the reasons are told.
#[derive(Clone, Copy, Debug, PartialEq, Eq)]
pub enum OpFault {
    /// This parameter of its query is no number.
    BadParameter(Parameter),
    /// Its body is no JSON object.
    BadBody,
    /// This member of its body is absent though it has to be there, or of a wrong kind or value.
    BadMember(Member),
    /// The DAG that it names is not there.
    NoSuchDag,
    /// The run that it names is not there.
    NoSuchRun,
    /// The task that it names is not there.
    NoSuchTask,
    /// The id at this place among the ids of tasks that it names is none of the DAG's tasks.
    NoSuchTaskAt(usize),
    /// The pool that it names is not there.
    NoSuchPool,
    /// The variable that it names is not there.
    NoSuchVariable,
    /// The DAG has a run of the id that is given, else of the id that is made of this date.
    RunExists(Instant),
    /// The DAG has a run of this logical date.
    DateTaken(Instant),
    /// A pool of the name, or a variable of the key, is there already.
    Exists,
    /// The DAG that it names has no schedule.
    NoSchedule,
    /// A limit on the number of rows, or on the points of a backfill, would be passed.
    TooMany,
    /// The default pool is never deleted.
    DefaultPool,
    /// Some task names the pool.
    InUse,
    /// It would change the state, and there is no room for one more entry.
    HistoryFull,
    /// A growth was refused, and nothing was done.
    OutOfMemory,
}

impl From<AllocError> for OpFault {
    ghost use Rattle.std.specs.Prelude.{◌≡◌};
    ghost use Rattle.af_ops.specs.declared.answer.OpFault.TheVariants.{OutOfMemory};

    ghost from_gives = { λ _ fault. fault ≡ OutOfMemory };

    fn from(_error: AllocError) -> OpFault {
        OpFault::OutOfMemory
    }
}

/// Why an operation is not done, in the order in which the reasons are told.
#[derive(Clone, Copy, Debug)]
pub enum CallFault {
    /// No user has the token.
    Unauthenticated,
    /// The user lacks this requirement, the first one lacked.
    Denied(Need),
    /// The operation is permitted, and refused.
    Op(OpFault),
}

impl From<OpFault> for CallFault {
    ghost use Rattle.std.specs.Prelude.{◌≡◌};
    ghost use Rattle.af_ops.specs.declared.answer.CallFault.TheVariants.{Op};

    ghost from_gives = { λ fault why. why ≡ Op fault };

    fn from(fault: OpFault) -> CallFault {
        CallFault::Op(fault)
    }
}
