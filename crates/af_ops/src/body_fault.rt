use std::alloc::AllocError;

/// A member of a body.
#[derive(Clone, Copy, Debug, PartialEq, Eq)]
pub enum Member {
    /// `is_paused`
    IsPaused,
    /// `dag_run_id`
    DagRunId,
    /// `logical_date`
    LogicalDate,
    /// `execution_date`
    ExecutionDate,
    /// `conf`
    Conf,
    /// `state`
    State,
    /// `dry_run`
    DryRun,
    /// `only_failed`
    OnlyFailed,
    /// `task_ids`
    TaskIds,
    /// `start_date`
    StartDate,
    /// `end_date`
    EndDate,
    /// `name`
    Name,
    /// `slots`
    Slots,
    /// `key`
    Key,
    /// `value`
    Value,
}

/// Why a body is refused.
#[derive(Clone, Copy, Debug, PartialEq, Eq)]
pub enum BodyFault {
    /// It is no JSON object.
    BadBody,
    /// This member is absent though it has to be there, or of a wrong kind or value.
    BadMember(Member),
    /// A growth of memory was refused.
    OutOfMemory,
}

impl From<AllocError> for BodyFault {
    ghost use Rattle.std.specs.Prelude.{◌≡◌};
    ghost use Rattle.af_ops.specs.declared.body_fault.BodyFault.TheVariants.{OutOfMemory};

    ghost from_gives = { λ _ fault. fault ≡ OutOfMemory };

    fn from(_error: AllocError) -> BodyFault {
        BodyFault::OutOfMemory
    }
}
