ghost use Rattle.std.specs.Prelude.{◌≡◌};
ghost use Rattle.std.specs.Option.{option_copied};
ghost use Rattle.af_ops.specs.Endpoints.{cleared_run, dag_of, endpoint_of, given_id, given_in, ids_in, row_name_of, run_of, task_ids_of, task_of};
ghost use Rattle.af_ops.specs.Table.{reads_only};

use crate::backfill::Backfill;
use crate::body_fault::BodyFault;
use crate::clear::Clear;
use crate::endpoint::Endpoint;
use crate::pool_op::PoolOp;
use crate::table::reads_only;
use crate::trigger::Trigger;
use crate::variable_op::VariableOp;
use af_listing::Window;
use af_names::{DagId, RunId, TaskId};
use af_policy::Parameter;
use af_runs::Mark;

pub(crate) mod copying;
mod event;

/// An operation that a request asks for: the names of its path, and what was read of its query or of its body, where it reads one.
pub enum Op {
    /// What the server is.
    Version,
    /// A page of the DAGs that the user reads.
    ListDags(Result<Window, Parameter>),
    /// One DAG.
    GetDag(DagId),
    /// A DAG is paused, or not.
    PauseDag(DagId, Result<bool, BodyFault>),
    /// The tasks of a DAG.
    ListTasks(DagId),
    /// A page of the runs of one DAG, or of all DAGs that the user reads and whose runs the user reads.
    ListRuns(Option<DagId>, Result<Window, Parameter>),
    /// A run of a DAG is triggered.
    TriggerRun(DagId, Result<Trigger, BodyFault>),
    /// One run of a DAG.
    GetRun(DagId, RunId),
    /// A run of a DAG is marked success, failed or queued.
    MarkRun(DagId, RunId, Result<Mark, BodyFault>),
    /// A run of a DAG is deleted.
    DeleteRun(DagId, RunId),
    /// The instances of a run are cleared, or told as those that would be.
    ClearRun(DagId, RunId, Result<bool, BodyFault>),
    /// A page of the instances of a run.
    ListInstances(DagId, RunId, Result<Window, Parameter>),
    /// One instance of a run.
    GetInstance(DagId, RunId, TaskId),
    /// Instances of a DAG's runs are cleared, or told as those that would be.
    ClearInstances(DagId, Result<Clear, BodyFault>),
    /// Runs are made for the points of a range of dates of a DAG.
    BackfillDag(DagId, Result<Backfill, BodyFault>),
    /// An operation on pools.
    Pool(PoolOp),
    /// An operation on variables.
    Variable(VariableOp),
}

impl Drop for Op {
    fn drop(self) {
        match self {
            Op::Version => {}
            Op::ListDags(_) => {}
            Op::GetDag(_) => {}
            Op::PauseDag(_, _) => {}
            Op::ListTasks(_) => {}
            Op::ListRuns(_, _) => {}
            Op::TriggerRun(_, _) => {}
            Op::GetRun(_, _) => {}
            Op::MarkRun(_, _, _) => {}
            Op::DeleteRun(_, _) => {}
            Op::ClearRun(_, _, _) => {}
            Op::ListInstances(_, _, _) => {}
            Op::GetInstance(_, _, _) => {}
            Op::ClearInstances(_, _) => {}
            Op::BackfillDag(_, _) => {}
            Op::Pool(_) => {}
            Op::Variable(_) => {}
        }
    }
}

impl Op {
    /// Its endpoint.
    pub fn endpoint(&self) -> Endpoint
        ensures { result ≡ endpoint_of self.now }
    {
        match self {
            Op::Version => Endpoint::Version,
            Op::ListDags(_) => Endpoint::ListDags,
            Op::GetDag(_) => Endpoint::GetDag,
            Op::PauseDag(_, _) => Endpoint::PauseDag,
            Op::ListTasks(_) => Endpoint::ListTasks,
            Op::ListRuns(_, _) => Endpoint::ListRuns,
            Op::TriggerRun(_, _) => Endpoint::TriggerRun,
            Op::GetRun(_, _) => Endpoint::GetRun,
            Op::MarkRun(_, _, _) => Endpoint::MarkRun,
            Op::DeleteRun(_, _) => Endpoint::DeleteRun,
            Op::ClearRun(_, _, _) => Endpoint::ClearRun,
            Op::ListInstances(_, _, _) => Endpoint::ListInstances,
            Op::GetInstance(_, _, _) => Endpoint::GetInstance,
            Op::ClearInstances(_, _) => Endpoint::ClearInstances,
            Op::BackfillDag(_, _) => Endpoint::BackfillDag,
            Op::Pool(op) => op.endpoint(),
            Op::Variable(op) => op.endpoint(),
        }
    }

    /// Whether it only reads.
    pub fn is_read(&self) -> bool
        ensures { result ≡ reads_only (endpoint_of self.now) }
    {
        reads_only(self.endpoint())
    }

    /// The DAG that it names, or none.
    pub fn dag(&self) -> Option<&DagId>
        ensures { option_copied result ≡ dag_of self.now }
    {
        match self {
            Op::Version | Op::ListDags(_) | Op::Pool(_) | Op::Variable(_) => None,
            Op::GetDag(dag_id) | Op::PauseDag(dag_id, _) => Some(dag_id),
            Op::ListTasks(dag_id) => Some(dag_id),
            Op::ListRuns(dag, _) => dag.as_ref(),
            Op::TriggerRun(dag_id, _) | Op::GetRun(dag_id, _) => Some(dag_id),
            Op::MarkRun(dag_id, _, _) | Op::ClearRun(dag_id, _, _) => Some(dag_id),
            Op::DeleteRun(dag_id, _) | Op::ClearInstances(dag_id, _) => Some(dag_id),
            Op::ListInstances(dag_id, _, _) | Op::GetInstance(dag_id, _, _) => Some(dag_id),
            Op::BackfillDag(dag_id, _) => Some(dag_id),
        }
    }

    /// The run that it names, or none.
    pub fn run(&self) -> Option<&RunId>
        ensures { option_copied result ≡ run_of self.now }
    {
        match self {
            Op::GetRun(_, run_id) | Op::MarkRun(_, run_id, _) => Some(run_id),
            Op::DeleteRun(_, run_id) | Op::ClearRun(_, run_id, _) => Some(run_id),
            Op::ListInstances(_, run_id, _) | Op::GetInstance(_, run_id, _) => Some(run_id),
            Op::ClearInstances(_, input) => cleared_run(input),
            Op::Version
            | Op::ListDags(_)
            | Op::GetDag(_)
            | Op::PauseDag(_, _)
            | Op::ListTasks(_)
            | Op::ListRuns(_, _)
            | Op::TriggerRun(_, _)
            | Op::BackfillDag(_, _)
            | Op::Pool(_)
            | Op::Variable(_) => None,
        }
    }

    /// The task that it names, or none.
    pub fn task(&self) -> Option<&TaskId>
        ensures { option_copied result ≡ task_of self.now }
    {
        match self {
            Op::GetInstance(_, _, task_id) => Some(task_id),
            Op::Version
            | Op::ListDags(_)
            | Op::GetDag(_)
            | Op::PauseDag(_, _)
            | Op::ListTasks(_)
            | Op::ListRuns(_, _)
            | Op::TriggerRun(_, _)
            | Op::GetRun(_, _)
            | Op::MarkRun(_, _, _)
            | Op::DeleteRun(_, _)
            | Op::ClearRun(_, _, _)
            | Op::ListInstances(_, _, _)
            | Op::ClearInstances(_, _)
            | Op::BackfillDag(_, _)
            | Op::Pool(_)
            | Op::Variable(_) => None,
        }
    }

    /// The id that is given to the run that it adds, or none.
    pub(crate) fn given_id(&self) -> Option<&RunId>
        ensures { option_copied result ≡ given_id self.now }
    {
        match self {
            Op::TriggerRun(_, input) => given_in(input),
            Op::Version
            | Op::ListDags(_)
            | Op::GetDag(_)
            | Op::PauseDag(_, _)
            | Op::ListTasks(_)
            | Op::ListRuns(_, _)
            | Op::GetRun(_, _)
            | Op::MarkRun(_, _, _)
            | Op::DeleteRun(_, _)
            | Op::ClearRun(_, _, _)
            | Op::ListInstances(_, _, _)
            | Op::GetInstance(_, _, _)
            | Op::ClearInstances(_, _)
            | Op::BackfillDag(_, _)
            | Op::Pool(_)
            | Op::Variable(_) => None,
        }
    }

    /// The ids of tasks that its body names, in their order.
    pub(crate) fn task_ids(&self) -> &[TaskId]
        ensures { result.now ≡ task_ids_of self.now }
    {
        match self {
            Op::ClearInstances(_, input) => ids_in(input),
            Op::Version
            | Op::ListDags(_)
            | Op::GetDag(_)
            | Op::PauseDag(_, _)
            | Op::ListTasks(_)
            | Op::ListRuns(_, _)
            | Op::TriggerRun(_, _)
            | Op::GetRun(_, _)
            | Op::MarkRun(_, _, _)
            | Op::DeleteRun(_, _)
            | Op::ClearRun(_, _, _)
            | Op::ListInstances(_, _, _)
            | Op::GetInstance(_, _, _)
            | Op::BackfillDag(_, _)
            | Op::Pool(_)
            | Op::Variable(_) => &[],
        }
    }

    /// The name of the pool, or the key of the variable, that it is about; no text where there is none.
    pub(crate) fn row_name(&self) -> &str
        ensures { result.now ≡ row_name_of self.now }
    {
        match self {
            Op::Pool(op) => op.name(),
            Op::Variable(op) => op.key(),
            Op::Version
            | Op::ListDags(_)
            | Op::GetDag(_)
            | Op::PauseDag(_, _)
            | Op::ListTasks(_)
            | Op::ListRuns(_, _)
            | Op::TriggerRun(_, _)
            | Op::GetRun(_, _)
            | Op::MarkRun(_, _, _)
            | Op::DeleteRun(_, _)
            | Op::ClearRun(_, _, _)
            | Op::ListInstances(_, _, _)
            | Op::GetInstance(_, _, _)
            | Op::ClearInstances(_, _)
            | Op::BackfillDag(_, _) => "",
        }
    }
}

fn cleared_run(input: &Result<Clear, BodyFault>) -> Option<&RunId>
    ensures { option_copied result ≡ cleared_run input.now }
{
    match input {
        Ok(asked) => asked.dag_run_id.as_ref(),
        Err(_) => None,
    }
}

fn ids_in(input: &Result<Clear, BodyFault>) -> &[TaskId]
    ensures { result.now ≡ ids_in input.now }
{
    match input {
        Ok(asked) => match &asked.task_ids {
            Some(ids) => ids.as_slice(),
            None => &[],
        },
        Err(_) => &[],
    }
}

fn given_in(input: &Result<Trigger, BodyFault>) -> Option<&RunId>
    ensures { option_copied result ≡ given_in input.now }
{
    match input {
        Ok(asked) => asked.dag_run_id.as_ref(),
        Err(_) => None,
    }
}
