ghost use Rattle.std.specs.Prelude.{◌≡◌, IfOk};

use crate::body_fault::BodyFault;
use crate::clear::Clear;
use crate::op::Op;
use crate::trigger::Trigger;
use af_names::{DagId, RunId};
use std::alloc::{AllocError, Global};

impl Op {
    /// The same operation again, with what was read for it. `AllocError` only where a growth was refused.
    pub fn copied(&self, alloc: Global) -> Result<Op, AllocError>
        ensures { IfOk result (λ copy. copy ≡ self.now) }
    {
        match self {
            Op::Version => Ok(Op::Version),
            Op::ListDags(asked) => Ok(Op::ListDags(*asked)),
            Op::GetDag(dag_id) => Ok(Op::GetDag(dag_id.copied(alloc)?)),
            Op::PauseDag(dag_id, input) => Ok(Op::PauseDag(dag_id.copied(alloc)?, *input)),
            Op::ListTasks(dag_id) => Ok(Op::ListTasks(dag_id.copied(alloc)?)),
            Op::ListRuns(dag, asked) => Ok(Op::ListRuns(copied_dag(alloc, dag)?, *asked)),
            Op::TriggerRun(dag_id, input) => {
                let dag_id = dag_id.copied(alloc)?;
                Ok(Op::TriggerRun(dag_id, copied_input(alloc, input)?))
            }
            Op::GetRun(dag_id, run_id) => {
                let (dag_id, run_id) = copied_ids(alloc, dag_id, run_id)?;
                Ok(Op::GetRun(dag_id, run_id))
            }
            Op::MarkRun(dag_id, run_id, input) => {
                let (dag_id, run_id) = copied_ids(alloc, dag_id, run_id)?;
                Ok(Op::MarkRun(dag_id, run_id, *input))
            }
            Op::DeleteRun(dag_id, run_id) => {
                let (dag_id, run_id) = copied_ids(alloc, dag_id, run_id)?;
                Ok(Op::DeleteRun(dag_id, run_id))
            }
            Op::ClearRun(dag_id, run_id, input) => {
                let (dag_id, run_id) = copied_ids(alloc, dag_id, run_id)?;
                Ok(Op::ClearRun(dag_id, run_id, *input))
            }
            Op::ClearInstances(dag_id, input) => {
                let dag_id = dag_id.copied(alloc)?;
                Ok(Op::ClearInstances(dag_id, copied_clear(alloc, input)?))
            }
            Op::ListInstances(dag_id, run_id, asked) => {
                let (dag_id, run_id) = copied_ids(alloc, dag_id, run_id)?;
                Ok(Op::ListInstances(dag_id, run_id, *asked))
            }
            Op::GetInstance(dag_id, run_id, task_id) => {
                let (dag_id, run_id) = copied_ids(alloc, dag_id, run_id)?;
                Ok(Op::GetInstance(dag_id, run_id, task_id.copied(alloc)?))
            }
            Op::BackfillDag(dag_id, input) => Ok(Op::BackfillDag(dag_id.copied(alloc)?, *input)),
            Op::Pool(op) => Ok(Op::Pool(op.copied(alloc)?)),
            Op::Variable(op) => Ok(Op::Variable(op.copied(alloc)?)),
        }
    }
}

/// The same two ids again.
fn copied_ids(alloc: Global, dag_id: &DagId, run_id: &RunId) -> Result<(DagId, RunId), AllocError>
    ensures dag { IfOk result (λ ids. ids.0 ≡ dag_id.now) }
    ensures run { IfOk result (λ ids. ids.1 ≡ run_id.now) }
{
    let dag_id = dag_id.copied(alloc)?;
    let run_id = run_id.copied(alloc)?;
    Ok((dag_id, run_id))
}

/// The same DAG's id again, if there is one.
fn copied_dag(alloc: Global, dag: &Option<DagId>) -> Result<Option<DagId>, AllocError>
    ensures { IfOk result (λ copy. copy ≡ dag.now) }
{
    match dag {
        None => Ok(None),
        Some(dag_id) => Ok(Some(dag_id.copied(alloc)?)),
    }
}

/// What was read of a body that triggers a run, again.
fn copied_input(
    alloc: Global,
    input: &Result<Trigger, BodyFault>,
) -> Result<Result<Trigger, BodyFault>, AllocError>
    ensures { IfOk result (λ copy. copy ≡ input.now) }
{
    match input {
        Ok(asked) => Ok(Ok(asked.copied(alloc)?)),
        Err(fault) => Ok(Err(*fault)),
    }
}

/// What was read of a body that clears instances, again.
fn copied_clear(
    alloc: Global,
    input: &Result<Clear, BodyFault>,
) -> Result<Result<Clear, BodyFault>, AllocError>
    ensures { IfOk result (λ copy. copy ≡ input.now) }
{
    match input {
        Ok(asked) => Ok(Ok(asked.copied(alloc)?)),
        Err(fault) => Ok(Err(*fault)),
    }
}

/// The same run's id again, if there is one.
pub(crate) fn copied_run(alloc: Global, run: &Option<RunId>) -> Result<Option<RunId>, AllocError>
    ensures { IfOk result (λ copy. copy ≡ run.now) }
{
    match run {
        None => Ok(None),
        Some(run_id) => Ok(Some(run_id.copied(alloc)?)),
    }
}
