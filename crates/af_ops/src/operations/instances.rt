// The operations that tell instances.
ghost use Rattle.std.specs.Prelude.{◌≡◌, IfOk};
ghost use Rattle.serde_json.specs.Written.{compact_text};
ghost use Rattle.af_base.specs.Readings.{seen};
ghost use Rattle.af_ops.specs.declared.answer.OpFault.TheVariants.{OutOfMemory};
ghost use Rattle.af_ops.specs.Effects.{each_told, got_instance, instance_at, instance_of, instances_data, listed_instances};
ghost use Rattle.af_ops.specs.Prepared.{CanDo, IsExact, MemoryLast, done_on};

use crate::answer::OpFault;
use crate::edit::Edit;
use crate::instance_text::InstanceRow;
use crate::operations::shared::{cut, dag_or, run_or, window_or};
use crate::prepared::Prepared;
use crate::row::{row_text, rows_text};
use af_graph::{Dag, TaskSpec};
use af_listing::Window;
use af_names::{DagId, RunId, TaskId};
use af_policy::Parameter;
use af_runs::{Instance, Run};
use af_sched::State;
use std::alloc::{AllocError, Global};

pub(crate) fn listed_instances(
    alloc: Global,
    state: &State,
    dag_id: &DagId,
    run_id: &RunId,
    asked: &Result<Window, Parameter>,
) -> Result<Prepared, OpFault>
    ensures told { MemoryLast OutOfMemory (listed_instances state.now.rows dag_id.now run_id.now asked.now) (seen (done_on state.now.rows) result) }
    ensures room { IfOk result (λ prepared. CanDo state.now prepared.edit) }
    ensures exact { IfOk result (λ prepared. IsExact state.now.rows prepared.edit) }
{
    let window = window_or(asked)?;
    let row = dag_or(state, dag_id)?;
    let run = run_or(state, dag_id, run_id)?;
    let body = instances_text(alloc, &row.dag, run, window)?;
    Ok(Prepared::of(body, Edit::Nothing))
}

pub(crate) fn got_instance(
    alloc: Global,
    state: &State,
    dag_id: &DagId,
    run_id: &RunId,
    task_id: &TaskId,
) -> Result<Prepared, OpFault>
    ensures told { MemoryLast OutOfMemory (got_instance state.now.rows dag_id.now run_id.now task_id.now) (seen (done_on state.now.rows) result) }
    ensures room { IfOk result (λ prepared. CanDo state.now prepared.edit) }
    ensures exact { IfOk result (λ prepared. IsExact state.now.rows prepared.edit) }
{
    let row = dag_or(state, dag_id)?;
    let run = run_or(state, dag_id, run_id)?;
    let told = instance_of(&row.dag, run, task_id).ok_or(OpFault::NoSuchTask)?;
    let body = row_text(alloc, &told)?;
    Ok(Prepared::of(body, Edit::Nothing))
}

/// The instance of a task of a run.
fn instance_of<'a>(dag: &'a Dag, run: &'a Run, task_id: &TaskId) -> Option<InstanceRow<'a>>
    ensures { result ≡ instance_of dag.now.tasks run.now task_id.now }
{
    let place = dag.place_of(task_id)?;
    instance_at(dag.tasks(), run, place)
}

/// The instance at a place.
fn instance_at<'a>(tasks: &'a [TaskSpec], run: &'a Run, place: usize) -> Option<InstanceRow<'a>>
    ensures { result ≡ instance_at tasks.now run.now place }
{
    let task = tasks.get(place)?;
    let instance = run.instances.as_slice().get(place)?;
    Some(InstanceRow {
        run,
        task,
        instance,
    })
}

/// The text of a page of the instances of a run.
fn instances_text(
    alloc: Global,
    dag: &Dag,
    run: &Run,
    window: Window,
) -> Result<Vec<u8>, AllocError>
    ensures { IfOk result (λ body. body.items ≡ compact_text (instances_data window dag.now.tasks run.now)) }
{
    let told = each_told(alloc, run, dag.tasks(), run.instances.as_slice())?;
    let shown = cut(told.as_slice(), window);
    let body = rows_text(alloc, "task_instances", shown, told.len())?;
    Ok(body)
}

/// Instances of a run, each with its task, borrowed. `AllocError` only where a growth was refused.
fn each_told<'a>(
    alloc: Global,
    run: &'a Run,
    tasks: &'a [TaskSpec],
    instances: &'a [Instance],
) -> Result<Vec<InstanceRow<'a>>, AllocError>
    ensures { IfOk result (λ told. told.items ≡ each_told run.now tasks.now instances.now) }
{
    let mut all = Vec::with_capacity(alloc, tasks.len())?;
    for place in 0..tasks.len().min(instances.len()) {
        all.push(told(run, &tasks[place], &instances[place]))?;
    }
    Ok(all)
}

fn told<'a>(run: &'a Run, task: &'a TaskSpec, instance: &'a Instance) -> InstanceRow<'a>
    ensures { result ≡ record { run = run.now; task = task.now; instance = instance.now } }
{
    InstanceRow {
        run,
        task,
        instance,
    }
}
