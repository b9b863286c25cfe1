// The operation that tells the tasks of a DAG.
ghost use Rattle.std.specs.Prelude.{◌≡◌, IfOk};
ghost use Rattle.serde_json.specs.Written.{compact_text};
ghost use Rattle.af_base.specs.Readings.{seen};
ghost use Rattle.af_ops.specs.declared.answer.OpFault.TheVariants.{OutOfMemory};
ghost use Rattle.af_ops.specs.Effects.{downstream_ids, first_told, listed_tasks, tasks_data};
ghost use Rattle.af_ops.specs.Prepared.{CanDo, IsExact, MemoryLast, done_on};

use crate::answer::OpFault;
use crate::edit::Edit;
use crate::operations::shared::dag_or;
use crate::prepared::Prepared;
use crate::row::rows_text;
use crate::task_text::TaskRow;
use af_graph::{Dag, TaskSpec};
use af_names::DagId;
use af_sched::State;
use std::alloc::{AllocError, Global};

pub(crate) fn listed_tasks(
    alloc: Global,
    state: &State,
    dag_id: &DagId,
) -> Result<Prepared, OpFault>
    ensures told { MemoryLast OutOfMemory (listed_tasks state.now.rows dag_id.now) (seen (done_on state.now.rows) result) }
    ensures room { IfOk result (λ prepared. CanDo state.now prepared.edit) }
    ensures exact { IfOk result (λ prepared. IsExact state.now.rows prepared.edit) }
{
    let row = dag_or(state, dag_id)?;
    let body = tasks_text(alloc, &row.dag)?;
    Ok(Prepared::of(body, Edit::Nothing))
}

/// The text of all tasks of a DAG.
fn tasks_text(alloc: Global, dag: &Dag) -> Result<Vec<u8>, AllocError>
    ensures { IfOk result (λ body. body.items ≡ compact_text (tasks_data dag.now.tasks)) }
{
    let told = first_told(alloc, dag, dag.tasks())?;
    let body = rows_text(alloc, "tasks", told.as_slice(), dag.tasks().len())?;
    Ok(body)
}

/// The first tasks of a DAG, borrowed. `AllocError` only where a growth was refused.
fn first_told<'a>(
    alloc: Global,
    dag: &'a Dag,
    tasks: &'a [TaskSpec],
) -> Result<Vec<TaskRow<'a>>, AllocError>
    ensures { IfOk result (λ told. told.items ≡ first_told dag.now.tasks tasks.now) }
{
    let mut all = Vec::with_capacity(alloc, tasks.len())?;
    for place in 0..tasks.len() {
        all.push(told(dag, place, &tasks[place]))?;
    }
    Ok(all)
}

fn told<'a>(dag: &'a Dag, place: usize, task: &'a TaskSpec) -> TaskRow<'a>
    ensures { result ≡ record { downstream = downstream_ids dag.now.tasks place; task = task.now } }
{
    TaskRow { dag, place, task }
}
