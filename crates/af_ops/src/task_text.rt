// A task as it is told.
ghost use Rattle.std.specs.Prelude.{◌≡◌, ◌≤◌, ◌++◌, ◌∷◌, [], OnOk, codes, false, map};
ghost use Rattle.serde_json.specs.Data.{array, string};
ghost use Rattle.serde_json.specs.View.{items_of};
ghost use Rattle.serde_json.specs.Written.{compact_text, items_text};
ghost use Rattle.af_graph.specs.Graph.{downstream_of};
ghost use Rattle.af_ops.specs.Effects.{downstream_ids, id_at};
ghost use Rattle.af_ops.specs.Rows.{task_fields};
ghost use Rattle.af_ops.specs.Texts.{Adds};

use crate::fields::put_plain;
use crate::row::Row;
use crate::text::Text;
use af_graph::{Dag, TaskSpec};
use std::alloc::{AllocError, Global};
use std::marker::Model;

/// A task of a DAG, and its place there, borrowed.
#[derive(Drop)]
pub(crate) struct TaskRow<'a> {
    pub dag: &'a Dag,
    pub place: usize,
    pub task: &'a TaskSpec,
}

impl<'a> Model for TaskRow<'a> {
    ghost use Rattle.af_ops.specs.Effects.{downstream_ids};
    ghost use Rattle.af_ops.specs.Rows.{TaskTold};

    ghost Value = { TaskTold };

    ghost view = { λ row. record { downstream = downstream_ids row.dag.now.tasks row.place; task = row.task.now } };
}

impl<'a> Row for TaskRow<'a> {
    ghost fields = { task_fields };

    fn put_fields(&self, alloc: Global, out: &mut Text) -> Result<(), AllocError> {
        put_task(alloc, out, self.dag, self.place, self.task)
    }
}

fn put_task(
    alloc: Global,
    out: &mut Text,
    dag: &Dag,
    place: usize,
    task: &TaskSpec,
) -> Result<(), AllocError>
    ensures { OnOk result (Adds false out.old out.new (task_fields (record { downstream = downstream_ids dag.now.tasks place; task = task.now }))) }
{
    put_downstream(out, dag, place)?;
    out.text(alloc, true, "pool", task.pool.as_str())?;
    out.number(true, "pool_slots", task.pool_slots)?;
    out.integer(true, "priority_weight", task.priority_weight)?;
    out.number(true, "retries", u64::from(task.retries))?;
    out.task_id(true, "task_id", &task.task_id)?;
    out.text(alloc, true, "trigger_rule", task.trigger_rule.as_str())?;
    Ok(())
}

/// The ids of the tasks directly downstream of the task at a place, as the first member.
fn put_downstream(out: &mut Text, dag: &Dag, place: usize) -> Result<(), AllocError>
    ensures { OnOk result (Adds false out.old out.new ((codes "downstream_task_ids", array (items_of (map (λ id. string id) (downstream_ids dag.now.tasks place)))) ∷ [])) }
{
    out.reserve(40)?;
    out.push_member(false, b"downstream_task_ids", b"[");
    put_ids(out, dag.tasks(), downstream(dag, place))?;
    out.reserve(8)?;
    Ok(())
}

/// The ids of the tasks at these places as the items of an array, and the end of that.
fn put_ids(out: &mut Text, tasks: &[TaskSpec], places: &[u16]) -> Result<(), AllocError>
    requires { 4 ≤ out.old.ready }
    ensures text { OnOk result (out.new.items ≡ out.old.items ++ items_text false (items_of (map (λ id. string id) (map (id_at tasks.now) places.now)))) }
    ensures room { OnOk result (2 ≤ out.new.ready) }
{
    let mut later = false;
    for place in places {
        if later {
            out.push(b",");
        }
        put_id_at(out, tasks, *place as usize)?;
        later = true;
    }
    out.push(b"]");
    Ok(())
}

/// Appends the id of the task at a place, in quotation marks.
fn put_id_at(out: &mut Text, tasks: &[TaskSpec], place: usize) -> Result<(), AllocError>
    ensures text { OnOk result (out.new.items ≡ out.old.items ++ compact_text (string (id_at tasks.now place))) }
    ensures room { OnOk result (4 ≤ out.new.ready) }
{
    match tasks.get(place) {
        Some(task) => put_plain(out, task.task_id.as_str()),
        None => put_plain(out, ""),
    }
}

/// The places directly downstream of a place: none of one that no task has.
fn downstream(dag: &Dag, place: usize) -> &[u16]
    ensures { result.now ≡ downstream_of dag.now.tasks place }
{
    if place < dag.tasks().len() {
        dag.downstream(place)
    } else {
        &[]
    }
}

/// The id of the task at a place.
pub(crate) fn id_at(tasks: &[TaskSpec], place: usize) -> &str
    ensures { result.now ≡ id_at tasks.now place }
{
    match tasks.get(place) {
        Some(task) => task.task_id.as_str(),
        None => "",
    }
}
