// Reading operations.
ghost use Rattle.std.specs.Prelude.{◌≡◌, codes, option_and_then};
ghost use Rattle.af_names.specs.Names.{id_grammar};
ghost use Rattle.af_runs.specs.Marks.{mark_of};
ghost use Rattle.af_runs.specs.Texts.{state_of};
ghost use Rattle.af_base.specs.JsonValue.{view};
ghost use Rattle.af_base.specs.Readings.{OrMemory};
ghost use Rattle.af_store.specs.EntryReads.{backfill_read, clear_instances_read, clear_read, clear_run_read, delete_read, mark_read, mark_value, op_read, pause_read, pool_added_read, pool_changed_read, pool_deleted_read, trigger_read, variable_added_read, variable_changed_read, variable_deleted_read};
ghost use Rattle.af_store.specs.Members.{list_value, name_value, optional_in, required_in, text_value};

use crate::line_fault::LineFault;
use crate::members::{
    instant, name, optional_instant, optional_list, optional_name, short, text, text_of, truth,
    value,
};
use crate::op_event::OpEvent;
use af_base::Json;
use af_graph::TaskIds;
use af_ops::{Backfill, Clear, Op, PoolOp, Trigger, VariableOp};
use af_pool::Pool;
use af_runs::{Mark, RunState};
use af_vars::{VarText, Variable};
use std::alloc::Global;

/// The operation of an event that the members say.
pub(crate) fn read_op(alloc: Global, row: &Json<'_>, event: OpEvent) -> Result<Op, LineFault>
    ensures { OrMemory LineFault.OutOfMemory (op_read event (view row.now)) result }
{
    match event {
        OpEvent::PauseDag => read_pause(alloc, row),
        OpEvent::TriggerRun => read_trigger(alloc, row),
        OpEvent::MarkRun => read_mark(alloc, row),
        OpEvent::DeleteRun => read_delete(alloc, row),
        OpEvent::ClearRun => read_clear_run(alloc, row),
        OpEvent::ClearInstances => read_clear_instances(alloc, row),
        OpEvent::BackfillDag => read_backfill(alloc, row),
        OpEvent::AddPool => read_pool_added(alloc, row),
        OpEvent::ChangePool => read_pool_changed(alloc, row),
        OpEvent::DeletePool => read_pool_deleted(alloc, row),
        OpEvent::AddVariable => read_variable_added(alloc, row),
        OpEvent::ChangeVariable => read_variable_changed(alloc, row),
        OpEvent::DeleteVariable => read_variable_deleted(alloc, row),
    }
}

fn read_pause(alloc: Global, row: &Json<'_>) -> Result<Op, LineFault>
    ensures { OrMemory LineFault.OutOfMemory (pause_read (view row.now)) result }
{
    let dag_id = name(alloc, row, "dag_id")?;
    let is_paused = truth(row, "is_paused")?;
    Ok(Op::PauseDag(dag_id, Ok(is_paused)))
}

fn read_trigger(alloc: Global, row: &Json<'_>) -> Result<Op, LineFault>
    ensures { OrMemory LineFault.OutOfMemory (trigger_read (view row.now)) result }
{
    let dag_id = name(alloc, row, "dag_id")?;
    let dag_run_id = optional_name(alloc, row, "dag_run_id")?;
    let logical_date = optional_instant(row, "logical_date")?;
    Ok(Op::TriggerRun(
        dag_id,
        Ok(Trigger {
            dag_run_id,
            logical_date,
        }),
    ))
}

fn read_mark(alloc: Global, row: &Json<'_>) -> Result<Op, LineFault>
    ensures { OrMemory LineFault.OutOfMemory (mark_read (view row.now)) result }
{
    let dag_id = name(alloc, row, "dag_id")?;
    let run_id = name(alloc, row, "dag_run_id")?;
    let mark = mark(row)?;
    Ok(Op::MarkRun(dag_id, run_id, Ok(mark)))
}

fn mark(row: &Json<'_>) -> Result<Mark, LineFault>
    ensures { result ≡ required_in mark_value (codes "state") (view row.now) }
{
    let value = value(row, "state")?;
    mark_of(value)
}

fn mark_of(value: &Json<'_>) -> Result<Mark, LineFault>
    ensures { result ≡ mark_value (view value.now) }
{
    let text = text_of(value)?;
    mark_in(text).ok_or(LineFault::NotALine)
}

/// The mark that puts a run into the state of this text.
fn mark_in(text: &str) -> Option<Mark>
    ensures { result ≡ option_and_then mark_of (state_of text.now) }
{
    let state = RunState::read(text)?;
    Mark::of(state)
}

fn read_delete(alloc: Global, row: &Json<'_>) -> Result<Op, LineFault>
    ensures { OrMemory LineFault.OutOfMemory (delete_read (view row.now)) result }
{
    let dag_id = name(alloc, row, "dag_id")?;
    let run_id = name(alloc, row, "dag_run_id")?;
    Ok(Op::DeleteRun(dag_id, run_id))
}

fn read_clear_run(alloc: Global, row: &Json<'_>) -> Result<Op, LineFault>
    ensures { OrMemory LineFault.OutOfMemory (clear_run_read (view row.now)) result }
{
    let dag_id = name(alloc, row, "dag_id")?;
    let run_id = name(alloc, row, "dag_run_id")?;
    let dry_run = truth(row, "dry_run")?;
    Ok(Op::ClearRun(dag_id, run_id, Ok(dry_run)))
}

fn read_clear_instances(alloc: Global, row: &Json<'_>) -> Result<Op, LineFault>
    ensures { OrMemory LineFault.OutOfMemory (clear_instances_read (view row.now)) result }
{
    let dag_id = name(alloc, row, "dag_id")?;
    let asked = read_clear(alloc, row)?;
    Ok(Op::ClearInstances(dag_id, Ok(asked)))
}

/// Which instances are to be cleared.
fn read_clear(alloc: Global, row: &Json<'_>) -> Result<Clear, LineFault>
    ensures { OrMemory LineFault.OutOfMemory (clear_read (view row.now)) result }
{
    let dry_run = truth(row, "dry_run")?;
    let only_failed = truth(row, "only_failed")?;
    let task_ids = task_ids(alloc, row)?;
    let dag_run_id = optional_name(alloc, row, "dag_run_id")?;
    let start_date = optional_instant(row, "start_date")?;
    let end_date = optional_instant(row, "end_date")?;
    Ok(Clear {
        dry_run,
        only_failed,
        task_ids,
        dag_run_id,
        start_date,
        end_date,
    })
}

fn task_ids(alloc: Global, row: &Json<'_>) -> Result<Option<TaskIds>, LineFault>
    ensures { OrMemory LineFault.OutOfMemory (optional_in (list_value (name_value id_grammar)) (codes "task_ids") (view row.now)) result }
{
    match optional_list(alloc, row, "task_ids")? {
        Some(ids) => Ok(Some(TaskIds::of(ids))),
        None => Ok(None),
    }
}

fn read_backfill(alloc: Global, row: &Json<'_>) -> Result<Op, LineFault>
    ensures { OrMemory LineFault.OutOfMemory (backfill_read (view row.now)) result }
{
    let dag_id = name(alloc, row, "dag_id")?;
    let start_date = instant(row, "start_date")?;
    let end_date = instant(row, "end_date")?;
    Ok(Op::BackfillDag(
        dag_id,
        Ok(Backfill {
            start_date,
            end_date,
        }),
    ))
}

fn read_pool_added(alloc: Global, row: &Json<'_>) -> Result<Op, LineFault>
    ensures { OrMemory LineFault.OutOfMemory (pool_added_read (view row.now)) result }
{
    let name = name(alloc, row, "name")?;
    let slots = short(row, "slots")?;
    Ok(Op::Pool(PoolOp::Add(Ok(Pool { name, slots }))))
}

fn read_pool_changed(alloc: Global, row: &Json<'_>) -> Result<Op, LineFault>
    ensures { OrMemory LineFault.OutOfMemory (pool_changed_read (view row.now)) result }
{
    let name = name(alloc, row, "name")?;
    let slots = short(row, "slots")?;
    Ok(Op::Pool(PoolOp::Change(name, Ok(slots))))
}

fn read_pool_deleted(alloc: Global, row: &Json<'_>) -> Result<Op, LineFault>
    ensures { OrMemory LineFault.OutOfMemory (pool_deleted_read (view row.now)) result }
{
    let name = name(alloc, row, "name")?;
    Ok(Op::Pool(PoolOp::Delete(name)))
}

fn read_variable_added(alloc: Global, row: &Json<'_>) -> Result<Op, LineFault>
    ensures { OrMemory LineFault.OutOfMemory (variable_added_read (view row.now)) result }
{
    let key = name(alloc, row, "key")?;
    let value = var_text(alloc, row)?;
    Ok(Op::Variable(VariableOp::Add(Ok(Variable { key, value }))))
}

fn read_variable_changed(alloc: Global, row: &Json<'_>) -> Result<Op, LineFault>
    ensures { OrMemory LineFault.OutOfMemory (variable_changed_read (view row.now)) result }
{
    let key = name(alloc, row, "key")?;
    let value = var_text(alloc, row)?;
    Ok(Op::Variable(VariableOp::Change(key, Ok(value))))
}

fn read_variable_deleted(alloc: Global, row: &Json<'_>) -> Result<Op, LineFault>
    ensures { OrMemory LineFault.OutOfMemory (variable_deleted_read (view row.now)) result }
{
    let key = name(alloc, row, "key")?;
    Ok(Op::Variable(VariableOp::Delete(key)))
}

/// The text that a variable holds.
fn var_text(alloc: Global, row: &Json<'_>) -> Result<VarText, LineFault>
    ensures { OrMemory LineFault.OutOfMemory (required_in text_value (codes "value") (view row.now)) result }
{
    let value = text(row, "value")?;
    let value = String::from_str(alloc, value)?;
    Ok(VarText::of(value))
}
