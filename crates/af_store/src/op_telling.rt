// Telling operations.
ghost use Rattle.std.specs.Prelude.{◌≡◌, ◌∷◌, [], codes, IfOk, string_bytes};
ghost use Rattle.serde_json.specs.Data.{boolean, string};
ghost use Rattle.af_base.specs.Readings.{OrMemory, seen};
ghost use Rattle.af_runs.specs.Marks.{marked_state};
ghost use Rattle.af_runs.specs.Texts.{state_text};
ghost use Rattle.af_store.specs.Bodies.{body_of, or_null};
ghost use Rattle.af_store.specs.EntryLines.{after_parts, backfill_parts, clear_parts, count_told, entry_fields, ids_told, input_parts, op_parts, pause_parts, pool_parts, run_parts, slots_parts, told_by, trigger_parts, value_parts, variable_parts};
ghost use Rattle.af_store.specs.Tellings.{told_data};

use crate::entry_telling::framed_text;
use crate::line_fault::LineFault;
use crate::told::Told;
use af_audit::Entry;
use af_graph::TaskIds;
use af_names::{DagId, Instant, PoolName, RunId, VarKey};
use af_ops::{Backfill, BodyFault, Clear, Op, PoolOp, Trigger, VariableOp};
use af_pool::Pool;
use af_runs::Mark;
use af_vars::{VarText, Variable};
use std::alloc::{AllocError, Global};

/// The body of the line that tells an entry of an operation.
pub(crate) fn op_text<'x>(alloc: Global, entry: &'x Entry, op: &'x Op) -> Result<String, LineFault>
    ensures { OrMemory LineFault.OutOfMemory (told_by entry.now (op_parts op.now)) (seen (λ text. string_bytes text) result) }
{
    match op {
        Op::PauseDag(dag_id, input) => pause_text(alloc, entry, dag_id, input),
        Op::TriggerRun(dag_id, input) => trigger_text(alloc, entry, dag_id, input),
        Op::MarkRun(dag_id, run_id, input) => mark_text(alloc, entry, dag_id, run_id, input),
        Op::DeleteRun(dag_id, run_id) => Ok(delete_text(alloc, entry, dag_id, run_id)?),
        Op::ClearRun(dag_id, run_id, input) => clear_run_text(alloc, entry, dag_id, run_id, input),
        Op::ClearInstances(dag_id, input) => clear_text(alloc, entry, dag_id, input),
        Op::BackfillDag(dag_id, input) => backfill_text(alloc, entry, dag_id, input),
        Op::Pool(op) => pool_text(alloc, entry, op),
        Op::Variable(op) => variable_text(alloc, entry, op),
        Op::Version
        | Op::ListDags(_)
        | Op::GetDag(_)
        | Op::ListTasks(_)
        | Op::ListRuns(_, _)
        | Op::GetRun(_, _)
        | Op::ListInstances(_, _, _)
        | Op::GetInstance(_, _, _) => Err(LineFault::NotALine),
    }
}

fn pause_text<'x>(
    alloc: Global,
    entry: &'x Entry,
    dag_id: &'x DagId,
    input: &'x Result<bool, BodyFault>,
) -> Result<String, LineFault>
    ensures { OrMemory LineFault.OutOfMemory (told_by entry.now (input_parts (pause_parts dag_id.now) input.now)) (seen (λ text. string_bytes text) result) }
{
    match input {
        Ok(is_paused) => Ok(framed_text(
            alloc,
            entry,
            &[("dag_id", Told::Text(dag_id.as_str()))],
            &[("is_paused", Told::Truth(*is_paused))],
        )?),
        Err(_) => Err(LineFault::NotALine),
    }
}

fn trigger_text<'x>(
    alloc: Global,
    entry: &'x Entry,
    dag_id: &'x DagId,
    input: &'x Result<Trigger, BodyFault>,
) -> Result<String, LineFault>
    ensures { OrMemory LineFault.OutOfMemory (told_by entry.now (input_parts (trigger_parts dag_id.now) input.now)) (seen (λ text. string_bytes text) result) }
{
    match input {
        Ok(asked) => Ok(framed_text(
            alloc,
            entry,
            &[
                ("dag_id", Told::Text(dag_id.as_str())),
                ("dag_run_id", run_told(&asked.dag_run_id)),
            ],
            &[("logical_date", instant_told(asked.logical_date))],
        )?),
        Err(_) => Err(LineFault::NotALine),
    }
}

fn mark_text<'x>(
    alloc: Global,
    entry: &'x Entry,
    dag_id: &'x DagId,
    run_id: &'x RunId,
    input: &'x Result<Mark, BodyFault>,
) -> Result<String, LineFault>
    ensures { OrMemory LineFault.OutOfMemory (told_by entry.now (input_parts (λ mark. run_parts dag_id.now run_id.now [] ((codes "state", string (state_text (marked_state mark))) ∷ [])) input.now)) (seen (λ text. string_bytes text) result) }
{
    match input {
        Ok(mark) => Ok(framed_text(
            alloc,
            entry,
            &[
                ("dag_id", Told::Text(dag_id.as_str())),
                ("dag_run_id", Told::Text(run_id.as_str())),
            ],
            &[("state", Told::Text(mark.state().as_str()))],
        )?),
        Err(_) => Err(LineFault::NotALine),
    }
}

fn delete_text<'x>(
    alloc: Global,
    entry: &'x Entry,
    dag_id: &'x DagId,
    run_id: &'x RunId,
) -> Result<String, AllocError>
    ensures { IfOk result (λ text. string_bytes text ≡ body_of (entry_fields entry.now (run_parts dag_id.now run_id.now [] []))) }
{
    framed_text(
        alloc,
        entry,
        &[
            ("dag_id", Told::Text(dag_id.as_str())),
            ("dag_run_id", Told::Text(run_id.as_str())),
        ],
        &[],
    )
}

fn clear_run_text<'x>(
    alloc: Global,
    entry: &'x Entry,
    dag_id: &'x DagId,
    run_id: &'x RunId,
    input: &'x Result<bool, BodyFault>,
) -> Result<String, LineFault>
    ensures { OrMemory LineFault.OutOfMemory (told_by entry.now (input_parts (λ dry_run. run_parts dag_id.now run_id.now ((codes "dry_run", boolean dry_run) ∷ []) []) input.now)) (seen (λ text. string_bytes text) result) }
{
    match input {
        Ok(dry_run) => Ok(framed_text(
            alloc,
            entry,
            &[
                ("dag_id", Told::Text(dag_id.as_str())),
                ("dag_run_id", Told::Text(run_id.as_str())),
                ("dry_run", Told::Truth(*dry_run)),
            ],
            &[],
        )?),
        Err(_) => Err(LineFault::NotALine),
    }
}

fn clear_text<'x>(
    alloc: Global,
    entry: &'x Entry,
    dag_id: &'x DagId,
    input: &'x Result<Clear, BodyFault>,
) -> Result<String, LineFault>
    ensures { OrMemory LineFault.OutOfMemory (told_by entry.now (input_parts (clear_parts dag_id.now) input.now)) (seen (λ text. string_bytes text) result) }
{
    match input {
        Ok(asked) => Ok(framed_text(
            alloc,
            entry,
            &[
                ("dag_id", Told::Text(dag_id.as_str())),
                ("dag_run_id", run_told(&asked.dag_run_id)),
                ("dry_run", Told::Truth(asked.dry_run)),
                ("end_date", instant_told(asked.end_date)),
            ],
            &[
                ("only_failed", Told::Truth(asked.only_failed)),
                ("start_date", instant_told(asked.start_date)),
                ("task_ids", tasks_told(&asked.task_ids)),
            ],
        )?),
        Err(_) => Err(LineFault::NotALine),
    }
}

fn backfill_text<'x>(
    alloc: Global,
    entry: &'x Entry,
    dag_id: &'x DagId,
    input: &'x Result<Backfill, BodyFault>,
) -> Result<String, LineFault>
    ensures { OrMemory LineFault.OutOfMemory (told_by entry.now (input_parts (backfill_parts dag_id.now) input.now)) (seen (λ text. string_bytes text) result) }
{
    match input {
        Ok(asked) => Ok(framed_text(
            alloc,
            entry,
            &[
                ("dag_id", Told::Text(dag_id.as_str())),
                ("end_date", Told::Count(asked.end_date.micros())),
            ],
            &[("start_date", Told::Count(asked.start_date.micros()))],
        )?),
        Err(_) => Err(LineFault::NotALine),
    }
}

fn pool_text<'x>(alloc: Global, entry: &'x Entry, op: &'x PoolOp) -> Result<String, LineFault>
    ensures { OrMemory LineFault.OutOfMemory (told_by entry.now (pool_parts op.now)) (seen (λ text. string_bytes text) result) }
{
    match op {
        PoolOp::Add(input) => pool_added_text(alloc, entry, input),
        PoolOp::Change(name, input) => pool_changed_text(alloc, entry, name, input),
        PoolOp::Delete(name) => Ok(pool_deleted_text(alloc, entry, name)?),
        PoolOp::List(_) | PoolOp::Get(_) => Err(LineFault::NotALine),
    }
}

fn pool_added_text<'x>(
    alloc: Global,
    entry: &'x Entry,
    input: &'x Result<Pool, BodyFault>,
) -> Result<String, LineFault>
    ensures { OrMemory LineFault.OutOfMemory (told_by entry.now (input_parts (λ added. slots_parts added.name added.slots) input.now)) (seen (λ text. string_bytes text) result) }
{
    match input {
        Ok(added) => Ok(framed_text(
            alloc,
            entry,
            &[],
            &[
                ("name", Told::Text(added.name.as_str())),
                ("slots", Told::Count(u64::from(added.slots))),
            ],
        )?),
        Err(_) => Err(LineFault::NotALine),
    }
}

fn pool_changed_text<'x>(
    alloc: Global,
    entry: &'x Entry,
    name: &'x PoolName,
    input: &'x Result<u32, BodyFault>,
) -> Result<String, LineFault>
    ensures { OrMemory LineFault.OutOfMemory (told_by entry.now (input_parts (slots_parts name.now) input.now)) (seen (λ text. string_bytes text) result) }
{
    match input {
        Ok(slots) => Ok(framed_text(
            alloc,
            entry,
            &[],
            &[
                ("name", Told::Text(name.as_str())),
                ("slots", Told::Count(u64::from(*slots))),
            ],
        )?),
        Err(_) => Err(LineFault::NotALine),
    }
}

fn pool_deleted_text<'x>(
    alloc: Global,
    entry: &'x Entry,
    name: &'x PoolName,
) -> Result<String, AllocError>
    ensures { IfOk result (λ text. string_bytes text ≡ body_of (entry_fields entry.now (after_parts ((codes "name", string name.now) ∷ [])))) }
{
    framed_text(alloc, entry, &[], &[("name", Told::Text(name.as_str()))])
}

fn variable_text<'x>(
    alloc: Global,
    entry: &'x Entry,
    op: &'x VariableOp,
) -> Result<String, LineFault>
    ensures { OrMemory LineFault.OutOfMemory (told_by entry.now (variable_parts op.now)) (seen (λ text. string_bytes text) result) }
{
    match op {
        VariableOp::Add(input) => variable_added_text(alloc, entry, input),
        VariableOp::Change(key, input) => variable_changed_text(alloc, entry, key, input),
        VariableOp::Delete(key) => Ok(variable_deleted_text(alloc, entry, key)?),
        VariableOp::List(_) | VariableOp::Get(_) => Err(LineFault::NotALine),
    }
}

fn variable_added_text<'x>(
    alloc: Global,
    entry: &'x Entry,
    input: &'x Result<Variable, BodyFault>,
) -> Result<String, LineFault>
    ensures { OrMemory LineFault.OutOfMemory (told_by entry.now (input_parts (λ added. value_parts added.key added.value) input.now)) (seen (λ text. string_bytes text) result) }
{
    match input {
        Ok(added) => Ok(framed_text(
            alloc,
            entry,
            &[],
            &[
                ("key", Told::Text(added.key.as_str())),
                ("value", Told::Text(added.value.as_str())),
            ],
        )?),
        Err(_) => Err(LineFault::NotALine),
    }
}

fn variable_changed_text<'x>(
    alloc: Global,
    entry: &'x Entry,
    key: &'x VarKey,
    input: &'x Result<VarText, BodyFault>,
) -> Result<String, LineFault>
    ensures { OrMemory LineFault.OutOfMemory (told_by entry.now (input_parts (value_parts key.now) input.now)) (seen (λ text. string_bytes text) result) }
{
    match input {
        Ok(value) => Ok(framed_text(
            alloc,
            entry,
            &[],
            &[
                ("key", Told::Text(key.as_str())),
                ("value", Told::Text(value.as_str())),
            ],
        )?),
        Err(_) => Err(LineFault::NotALine),
    }
}

fn variable_deleted_text<'x>(
    alloc: Global,
    entry: &'x Entry,
    key: &'x VarKey,
) -> Result<String, AllocError>
    ensures { IfOk result (λ text. string_bytes text ≡ body_of (entry_fields entry.now (after_parts ((codes "key", string key.now) ∷ [])))) }
{
    framed_text(alloc, entry, &[], &[("key", Told::Text(key.as_str()))])
}

/// The id of a run, or null for none.
fn run_told(run_id: &Option<RunId>) -> Told<'_>
    ensures { told_data result ≡ or_null string run_id.now }
{
    match run_id {
        Some(run_id) => Told::Text(run_id.as_str()),
        None => Told::Null,
    }
}

/// An instant in microseconds, or null for none.
fn instant_told(instant: Option<Instant>) -> Told<'static>
    ensures { told_data result ≡ or_null count_told instant }
{
    match instant {
        Some(instant) => Told::Count(instant.micros()),
        None => Told::Null,
    }
}

/// The ids of tasks, or null for none.
fn tasks_told(task_ids: &Option<TaskIds>) -> Told<'_>
    ensures { told_data result ≡ or_null ids_told task_ids.now }
{
    match task_ids {
        Some(ids) => Told::Tasks(ids.as_slice()),
        None => Told::Null,
    }
}
