// Reading the members of a request's body. A member that is null counts as absent. Texts with escapes are spelled out in `scratch`,
// which is kept from body to body: what it held before is not looked at.
ghost use Rattle.std.specs.Prelude.{◌≡◌, ⊤, Err, Ok, [], IfSome, IsOk, None, map, true, unwrap_or};
ghost use Rattle.af_base.specs.JsonValue.{view};
ghost use Rattle.serde_json.specs.Find.{as_bool};
ghost use Rattle.af_base.specs.Readings.{Makes, OrMemory, seen, taking};
ghost use Rattle.af_ops.specs.Bodies.{body_in, clear_by, clear_in, clear_of, clear_run_in, date_in, empty_object, id_taken, instant_in, is_empty, mark_in, mark_value, object_or, optional_in, pause_in, required_in, run_id_of, task_ids_in, trigger_in};

use crate::body_fault::{BodyFault, Member};
use crate::clear::Clear;
use crate::member_name::name_of;
use crate::trigger::Trigger;
use af_base::{Json, json_in, member, optional_truth, required_truth};
use af_graph::TaskIds;
use af_names::{Instant, NameError, RunId, TaskId};
use af_runs::{Mark, RunState};
use json::Scratch;
use std::alloc::Global;

/// Reads whether a DAG is to be paused. The first fault decides: `BadBody` where the bytes are no JSON object, `BadMember`
/// where `is_paused` is no truth value; `OutOfMemory` only where a growth was refused.
pub fn read_pause(alloc: Global, bytes: &[u8], scratch: &mut Scratch) -> Result<bool, BodyFault>
    ensures { OrMemory BodyFault.OutOfMemory (pause_in bytes.now) result }
{
    let body = body_in(alloc, bytes, scratch)?;
    let it = Member::IsPaused;
    required_truth(&body, name_of(it), BodyFault::BadMember(it))
}

/// Reads what triggers a run. The first fault decides: `BadBody` where the bytes are no JSON object, then `BadMember` of
/// `dag_run_id`, of `logical_date` or else of `execution_date`, and of `conf`, where they are there and of another kind or
/// value; `OutOfMemory` only where a growth was refused.
pub fn read_trigger(
    alloc: Global,
    bytes: &[u8],
    scratch: &mut Scratch,
) -> Result<Trigger, BodyFault>
    ensures { OrMemory BodyFault.OutOfMemory (trigger_in bytes.now) result }
{
    let body = body_in(alloc, bytes, scratch)?;
    let dag_run_id = optional_run_id(alloc, &body, Member::DagRunId)?;
    let logical_date = date_in(&body)?;
    optional_empty(&body, Member::Conf)?;
    Ok(Trigger {
        dag_run_id,
        logical_date,
    })
}

/// Reads what a run is marked. The first fault decides: `BadBody` where the bytes are no JSON object, `BadMember` where `state`
/// is none of `success`, `failed` and `queued`; `OutOfMemory` only where a growth was refused.
pub fn read_mark(alloc: Global, bytes: &[u8], scratch: &mut Scratch) -> Result<Mark, BodyFault>
    ensures { OrMemory BodyFault.OutOfMemory (mark_in bytes.now) result }
{
    let body = body_in(alloc, bytes, scratch)?;
    required_mark(&body, Member::State)
}

/// Reads whether a clear of a run is only to be told. The first fault decides: `BadBody` where the bytes are no JSON object,
/// `BadMember` where `dry_run` is there and no truth value; `OutOfMemory` only where a growth was refused.
pub fn read_clear_run(alloc: Global, bytes: &[u8], scratch: &mut Scratch) -> Result<bool, BodyFault>
    ensures { OrMemory BodyFault.OutOfMemory (clear_run_in bytes.now) result }
{
    let body = body_in(alloc, bytes, scratch)?;
    truth_or_true(&body, Member::DryRun)
}

/// Reads which instances are to be cleared. The first fault decides: `BadBody` where the bytes are no JSON object, then
/// `BadMember` of `dry_run`, `only_failed`, `task_ids`, `dag_run_id`, `start_date` and `end_date`, where they are there and of
/// another kind or value; `OutOfMemory` only where a growth was refused.
pub fn read_clear(alloc: Global, bytes: &[u8], scratch: &mut Scratch) -> Result<Clear, BodyFault>
    ensures { OrMemory BodyFault.OutOfMemory (clear_in bytes.now) result }
{
    let body = body_in(alloc, bytes, scratch)?;
    clear_of(alloc, &body)
}

fn clear_of(alloc: Global, body: &Json<'_>) -> Result<Clear, BodyFault>
    ensures { OrMemory BodyFault.OutOfMemory (clear_of (view body.now)) result }
{
    let dry_run = optional_of(body, Member::DryRun)?;
    let only_failed = optional_of(body, Member::OnlyFailed)?;
    clear_by(alloc, body, dry_run, only_failed)
}

/// What is to be cleared; a truth value that is absent counts as true.
fn clear_by(
    alloc: Global,
    body: &Json<'_>,
    dry_run: Option<bool>,
    only_failed: Option<bool>,
) -> Result<Clear, BodyFault>
    ensures { OrMemory BodyFault.OutOfMemory (clear_by dry_run only_failed (view body.now)) result }
{
    let task_ids = optional_task_ids(alloc, body)?;
    let dag_run_id = optional_run_id(alloc, body, Member::DagRunId)?;
    let start_date = optional_instant(body, Member::StartDate)?;
    let end_date = optional_instant(body, Member::EndDate)?;
    Ok(Clear {
        dry_run: dry_run.unwrap_or(true),
        only_failed: only_failed.unwrap_or(true),
        task_ids,
        dag_run_id,
        start_date,
        end_date,
    })
}

/// The object that a body is.
pub(crate) fn body_in<'a>(
    alloc: Global,
    bytes: &'a [u8],
    scratch: &'a mut Scratch,
) -> Result<Json<'a>, BodyFault>
    ensures { OrMemory BodyFault.OutOfMemory (body_in bytes.now) (seen view result) }
{
    object_of(json_in(alloc, bytes, scratch)?)
}

/// The object that a body's value is. Bytes that are no JSON have no value.
fn object_of<'a>(value: Option<Json<'a>>) -> Result<Json<'a>, BodyFault>
    ensures some { IfSome value.entry (λ value. seen view result ≡ object_or (view value)) }
    ensures none { value.entry ≡ None → result ≡ Err BodyFault.BadBody }
{
    match value {
        Some(value) if value.is_object() => Ok(value),
        _ => Err(BodyFault::BadBody),
    }
}

/// The logical date, by its name or by its older one.
fn date_in(body: &Json<'_>) -> Result<Option<Instant>, BodyFault>
    ensures { result ≡ date_in (view body.now) }
{
    match member(body, "logical_date") {
        Some(_) => optional_instant(body, Member::LogicalDate),
        None => optional_instant(body, Member::ExecutionDate),
    }
}

fn optional_instant(body: &Json<'_>, it: Member) -> Result<Option<Instant>, BodyFault>
    ensures { result ≡ optional_in instant_in it (view body.now) }
{
    let Some(value) = member(body, name_of(it)) else {
        return Ok(None);
    };
    let Some(text) = value.as_str() else {
        return Err(BodyFault::BadMember(it));
    };
    match Instant::read(text) {
        Ok(instant) => Ok(Some(instant)),
        Err(_) => Err(BodyFault::BadMember(it)),
    }
}

fn optional_run_id(alloc: Global, body: &Json<'_>, it: Member) -> Result<Option<RunId>, BodyFault>
    ensures told { OrMemory BodyFault.OutOfMemory (optional_in run_id_of it (view body.now)) result }
    ensures memory { result ≡ Err BodyFault.OutOfMemory → IsOk (optional_in run_id_of it (view body.now)) }
{
    let Some(value) = member(body, name_of(it)) else {
        return Ok(None);
    };
    let Some(text) = value.as_str() else {
        return Err(BodyFault::BadMember(it));
    };
    match RunId::parse(alloc, text) {
        Ok(run_id) => Ok(Some(run_id)),
        Err(NameError::OutOfMemory) => Err(BodyFault::OutOfMemory),
        Err(_) => Err(BodyFault::BadMember(it)),
    }
}

/// An object without members, or nothing.
fn optional_empty(body: &Json<'_>, it: Member) -> Result<Option<()>, BodyFault>
    ensures { result ≡ optional_in empty_object it (view body.now) }
{
    let Some(value) = member(body, name_of(it)) else {
        return Ok(None);
    };
    if is_empty_object(value) {
        Ok(Some(()))
    } else {
        Err(BodyFault::BadMember(it))
    }
}

fn is_empty_object(value: &Json<'_>) -> bool
    ensures { result ≡ is_empty (view value.now) }
{
    match value.as_object() {
        Some(members) => members.is_empty(),
        None => false,
    }
}

fn required_mark(body: &Json<'_>, it: Member) -> Result<Mark, BodyFault>
    ensures { result ≡ required_in mark_value it (view body.now) }
{
    match member(body, name_of(it)) {
        Some(value) => mark_value(value).ok_or(BodyFault::BadMember(it)),
        None => Err(BodyFault::BadMember(it)),
    }
}

/// The mark that puts a run into the state of a text.
fn mark_value(value: &Json<'_>) -> Option<Mark>
    ensures { result ≡ mark_value (view value.now) }
{
    let text = value.as_str()?;
    let state = RunState::read(text)?;
    Mark::of(state)
}

/// A truth value, or nothing.
fn optional_of(body: &Json<'_>, it: Member) -> Result<Option<bool>, BodyFault>
    ensures { result ≡ optional_in as_bool it (view body.now) }
{
    optional_truth(body, name_of(it), BodyFault::BadMember(it))
}

/// A truth value, which is true where it is absent.
fn truth_or_true(body: &Json<'_>, it: Member) -> Result<bool, BodyFault>
    ensures { result ≡ seen (λ truth. unwrap_or truth true) (optional_in as_bool it (view body.now)) }
{
    match optional_truth(body, name_of(it), BodyFault::BadMember(it))? {
        Some(truth) => Ok(truth),
        None => Ok(true),
    }
}

/// The ids of tasks, where they are there.
fn optional_task_ids(alloc: Global, body: &Json<'_>) -> Result<Option<TaskIds>, BodyFault>
    ensures { OrMemory BodyFault.OutOfMemory (task_ids_in (view body.now)) result }
{
    let Some(value) = member(body, "task_ids") else {
        return Ok(None);
    };
    let Some(values) = value.as_array() else {
        return Err(BodyFault::BadMember(Member::TaskIds));
    };
    let ids = read_ids(alloc, values)?;
    Ok(Some(TaskIds::of(ids)))
}

fn read_ids(alloc: Global, values: &[Json<'_>]) -> Result<Vec<TaskId>, BodyFault>
    ensures { OrMemory BodyFault.OutOfMemory (taking id_taken [] (map view values.now)) (seen (λ ids. ids.items) result) }
{
    let mut ids = Vec::with_capacity(alloc, values.len())?;
    for value in values {
        add_id(alloc, &mut ids, value)?;
    }
    Ok(ids)
}

fn add_id(alloc: Global, ids: &mut Vec<TaskId>, value: &Json<'_>) -> Result<(), BodyFault>
    ensures { Makes BodyFault.OutOfMemory (id_taken ids.old.items (view value.now)) ids.new.items result }
{
    let Some(text) = value.as_str() else {
        return Err(BodyFault::BadMember(Member::TaskIds));
    };
    match TaskId::parse(alloc, text) {
        Ok(id) => match ids.push(id) {
            Ok(()) => Ok(()),
            Err(_) => Err(BodyFault::OutOfMemory),
        },
        Err(NameError::OutOfMemory) => Err(BodyFault::OutOfMemory),
        Err(_) => Err(BodyFault::BadMember(Member::TaskIds)),
    }
}
