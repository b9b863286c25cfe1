// What a row of the table stands for, of those on DAGs, runs and instances.
ghost use Rattle.std.specs.Prelude.{◌≡◌, [], IfOk, IsErr, IsSome, Some, map, string_bytes};
ghost use Rattle.af_ops.specs.declared.endpoint.Endpoint.TheVariants.{BackfillDag, ClearInstances, ClearRun, DeleteRun, GetDag, GetInstance, GetRun, ListDags, ListInstances, ListRuns, ListTasks, MarkRun, PauseDag, TriggerRun};
ghost use Rattle.af_ops.specs.Calls.{IsRead, call_of_row};

use crate::backfill::read_backfill;
use crate::bodies::{read_clear, read_clear_run, read_mark, read_pause, read_trigger};
use crate::call::Call;
use crate::op::Op;
use crate::parts::{dag_id_in, instance_ids_in, is_all, run_ids_in};
use af_listing::Window;
use json::Scratch;
use std::alloc::{AllocError, Global};

/// A page of the DAGs.
pub(crate) fn list_dags(query: &[u8]) -> Call
    ensures { IsRead (call_of_row ListDags [] query.now []) (Some result) }
{
    Call::State(Op::ListDags(Window::read(query)))
}

/// One DAG.
pub(crate) fn get_dag(alloc: Global, parts: &[String]) -> Result<Option<Call>, AllocError>
    ensures ok { IfOk result (λ found. IsRead (call_of_row GetDag (map (λ part. string_bytes part) parts.now) [] []) found) }
    ensures memory { IsErr result → IsSome (call_of_row GetDag (map (λ part. string_bytes part) parts.now) [] []) }
{
    let Some(dag_id) = dag_id_in(alloc, parts)? else {
        return Ok(None);
    };
    Ok(Some(Call::State(Op::GetDag(dag_id))))
}

/// A DAG is paused, or not.
pub(crate) fn pause_dag(
    alloc: Global,
    parts: &[String],
    body: &[u8],
    scratch: &mut Scratch,
) -> Result<Option<Call>, AllocError>
    ensures ok { IfOk result (λ found. IsRead (call_of_row PauseDag (map (λ part. string_bytes part) parts.now) [] body.now) found) }
    ensures memory { IsErr result → IsSome (call_of_row PauseDag (map (λ part. string_bytes part) parts.now) [] body.now) }
{
    let Some(dag_id) = dag_id_in(alloc, parts)? else {
        return Ok(None);
    };
    Ok(Some(Call::State(Op::PauseDag(dag_id, read_pause(alloc, body, scratch)))))
}

/// The tasks of a DAG.
pub(crate) fn list_tasks(alloc: Global, parts: &[String]) -> Result<Option<Call>, AllocError>
    ensures ok { IfOk result (λ found. IsRead (call_of_row ListTasks (map (λ part. string_bytes part) parts.now) [] []) found) }
    ensures memory { IsErr result → IsSome (call_of_row ListTasks (map (λ part. string_bytes part) parts.now) [] []) }
{
    let Some(dag_id) = dag_id_in(alloc, parts)? else {
        return Ok(None);
    };
    Ok(Some(Call::State(Op::ListTasks(dag_id))))
}

/// A page of the runs of one DAG, or of all.
pub(crate) fn list_runs(
    alloc: Global,
    parts: &[String],
    query: &[u8],
) -> Result<Option<Call>, AllocError>
    ensures ok { IfOk result (λ found. IsRead (call_of_row ListRuns (map (λ part. string_bytes part) parts.now) query.now []) found) }
    ensures memory { IsErr result → IsSome (call_of_row ListRuns (map (λ part. string_bytes part) parts.now) query.now []) }
{
    let asked = Window::read(query);
    if is_all(parts) {
        return Ok(Some(Call::State(Op::ListRuns(None, asked))));
    }
    let Some(dag_id) = dag_id_in(alloc, parts)? else {
        return Ok(None);
    };
    Ok(Some(Call::State(Op::ListRuns(Some(dag_id), asked))))
}

/// A run of a DAG is triggered.
pub(crate) fn trigger_run(
    alloc: Global,
    parts: &[String],
    body: &[u8],
    scratch: &mut Scratch,
) -> Result<Option<Call>, AllocError>
    ensures ok { IfOk result (λ found. IsRead (call_of_row TriggerRun (map (λ part. string_bytes part) parts.now) [] body.now) found) }
    ensures memory { IsErr result → IsSome (call_of_row TriggerRun (map (λ part. string_bytes part) parts.now) [] body.now) }
{
    let Some(dag_id) = dag_id_in(alloc, parts)? else {
        return Ok(None);
    };
    Ok(Some(Call::State(Op::TriggerRun(dag_id, read_trigger(alloc, body, scratch)))))
}

/// One run.
pub(crate) fn get_run(alloc: Global, parts: &[String]) -> Result<Option<Call>, AllocError>
    ensures ok { IfOk result (λ found. IsRead (call_of_row GetRun (map (λ part. string_bytes part) parts.now) [] []) found) }
    ensures memory { IsErr result → IsSome (call_of_row GetRun (map (λ part. string_bytes part) parts.now) [] []) }
{
    let Some((dag_id, run_id)) = run_ids_in(alloc, parts)? else {
        return Ok(None);
    };
    Ok(Some(Call::State(Op::GetRun(dag_id, run_id))))
}

/// A run is marked.
pub(crate) fn mark_run(
    alloc: Global,
    parts: &[String],
    body: &[u8],
    scratch: &mut Scratch,
) -> Result<Option<Call>, AllocError>
    ensures ok { IfOk result (λ found. IsRead (call_of_row MarkRun (map (λ part. string_bytes part) parts.now) [] body.now) found) }
    ensures memory { IsErr result → IsSome (call_of_row MarkRun (map (λ part. string_bytes part) parts.now) [] body.now) }
{
    let Some((dag_id, run_id)) = run_ids_in(alloc, parts)? else {
        return Ok(None);
    };
    Ok(Some(Call::State(Op::MarkRun(dag_id, run_id, read_mark(alloc, body, scratch)))))
}

/// A run is deleted.
pub(crate) fn delete_run(alloc: Global, parts: &[String]) -> Result<Option<Call>, AllocError>
    ensures ok { IfOk result (λ found. IsRead (call_of_row DeleteRun (map (λ part. string_bytes part) parts.now) [] []) found) }
    ensures memory { IsErr result → IsSome (call_of_row DeleteRun (map (λ part. string_bytes part) parts.now) [] []) }
{
    let Some((dag_id, run_id)) = run_ids_in(alloc, parts)? else {
        return Ok(None);
    };
    Ok(Some(Call::State(Op::DeleteRun(dag_id, run_id))))
}

/// The instances of a run are cleared.
pub(crate) fn clear_run(
    alloc: Global,
    parts: &[String],
    body: &[u8],
    scratch: &mut Scratch,
) -> Result<Option<Call>, AllocError>
    ensures ok { IfOk result (λ found. IsRead (call_of_row ClearRun (map (λ part. string_bytes part) parts.now) [] body.now) found) }
    ensures memory { IsErr result → IsSome (call_of_row ClearRun (map (λ part. string_bytes part) parts.now) [] body.now) }
{
    let Some((dag_id, run_id)) = run_ids_in(alloc, parts)? else {
        return Ok(None);
    };
    Ok(Some(Call::State(Op::ClearRun(dag_id, run_id, read_clear_run(alloc, body, scratch)))))
}

/// A page of the instances of a run.
pub(crate) fn list_instances(
    alloc: Global,
    parts: &[String],
    query: &[u8],
) -> Result<Option<Call>, AllocError>
    ensures ok { IfOk result (λ found. IsRead (call_of_row ListInstances (map (λ part. string_bytes part) parts.now) query.now []) found) }
    ensures memory { IsErr result → IsSome (call_of_row ListInstances (map (λ part. string_bytes part) parts.now) query.now []) }
{
    let Some((dag_id, run_id)) = run_ids_in(alloc, parts)? else {
        return Ok(None);
    };
    Ok(Some(Call::State(Op::ListInstances(dag_id, run_id, Window::read(query)))))
}

/// One instance.
pub(crate) fn get_instance(alloc: Global, parts: &[String]) -> Result<Option<Call>, AllocError>
    ensures ok { IfOk result (λ found. IsRead (call_of_row GetInstance (map (λ part. string_bytes part) parts.now) [] []) found) }
    ensures memory { IsErr result → IsSome (call_of_row GetInstance (map (λ part. string_bytes part) parts.now) [] []) }
{
    let Some(((dag_id, run_id), task_id)) = instance_ids_in(alloc, parts)? else {
        return Ok(None);
    };
    Ok(Some(Call::State(Op::GetInstance(dag_id, run_id, task_id))))
}

/// Instances of a DAG's runs are cleared.
pub(crate) fn clear_instances(
    alloc: Global,
    parts: &[String],
    body: &[u8],
    scratch: &mut Scratch,
) -> Result<Option<Call>, AllocError>
    ensures ok { IfOk result (λ found. IsRead (call_of_row ClearInstances (map (λ part. string_bytes part) parts.now) [] body.now) found) }
    ensures memory { IsErr result → IsSome (call_of_row ClearInstances (map (λ part. string_bytes part) parts.now) [] body.now) }
{
    let Some(dag_id) = dag_id_in(alloc, parts)? else {
        return Ok(None);
    };
    Ok(Some(Call::State(Op::ClearInstances(dag_id, read_clear(alloc, body, scratch)))))
}

/// Runs are made for the points of a range of dates of a DAG.
pub(crate) fn backfill_dag(
    alloc: Global,
    parts: &[String],
    body: &[u8],
    scratch: &mut Scratch,
) -> Result<Option<Call>, AllocError>
    ensures ok { IfOk result (λ found. IsRead (call_of_row BackfillDag (map (λ part. string_bytes part) parts.now) [] body.now) found) }
    ensures memory { IsErr result → IsSome (call_of_row BackfillDag (map (λ part. string_bytes part) parts.now) [] body.now) }
{
    let Some(dag_id) = dag_id_in(alloc, parts)? else {
        return Ok(None);
    };
    Ok(Some(Call::State(Op::BackfillDag(dag_id, read_backfill(alloc, body, scratch)))))
}
