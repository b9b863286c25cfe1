// The names that stand in the parts of a path, decoded. Out of memory is told of a name alone.
ghost use Rattle.std.specs.Prelude.{◌≡◌, IfOk, IsErr, IsSome, is_some, map, string_bytes};
ghost use Rattle.af_ops.specs.Endpoints.{account_name_in, dag_id_in, first_in, instance_ids_in, is_all, row_name_in, run_id_in, run_ids_in, task_id_in};

use af_names::{DagId, Name, NameError, NameKind, PoolName, RoleName, RunId, TaskId};
use std::alloc::{AllocError, Global};

/// Whether the first part of a path is `~`.
pub(crate) fn is_all(parts: &[String]) -> bool
    ensures { result ≡ is_all (map (λ part. string_bytes part) parts.now) }
{
    match parts.first() {
        Some(part) => part.as_str() == "~",
        None => false,
    }
}

/// Whether the first part of a path is the id of a DAG. Out of memory is told of a name alone.
pub(crate) fn is_dag_id(alloc: Global, parts: &[String]) -> bool
    ensures { result ≡ is_some (dag_id_in (map (λ part. string_bytes part) parts.now)) }
{
    match parts.first() {
        Some(part) => matches!(
            DagId::parse(alloc, part.as_str()),
            Ok(_) | Err(NameError::OutOfMemory)
        ),
        None => false,
    }
}

/// The DAG's id that is the first part of a path.
pub(crate) fn dag_id_in(alloc: Global, parts: &[String]) -> Result<Option<DagId>, AllocError>
    ensures ok { IfOk result (λ dag_id. dag_id ≡ dag_id_in (map (λ part. string_bytes part) parts.now)) }
    ensures memory { IsErr result → IsSome (dag_id_in (map (λ part. string_bytes part) parts.now)) }
{
    first_name(alloc, parts)
}

/// Whether the second part of a path is the id of a run. Out of memory is told of a name alone.
pub(crate) fn is_run_id(alloc: Global, parts: &[String]) -> bool
    ensures { result ≡ is_some (run_id_in (map (λ part. string_bytes part) parts.now)) }
{
    match parts.get(1) {
        Some(part) => matches!(
            RunId::parse(alloc, part.as_str()),
            Ok(_) | Err(NameError::OutOfMemory)
        ),
        None => false,
    }
}

/// The run's id that is the second part of a path.
pub(crate) fn run_id_in(alloc: Global, parts: &[String]) -> Result<Option<RunId>, AllocError>
    ensures ok { IfOk result (λ run_id. run_id ≡ run_id_in (map (λ part. string_bytes part) parts.now)) }
    ensures memory { IsErr result → IsSome (run_id_in (map (λ part. string_bytes part) parts.now)) }
{
    let Some(part) = parts.get(1) else {
        return Ok(None);
    };
    match RunId::parse(alloc, part.as_str()) {
        Ok(run_id) => Ok(Some(run_id)),
        Err(NameError::OutOfMemory) => Err(AllocError),
        Err(_) => Ok(None),
    }
}

/// The ids of a run that are the parts of a path: of its DAG, and its own.
pub(crate) fn run_ids_in(
    alloc: Global,
    parts: &[String],
) -> Result<Option<(DagId, RunId)>, AllocError>
    ensures ok { IfOk result (λ ids. ids ≡ run_ids_in (map (λ part. string_bytes part) parts.now)) }
    ensures memory { IsErr result → IsSome (run_ids_in (map (λ part. string_bytes part) parts.now)) }
{
    let dag_id = dag_id_in(alloc, parts);
    match run_id_in(alloc, parts) {
        Ok(Some(run_id)) => match dag_id {
            Ok(Some(dag_id)) => Ok(Some((dag_id, run_id))),
            Ok(None) => Ok(None),
            Err(error) => Err(error),
        },
        Ok(None) => Ok(None),
        Err(error) => match dag_id {
            Ok(None) => Ok(None),
            _ => Err(error),
        },
    }
}

/// Whether the third part of a path is the id of a task. Out of memory is told of a name alone.
pub(crate) fn is_task_id(alloc: Global, parts: &[String]) -> bool
    ensures { result ≡ is_some (task_id_in (map (λ part. string_bytes part) parts.now)) }
{
    match parts.get(2) {
        Some(part) => matches!(
            TaskId::parse(alloc, part.as_str()),
            Ok(_) | Err(NameError::OutOfMemory)
        ),
        None => false,
    }
}

/// The task's id that is the third part of a path.
pub(crate) fn task_id_in(alloc: Global, parts: &[String]) -> Result<Option<TaskId>, AllocError>
    ensures ok { IfOk result (λ task_id. task_id ≡ task_id_in (map (λ part. string_bytes part) parts.now)) }
    ensures memory { IsErr result → IsSome (task_id_in (map (λ part. string_bytes part) parts.now)) }
{
    let Some(part) = parts.get(2) else {
        return Ok(None);
    };
    match TaskId::parse(alloc, part.as_str()) {
        Ok(task_id) => Ok(Some(task_id)),
        Err(NameError::OutOfMemory) => Err(AllocError),
        Err(_) => Ok(None),
    }
}

/// The ids of an instance that are the parts of a path: of its DAG, its run and its task.
pub(crate) fn instance_ids_in(
    alloc: Global,
    parts: &[String],
) -> Result<Option<((DagId, RunId), TaskId)>, AllocError>
    ensures ok { IfOk result (λ ids. ids ≡ instance_ids_in (map (λ part. string_bytes part) parts.now)) }
    ensures memory { IsErr result → IsSome (instance_ids_in (map (λ part. string_bytes part) parts.now)) }
{
    let run_ids = run_ids_in(alloc, parts);
    match task_id_in(alloc, parts) {
        Ok(Some(task_id)) => match run_ids {
            Ok(Some(run_ids)) => Ok(Some((run_ids, task_id))),
            Ok(None) => Ok(None),
            Err(error) => Err(error),
        },
        Ok(None) => Ok(None),
        Err(error) => match run_ids {
            Ok(None) => Ok(None),
            _ => Err(error),
        },
    }
}

/// Whether the first part of a path is the name of a pool, which is spelled as the key of a variable is. Out of memory is told
/// of a name alone.
pub(crate) fn is_row_name(alloc: Global, parts: &[String]) -> bool
    ensures { result ≡ is_some (row_name_in (map (λ part. string_bytes part) parts.now)) }
{
    match parts.first() {
        Some(part) => matches!(
            PoolName::parse(alloc, part.as_str()),
            Ok(_) | Err(NameError::OutOfMemory)
        ),
        None => false,
    }
}

/// Whether the first part of a path is the name of a role, which is spelled as that of a user is. Out of memory is told of a name
/// alone.
pub(crate) fn is_account_name(alloc: Global, parts: &[String]) -> bool
    ensures { result ≡ is_some (account_name_in (map (λ part. string_bytes part) parts.now)) }
{
    match parts.first() {
        Some(part) => matches!(
            RoleName::parse(alloc, part.as_str()),
            Ok(_) | Err(NameError::OutOfMemory)
        ),
        None => false,
    }
}

/// The name of a kind that is the first part of a path.
pub(crate) fn first_name<K: NameKind>(
    alloc: Global,
    parts: &[String],
) -> Result<Option<Name<K>>, AllocError>
    ensures ok { IfOk result (λ name. name ≡ first_in K.grammar (map (λ part. string_bytes part) parts.now)) }
    ensures memory { IsErr result → IsSome (first_in K.grammar (map (λ part. string_bytes part) parts.now)) }
{
    let Some(part) = parts.first() else {
        return Ok(None);
    };
    match Name::parse(alloc, part.as_str()) {
        Ok(name) => Ok(Some(name)),
        Err(NameError::OutOfMemory) => Err(AllocError),
        Err(_) => Ok(None),
    }
}
