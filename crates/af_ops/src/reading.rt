ghost use Rattle.std.specs.Prelude.{◌≡◌, IfOk, IsErr, IsSome, map, string_bytes};
ghost use Rattle.af_ops.specs.Calls.{IsRead, call_of_row};
ghost use Rattle.af_ops.specs.Endpoints.{are_names, is_get};

use crate::call::Call;
use crate::dag_reading::{
    backfill_dag, clear_instances, clear_run, delete_run, get_dag, get_instance, get_run,
    list_dags, list_instances, list_runs, list_tasks, mark_run, pause_dag, trigger_run,
};
use crate::endpoint::Endpoint;
use crate::method::Method;
use crate::op::Op;
use crate::parts::{is_account_name, is_all, is_dag_id, is_row_name, is_run_id, is_task_id};
use crate::path_template::PathTemplate;
use crate::policy_op::PolicyOp;
use crate::policy_reading::{
    add_role, add_user, change_role, change_user, delete_role, delete_user, get_role, get_user,
    list_roles, list_users, sync_dag,
};
use crate::row_reading::{
    add_pool, add_variable, change_pool, change_variable, delete_pool, delete_variable, get_pool,
    get_variable, list_pools, list_variables,
};
use af_listing::Window;
use json::Scratch;
use std::alloc::{AllocError, Global};

/// What a row of the table stands for, where the parts of the path, decoded, are these; none where a part is no name of its kind. A listing reads its window from the query, but that of tasks, which is not paged. Where there is no memory to
/// read the body, the operation says so in place of its input, and is decided without it. Texts of the body with escapes are spelled out in `scratch`, which is kept from call to call: what it held before is not looked at. `AllocError` only where a growth was
/// refused for a name, and all parts are names of their kinds.
pub fn read_row(
    alloc: Global,
    endpoint: Endpoint,
    parts: &[String],
    query: &[u8],
    body: &[u8],
    scratch: &mut Scratch,
) -> Result<Option<Call>, AllocError>
    ensures ok { IfOk result (λ found. IsRead (call_of_row endpoint (map (λ part. string_bytes part) parts.now) query.now body.now) found) }
    ensures memory { IsErr result → IsSome (call_of_row endpoint (map (λ part. string_bytes part) parts.now) query.now body.now) }
{
    match endpoint {
        Endpoint::Version => Ok(Some(Call::State(Op::Version))),
        Endpoint::ListDags => Ok(Some(list_dags(query))),
        Endpoint::GetDag => get_dag(alloc, parts),
        Endpoint::PauseDag => pause_dag(alloc, parts, body, scratch),
        Endpoint::ListTasks => list_tasks(alloc, parts),
        Endpoint::ListRuns => list_runs(alloc, parts, query),
        Endpoint::TriggerRun => trigger_run(alloc, parts, body, scratch),
        Endpoint::GetRun => get_run(alloc, parts),
        Endpoint::MarkRun => mark_run(alloc, parts, body, scratch),
        Endpoint::DeleteRun => delete_run(alloc, parts),
        Endpoint::ClearRun => clear_run(alloc, parts, body, scratch),
        Endpoint::ListInstances => list_instances(alloc, parts, query),
        Endpoint::GetInstance => get_instance(alloc, parts),
        Endpoint::ClearInstances => clear_instances(alloc, parts, body, scratch),
        Endpoint::ListPools => Ok(Some(list_pools(query))),
        Endpoint::AddPool => Ok(Some(add_pool(alloc, body, scratch))),
        Endpoint::GetPool => get_pool(alloc, parts),
        Endpoint::ChangePool => change_pool(alloc, parts, body, scratch),
        Endpoint::DeletePool => delete_pool(alloc, parts),
        Endpoint::ListVariables => Ok(Some(list_variables(query))),
        Endpoint::AddVariable => Ok(Some(add_variable(alloc, body, scratch))),
        Endpoint::GetVariable => get_variable(alloc, parts),
        Endpoint::ChangeVariable => change_variable(alloc, parts, body, scratch),
        Endpoint::DeleteVariable => delete_variable(alloc, parts),
        Endpoint::ListEntries => Ok(Some(Call::Entries(Window::read(query)))),
        Endpoint::ListRoles => Ok(Some(list_roles(query))),
        Endpoint::AddRole => Ok(Some(add_role(alloc, body, scratch))),
        Endpoint::GetRole => get_role(alloc, parts),
        Endpoint::ChangeRole => change_role(alloc, parts, body, scratch),
        Endpoint::DeleteRole => delete_role(alloc, parts),
        Endpoint::ListUsers => Ok(Some(list_users(query))),
        Endpoint::AddUser => Ok(Some(add_user(alloc, body, scratch))),
        Endpoint::GetUser => get_user(alloc, parts),
        Endpoint::ChangeUser => change_user(alloc, parts, body, scratch),
        Endpoint::DeleteUser => delete_user(alloc, parts),
        Endpoint::GetMe => Ok(Some(Call::Policy(PolicyOp::Me))),
        Endpoint::SyncDag => sync_dag(alloc, parts, body, scratch),
        Endpoint::BackfillDag => backfill_dag(alloc, parts, body, scratch),
    }
}

/// Whether the parts of a path of this form, decoded, are names of their kinds, where it is asked for by this method, or by one
/// that the API has not. `~` stands for all DAGs in the listing of runs alone.
pub fn are_names(
    alloc: Global,
    method: Option<Method>,
    template: PathTemplate,
    parts: &[String],
) -> bool
    ensures { result ≡ are_names method template (map (λ part. string_bytes part) parts.now) }
{
    match template {
        PathTemplate::Version
        | PathTemplate::Dags
        | PathTemplate::Pools
        | PathTemplate::Variables => true,
        PathTemplate::Entries | PathTemplate::Roles | PathTemplate::Users | PathTemplate::Me =>
            true,
        PathTemplate::Pool | PathTemplate::Variable => is_row_name(alloc, parts),
        PathTemplate::Role | PathTemplate::User => is_account_name(alloc, parts),
        PathTemplate::Dag | PathTemplate::Tasks | PathTemplate::Clear => is_dag_id(alloc, parts),
        PathTemplate::Sync | PathTemplate::Backfills => is_dag_id(alloc, parts),
        PathTemplate::Runs => is_dag_id(alloc, parts) || is_get(method) && is_all(parts),
        PathTemplate::Run | PathTemplate::RunClear | PathTemplate::Instances => {
            is_dag_id(alloc, parts) && is_run_id(alloc, parts)
        }
        PathTemplate::Instance => {
            is_dag_id(alloc, parts) && (is_run_id(alloc, parts) && is_task_id(alloc, parts))
        }
    }
}

fn is_get(method: Option<Method>) -> bool
    ensures { result ≡ is_get method }
{
    match method {
        Some(Method::Get) => true,
        Some(Method::Post | Method::Patch | Method::Delete) | None => false,
    }
}
