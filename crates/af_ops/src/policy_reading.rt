// What a row of the table stands for, of those on roles and users, and of a sync.
ghost use Rattle.std.specs.Prelude.{◌≡◌, [], IfOk, IsErr, IsSome, Some, map, string_bytes};
ghost use Rattle.af_ops.specs.declared.endpoint.Endpoint.TheVariants.{AddRole, AddUser, ChangeRole, ChangeUser, DeleteRole, DeleteUser, GetRole, GetUser, ListRoles, ListUsers, SyncDag};
ghost use Rattle.af_ops.specs.Calls.{IsRead, call_of_row};

use crate::call::Call;
use crate::parts::{dag_id_in, first_name};
use crate::policy_asking::{
    role_added, role_changed, roles_asked, sync_asked, user_added, user_changed, users_asked,
};
use crate::policy_op::PolicyOp;
use af_listing::Window;
use af_policy::{Ask, Change, PolicyRead};
use json::Scratch;
use std::alloc::{AllocError, Global};

/// A page of the roles.
pub(crate) fn list_roles(query: &[u8]) -> Call
    ensures { IsRead (call_of_row ListRoles [] query.now []) (Some result) }
{
    Call::Policy(roles_asked(Window::read(query)))
}

/// A role is added.
pub(crate) fn add_role(alloc: Global, body: &[u8], scratch: &mut Scratch) -> Call
    ensures { IsRead (call_of_row AddRole [] [] body.now) (Some result) }
{
    Call::Policy(role_added(alloc, body, scratch))
}

/// One role.
pub(crate) fn get_role(alloc: Global, parts: &[String]) -> Result<Option<Call>, AllocError>
    ensures ok { IfOk result (λ found. IsRead (call_of_row GetRole (map (λ part. string_bytes part) parts.now) [] []) found) }
    ensures memory { IsErr result → IsSome (call_of_row GetRole (map (λ part. string_bytes part) parts.now) [] []) }
{
    let Some(name) = first_name(alloc, parts)? else {
        return Ok(None);
    };
    Ok(Some(Call::Policy(PolicyOp::Read(PolicyRead::Role(name)))))
}

/// A role gets other permissions.
pub(crate) fn change_role(
    alloc: Global,
    parts: &[String],
    body: &[u8],
    scratch: &mut Scratch,
) -> Result<Option<Call>, AllocError>
    ensures ok { IfOk result (λ found. IsRead (call_of_row ChangeRole (map (λ part. string_bytes part) parts.now) [] body.now) found) }
    ensures memory { IsErr result → IsSome (call_of_row ChangeRole (map (λ part. string_bytes part) parts.now) [] body.now) }
{
    let Some(name) = first_name(alloc, parts)? else {
        return Ok(None);
    };
    Ok(Some(Call::Policy(role_changed(alloc, name, body, scratch))))
}

/// A role is deleted.
pub(crate) fn delete_role(alloc: Global, parts: &[String]) -> Result<Option<Call>, AllocError>
    ensures ok { IfOk result (λ found. IsRead (call_of_row DeleteRole (map (λ part. string_bytes part) parts.now) [] []) found) }
    ensures memory { IsErr result → IsSome (call_of_row DeleteRole (map (λ part. string_bytes part) parts.now) [] []) }
{
    let Some(name) = first_name(alloc, parts)? else {
        return Ok(None);
    };
    Ok(Some(Call::Policy(PolicyOp::Change(Ask::Made(Change::DropRole(name))))))
}

/// A page of the users.
pub(crate) fn list_users(query: &[u8]) -> Call
    ensures { IsRead (call_of_row ListUsers [] query.now []) (Some result) }
{
    Call::Policy(users_asked(Window::read(query)))
}

/// A user is added.
pub(crate) fn add_user(alloc: Global, body: &[u8], scratch: &mut Scratch) -> Call
    ensures { IsRead (call_of_row AddUser [] [] body.now) (Some result) }
{
    Call::Policy(user_added(alloc, body, scratch))
}

/// One user.
pub(crate) fn get_user(alloc: Global, parts: &[String]) -> Result<Option<Call>, AllocError>
    ensures ok { IfOk result (λ found. IsRead (call_of_row GetUser (map (λ part. string_bytes part) parts.now) [] []) found) }
    ensures memory { IsErr result → IsSome (call_of_row GetUser (map (λ part. string_bytes part) parts.now) [] []) }
{
    let Some(name) = first_name(alloc, parts)? else {
        return Ok(None);
    };
    Ok(Some(Call::Policy(PolicyOp::Read(PolicyRead::User(name)))))
}

/// A user gets another token or other roles.
pub(crate) fn change_user(
    alloc: Global,
    parts: &[String],
    body: &[u8],
    scratch: &mut Scratch,
) -> Result<Option<Call>, AllocError>
    ensures ok { IfOk result (λ found. IsRead (call_of_row ChangeUser (map (λ part. string_bytes part) parts.now) [] body.now) found) }
    ensures memory { IsErr result → IsSome (call_of_row ChangeUser (map (λ part. string_bytes part) parts.now) [] body.now) }
{
    let Some(name) = first_name(alloc, parts)? else {
        return Ok(None);
    };
    Ok(Some(Call::Policy(user_changed(alloc, name, body, scratch))))
}

/// A user is deleted.
pub(crate) fn delete_user(alloc: Global, parts: &[String]) -> Result<Option<Call>, AllocError>
    ensures ok { IfOk result (λ found. IsRead (call_of_row DeleteUser (map (λ part. string_bytes part) parts.now) [] []) found) }
    ensures memory { IsErr result → IsSome (call_of_row DeleteUser (map (λ part. string_bytes part) parts.now) [] []) }
{
    let Some(name) = first_name(alloc, parts)? else {
        return Ok(None);
    };
    Ok(Some(Call::Policy(PolicyOp::Change(Ask::Made(Change::DropUser(name))))))
}

/// The access control of a DAG is taken over.
pub(crate) fn sync_dag(
    alloc: Global,
    parts: &[String],
    body: &[u8],
    scratch: &mut Scratch,
) -> Result<Option<Call>, AllocError>
    ensures ok { IfOk result (λ found. IsRead (call_of_row SyncDag (map (λ part. string_bytes part) parts.now) [] body.now) found) }
    ensures memory { IsErr result → IsSome (call_of_row SyncDag (map (λ part. string_bytes part) parts.now) [] body.now) }
{
    let Some(dag_id) = dag_id_in(alloc, parts)? else {
        return Ok(None);
    };
    Ok(Some(Call::Policy(sync_asked(alloc, dag_id, body, scratch))))
}
