// Reading the bodies of changes of the policy.
ghost use Rattle.std.specs.Prelude.{◌≡◌, Err, IfSome, None};
ghost use Rattle.af_base.specs.JsonValue.{view};
ghost use Rattle.af_base.specs.Readings.{OrMemory, member_of, seen};
ghost use Rattle.af_ops.specs.PolicyBodies.{access_or, body_in, dag_access_in, object_or, patch_in, role_in, role_set_in, user_in};
ghost use Rattle.af_policy.specs.Inputs.{member_text};
ghost use Rattle.af_policy.specs.declared.bad_input.BadInput.TheVariants as bad;
ghost use Rattle.af_policy.specs.declared.bad_input.Member.TheVariants as members;

use crate::access_texts::read_access;
use crate::input_fault::InputFault;
use crate::policy_members::{
    optional_digest, optional_roles, read_actions, read_roles, required_digest, required_name,
    wrong,
};
use af_base::{Json, json_in, member};
use af_names::{DagId, RoleName, UserName};
use af_policy::{BadInput, DagAccess, Member, RoleInput, User, UserPatch};
use af_role::AccessControl;
use json::Scratch;
use std::alloc::Global;

/// Reads a role that is to be added: `name`, then `actions`. The first fault decides.
pub(crate) fn read_role(
    alloc: Global,
    bytes: &[u8],
    scratch: &mut Scratch,
) -> Result<RoleInput, InputFault>
    ensures { OrMemory InputFault.OutOfMemory (role_in bytes.now) result }
{
    let body = body_in(alloc, bytes, scratch)?;
    let name = required_name(alloc, &body, Member::Name)?;
    let actions = read_actions(alloc, &body)?;
    Ok(RoleInput { name, actions })
}

/// Reads the permissions that a role is to list: `actions`. The first fault decides.
pub(crate) fn read_role_set(
    alloc: Global,
    name: RoleName,
    bytes: &[u8],
    scratch: &mut Scratch,
) -> Result<RoleInput, InputFault>
    ensures { OrMemory InputFault.OutOfMemory (role_set_in name bytes.now) result }
{
    let body = body_in(alloc, bytes, scratch)?;
    let actions = read_actions(alloc, &body)?;
    Ok(RoleInput { name, actions })
}

/// Reads a user who is to be added: `username`, then `roles`, then `token_sha256`. The first fault decides.
pub(crate) fn read_user(
    alloc: Global,
    bytes: &[u8],
    scratch: &mut Scratch,
) -> Result<User, InputFault>
    ensures { OrMemory InputFault.OutOfMemory (user_in bytes.now) result }
{
    let body = body_in(alloc, bytes, scratch)?;
    let name: UserName = required_name(alloc, &body, Member::Username)?;
    let roles = read_roles(alloc, &body)?;
    let digest = required_digest(&body)?;
    Ok(User::new(name, digest, roles))
}

/// Reads what is to be another of a user: `roles`, then `token_sha256`, where they are there. The first fault decides.
pub(crate) fn read_patch(
    alloc: Global,
    name: UserName,
    bytes: &[u8],
    scratch: &mut Scratch,
) -> Result<UserPatch, InputFault>
    ensures { OrMemory InputFault.OutOfMemory (patch_in name bytes.now) result }
{
    let body = body_in(alloc, bytes, scratch)?;
    let roles = optional_roles(alloc, &body)?;
    let digest = optional_digest(&body)?;
    Ok(UserPatch {
        name,
        digest,
        roles,
    })
}

/// Reads the access control that a DAG is to have: `access_control`, where it is there. The first fault decides.
pub(crate) fn read_dag_access(
    alloc: Global,
    dag: DagId,
    bytes: &[u8],
    scratch: &mut Scratch,
) -> Result<DagAccess, InputFault>
    ensures { OrMemory InputFault.OutOfMemory (dag_access_in dag bytes.now) result }
{
    let body = body_in(alloc, bytes, scratch)?;
    let access = optional_access(alloc, &body)?;
    Ok(DagAccess { dag, access })
}

/// The object that a body is.
fn body_in<'a>(
    alloc: Global,
    bytes: &'a [u8],
    scratch: &'a mut Scratch,
) -> Result<Json<'a>, InputFault>
    ensures { OrMemory InputFault.OutOfMemory (body_in bytes.now) (seen view result) }
{
    object_of(json_in(alloc, bytes, scratch)?)
}

/// The object that a body's value is. Bytes that are no JSON have no value.
fn object_of<'a>(value: Option<Json<'a>>) -> Result<Json<'a>, InputFault>
    ensures some { IfSome value.entry (λ value. seen view result ≡ object_or (view value)) }
    ensures none { value.entry ≡ None → result ≡ Err (InputFault.Bad bad.Body) }
{
    match value {
        Some(value) if value.is_object() => Ok(value),
        _ => Err(InputFault::Bad(BadInput::Body)),
    }
}

fn optional_access(alloc: Global, body: &Json<'_>) -> Result<Option<AccessControl>, InputFault>
    ensures { OrMemory InputFault.OutOfMemory (access_or (member_of (member_text members.AccessControl) (view body.now))) result }
{
    let Some(value) = member(body, Member::AccessControl.text()) else {
        return Ok(None);
    };
    let fault = wrong(Member::AccessControl);
    let access = read_access(alloc, value, fault, fault, InputFault::OutOfMemory)?;
    Ok(Some(access))
}
