// What is asked of the policy, by what a query or a body says.
ghost use Rattle.std.specs.Prelude.{◌≡◌, ◌⊎◌};
ghost use Rattle.af_ops.specs.PolicyBodies.{not_read, role_added, role_changed, sync_asked, user_added, user_changed};
ghost use Rattle.af_ops.specs.PolicyOps.{roles_asked, span_of, unread, users_asked};

use crate::input_fault::InputFault;
use crate::policy_bodies::{read_dag_access, read_patch, read_role, read_role_set, read_user};
use crate::policy_op::PolicyOp;
use af_listing::Window;
use af_names::{DagId, RoleName, UserName};
use af_policy::{Ask, BadInput, Change, ChangeKind, Parameter, PolicyRead, ReadKind, Span};
use json::Scratch;
use std::alloc::Global;

/// A page of the roles, or why there is none.
pub(crate) fn roles_asked(asked: Result<Window, Parameter>) -> PolicyOp
    ensures { result ≡ roles_asked asked }
{
    match asked {
        Ok(window) => PolicyOp::Read(PolicyRead::Roles(span_of(&window))),
        Err(it) => PolicyOp::Read(PolicyRead::Bad(ReadKind::Roles, BadInput::Parameter(it))),
    }
}

/// A page of the users, or why there is none.
pub(crate) fn users_asked(asked: Result<Window, Parameter>) -> PolicyOp
    ensures { result ≡ users_asked asked }
{
    match asked {
        Ok(window) => PolicyOp::Read(PolicyRead::Users(span_of(&window))),
        Err(it) => PolicyOp::Read(PolicyRead::Bad(ReadKind::Users, BadInput::Parameter(it))),
    }
}

/// The rows of a window. An offset past 32 bits passes over all rows of a policy, as the last number of these does.
fn span_of(window: &Window) -> Span
    ensures { result ≡ span_of window.now }
{
    Span {
        limit: window.limit() as u32,
        offset: window.offset().min(u32::MAX as usize) as u32,
    }
}

/// A role is added.
pub(crate) fn role_added(alloc: Global, body: &[u8], scratch: &mut Scratch) -> PolicyOp
    ensures { (result ≡ role_added body.now) ⊎ (result ≡ unread (role_added body.now)) }
{
    match read_role(alloc, body, scratch) {
        Ok(input) => PolicyOp::Change(Ask::Made(Change::AddRole(input))),
        Err(fault) => refused(ChangeKind::AddRole, fault),
    }
}

/// A role gets other permissions.
pub(crate) fn role_changed(
    alloc: Global,
    name: RoleName,
    body: &[u8],
    scratch: &mut Scratch,
) -> PolicyOp
    ensures { (result ≡ role_changed name body.now) ⊎ (result ≡ unread (role_changed name body.now)) }
{
    match read_role_set(alloc, name, body, scratch) {
        Ok(input) => PolicyOp::Change(Ask::Made(Change::SetRole(input))),
        Err(fault) => refused(ChangeKind::SetRole, fault),
    }
}

/// A user is added.
pub(crate) fn user_added(alloc: Global, body: &[u8], scratch: &mut Scratch) -> PolicyOp
    ensures { (result ≡ user_added body.now) ⊎ (result ≡ unread (user_added body.now)) }
{
    match read_user(alloc, body, scratch) {
        Ok(user) => PolicyOp::Change(Ask::Made(Change::AddUser(user))),
        Err(fault) => refused(ChangeKind::AddUser, fault),
    }
}

/// A user gets another token or other roles.
pub(crate) fn user_changed(
    alloc: Global,
    name: UserName,
    body: &[u8],
    scratch: &mut Scratch,
) -> PolicyOp
    ensures { (result ≡ user_changed name body.now) ⊎ (result ≡ unread (user_changed name body.now)) }
{
    match read_patch(alloc, name, body, scratch) {
        Ok(patch) => PolicyOp::Change(Ask::Made(Change::SetUser(patch))),
        Err(fault) => refused(ChangeKind::SetUser, fault),
    }
}

/// The access control of a DAG is taken over.
pub(crate) fn sync_asked(
    alloc: Global,
    dag_id: DagId,
    body: &[u8],
    scratch: &mut Scratch,
) -> PolicyOp
    ensures { (result ≡ sync_asked dag_id body.now) ⊎ (result ≡ unread (sync_asked dag_id body.now)) }
{
    match read_dag_access(alloc, dag_id, body, scratch) {
        Ok(access) => PolicyOp::Change(Ask::Made(Change::SyncDag(access))),
        Err(fault) => refused(ChangeKind::SyncDag, fault),
    }
}

/// A change whose body was not read.
fn refused(kind: ChangeKind, fault: InputFault) -> PolicyOp
    ensures { result ≡ not_read kind fault }
{
    match fault {
        InputFault::Bad(input) => PolicyOp::Change(Ask::Bad(kind, input)),
        InputFault::OutOfMemory => PolicyOp::Unread(kind),
    }
}
