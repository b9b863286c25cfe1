// Reading changes of the policy.
ghost use Rattle.std.specs.Prelude.{◌≡◌};
ghost use Rattle.std.specs.List.{find};
ghost use Rattle.af_base.specs.JsonValue.{view};
ghost use Rattle.af_base.specs.Readings.{OrMemory};
ghost use Rattle.af_store.specs.Bodies.{same_text};
ghost use Rattle.af_store.specs.ChangeLines.{event_of};
ghost use Rattle.af_store.specs.ChangeReads.{change_by, change_in, change_read, dag_access_read, kind_of, kinds, patch_read, role_read, user_read};

use crate::change_line::ChangeLine;
use crate::change_telling::event_of;
use crate::line_fault::LineFault;
use crate::members::{digest, list, name, optional_digest, optional_list, text};
use af_base::Json;
use af_policy::{Change, ChangeKind, DagAccess, RoleInput, RoleNames, User, UserPatch};
use af_role::{AccessControl, PairTexts};
use std::alloc::Global;

/// Every kind of change.
const KINDS: [ChangeKind; 7] = [
    ChangeKind::AddRole,
    ChangeKind::SetRole,
    ChangeKind::DropRole,
    ChangeKind::AddUser,
    ChangeKind::SetUser,
    ChangeKind::DropUser,
    ChangeKind::SyncDag,
];

/// The author and the change that the members say.
pub(crate) fn read_line(alloc: Global, row: &Json<'_>) -> Result<ChangeLine, LineFault>
    ensures { OrMemory LineFault.OutOfMemory (change_in (view row.now)) result }
{
    let by = name(alloc, row, "by")?;
    let change = read_change(alloc, row)?;
    Ok(ChangeLine { by, change })
}

fn read_change(alloc: Global, row: &Json<'_>) -> Result<Change, LineFault>
    ensures { OrMemory LineFault.OutOfMemory (change_read (view row.now)) result }
{
    let event = text(row, "event")?;
    let kind = kind_of(event)?;
    read_by(alloc, row, kind)
}

/// The kind of change whose event this is.
fn kind_of(event: &str) -> Result<ChangeKind, LineFault>
    ensures { result ≡ kind_of event.now }
{
    first_kind(event).ok_or(LineFault::NotALine)
}

/// The first kind whose event this is.
fn first_kind(event: &str) -> Option<ChangeKind>
    ensures { result ≡ find (λ it. same_text (event_of it) event.now) kinds }
{
    KINDS.iter().copied().find(|kind| is_event(*kind, event))
}

fn is_event(kind: ChangeKind, event: &str) -> bool
    ensures { result ≡ same_text (event_of kind) event.now }
{
    event_of(kind) == event
}

fn read_by(alloc: Global, row: &Json<'_>, kind: ChangeKind) -> Result<Change, LineFault>
    ensures { OrMemory LineFault.OutOfMemory (change_by kind (view row.now)) result }
{
    match kind {
        ChangeKind::AddRole => Ok(Change::AddRole(read_role(alloc, row)?)),
        ChangeKind::SetRole => Ok(Change::SetRole(read_role(alloc, row)?)),
        ChangeKind::DropRole => Ok(Change::DropRole(name(alloc, row, "name")?)),
        ChangeKind::AddUser => Ok(Change::AddUser(read_user(alloc, row)?)),
        ChangeKind::SetUser => Ok(Change::SetUser(read_patch(alloc, row)?)),
        ChangeKind::DropUser => Ok(Change::DropUser(name(alloc, row, "username")?)),
        ChangeKind::SyncDag => Ok(Change::SyncDag(read_access(alloc, row)?)),
    }
}

fn read_role(alloc: Global, row: &Json<'_>) -> Result<RoleInput, LineFault>
    ensures { OrMemory LineFault.OutOfMemory (role_read (view row.now)) result }
{
    let name = name(alloc, row, "name")?;
    let actions = list(alloc, row, "actions")?;
    Ok(RoleInput {
        name,
        actions: PairTexts::of(actions),
    })
}

fn read_user(alloc: Global, row: &Json<'_>) -> Result<User, LineFault>
    ensures { OrMemory LineFault.OutOfMemory (user_read (view row.now)) result }
{
    let name = name(alloc, row, "username")?;
    let digest = digest(row, "token_sha256")?;
    let roles = list(alloc, row, "roles")?;
    Ok(User::new(name, digest, roles))
}

fn read_patch(alloc: Global, row: &Json<'_>) -> Result<UserPatch, LineFault>
    ensures { OrMemory LineFault.OutOfMemory (patch_read (view row.now)) result }
{
    let name = name(alloc, row, "username")?;
    let digest = optional_digest(row, "token_sha256")?;
    let roles = optional_list(alloc, row, "roles")?;
    Ok(UserPatch {
        name,
        digest,
        roles: roles.map(RoleNames::of),
    })
}

fn read_access(alloc: Global, row: &Json<'_>) -> Result<DagAccess, LineFault>
    ensures { OrMemory LineFault.OutOfMemory (dag_access_read (view row.now)) result }
{
    let dag = name(alloc, row, "dag_id")?;
    let access = optional_list(alloc, row, "access_control")?;
    Ok(DagAccess {
        dag,
        access: access.map(AccessControl::new),
    })
}
