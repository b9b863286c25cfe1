// Telling changes of the policy.
ghost use Rattle.std.specs.Prelude.{◌≡◌, IfOk, string_bytes};
ghost use Rattle.af_store.specs.Bodies.{body_of, list_of, or_null};
ghost use Rattle.af_store.specs.ChangeLines.{access_fields, access_told, change_fields, digest_told, event_of, patch_fields, role_dropped_fields, role_fields, roles_told, user_dropped_fields, user_fields};
ghost use Rattle.af_store.specs.Tellings.{told_data};

use crate::told::{Told, body_text};
use af_names::{RoleName, UserName};
use af_policy::{Change, ChangeKind, DagAccess, RoleInput, User, UserPatch};
use std::alloc::{AllocError, Global};

/// The body of the line that tells a change.
pub(crate) fn change_text(
    alloc: Global,
    by: &UserName,
    change: &Change,
) -> Result<String, AllocError>
    ensures { IfOk result (λ text. string_bytes text ≡ body_of (change_fields by.now change.now)) }
{
    match change {
        Change::AddRole(input) => role_text(alloc, by, ChangeKind::AddRole, input),
        Change::SetRole(input) => role_text(alloc, by, ChangeKind::SetRole, input),
        Change::DropRole(name) => role_dropped_text(alloc, by, name),
        Change::AddUser(user) => user_text(alloc, by, user),
        Change::SetUser(patch) => patch_text(alloc, by, patch),
        Change::DropUser(name) => user_dropped_text(alloc, by, name),
        Change::SyncDag(access) => access_text(alloc, by, access),
    }
}

/// The event of a change.
pub(crate) fn event_of(kind: ChangeKind) -> &'static str
    ensures { result.now ≡ event_of kind }
{
    match kind {
        ChangeKind::AddRole => "add_role",
        ChangeKind::SetRole => "set_role",
        ChangeKind::DropRole => "drop_role",
        ChangeKind::AddUser => "add_user",
        ChangeKind::SetUser => "set_user",
        ChangeKind::DropUser => "drop_user",
        ChangeKind::SyncDag => "sync_dag",
    }
}

fn role_text<'x>(
    alloc: Global,
    by: &'x UserName,
    kind: ChangeKind,
    input: &'x RoleInput,
) -> Result<String, AllocError>
    ensures { IfOk result (λ text. string_bytes text ≡ body_of (role_fields by.now kind input.now)) }
{
    body_text(
        alloc,
        &[
            ("actions", Told::Pairs(input.actions.as_slice())),
            ("by", Told::Text(by.as_str())),
            ("event", Told::Text(event_of(kind))),
            ("name", Told::Text(input.name.as_str())),
        ],
    )
}

fn role_dropped_text<'x>(
    alloc: Global,
    by: &'x UserName,
    name: &'x RoleName,
) -> Result<String, AllocError>
    ensures { IfOk result (λ text. string_bytes text ≡ body_of (role_dropped_fields by.now name.now)) }
{
    body_text(
        alloc,
        &[
            ("by", Told::Text(by.as_str())),
            ("event", Told::Text(event_of(ChangeKind::DropRole))),
            ("name", Told::Text(name.as_str())),
        ],
    )
}

fn user_text<'x>(alloc: Global, by: &'x UserName, user: &'x User) -> Result<String, AllocError>
    ensures { IfOk result (λ text. string_bytes text ≡ body_of (user_fields by.now user.now)) }
{
    body_text(
        alloc,
        &[
            ("by", Told::Text(by.as_str())),
            ("event", Told::Text(event_of(ChangeKind::AddUser))),
            ("roles", Told::Roles(user.roles())),
            ("token_sha256", Told::Digest(user.digest())),
            ("username", Told::Text(user.name().as_str())),
        ],
    )
}

fn patch_text<'x>(
    alloc: Global,
    by: &'x UserName,
    patch: &'x UserPatch,
) -> Result<String, AllocError>
    ensures { IfOk result (λ text. string_bytes text ≡ body_of (patch_fields by.now patch.now)) }
{
    body_text(
        alloc,
        &[
            ("by", Told::Text(by.as_str())),
            ("event", Told::Text(event_of(ChangeKind::SetUser))),
            ("roles", new_roles(patch)),
            ("token_sha256", new_digest(patch)),
            ("username", Told::Text(patch.name.as_str())),
        ],
    )
}

fn user_dropped_text<'x>(
    alloc: Global,
    by: &'x UserName,
    name: &'x UserName,
) -> Result<String, AllocError>
    ensures { IfOk result (λ text. string_bytes text ≡ body_of (user_dropped_fields by.now name.now)) }
{
    body_text(
        alloc,
        &[
            ("by", Told::Text(by.as_str())),
            ("event", Told::Text(event_of(ChangeKind::DropUser))),
            ("username", Told::Text(name.as_str())),
        ],
    )
}

fn access_text<'x>(
    alloc: Global,
    by: &'x UserName,
    access: &'x DagAccess,
) -> Result<String, AllocError>
    ensures { IfOk result (λ text. string_bytes text ≡ body_of (access_fields by.now access.now)) }
{
    body_text(
        alloc,
        &[
            ("access_control", new_access(access)),
            ("by", Told::Text(by.as_str())),
            ("dag_id", Told::Text(access.dag.as_str())),
            ("event", Told::Text(event_of(ChangeKind::SyncDag))),
        ],
    )
}

/// The roles that a user is to have, or null where they stay.
fn new_roles(patch: &UserPatch) -> Told<'_>
    ensures { told_data result ≡ or_null roles_told patch.now.roles }
{
    match &patch.roles {
        Some(roles) => Told::Roles(roles.as_slice()),
        None => Told::Null,
    }
}

/// The access control that a DAG is to have, or null where it stays.
fn new_access(access: &DagAccess) -> Told<'_>
    ensures { told_data result ≡ or_null (list_of access_told) access.now.access }
{
    match &access.access {
        Some(access) => Told::Access(access.as_slice()),
        None => Told::Null,
    }
}

/// The digest that a user is to have, or null where it stays.
fn new_digest(patch: &UserPatch) -> Told<'_>
    ensures { told_data result ≡ or_null digest_told patch.now.digest }
{
    match patch.digest {
        Some(digest) => Told::Digest(digest),
        None => Told::Null,
    }
}
