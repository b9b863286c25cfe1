// What holds of changes of the policy, from the types of what they hold.
ghost use Rattle.af_store.specs.ChangeLines.{IsChange, AreRows};
ghost use Rattle.af_store.specs.Names.{AreNames, IfThere, IsDigest, IsName};
ghost use Rattle.af_names.specs.Names.{account_name_grammar, id_grammar};

use crate::facts::{show_digest, show_name, show_names, show_rows};
use af_policy::{Change, DagAccess, User, UserPatch};

/// Names are names of their kinds, and digests have 32 bytes.
pub(crate) fn show_change(change: &Change)
    ensures { IsChange change.now }
{
    match change {
        Change::AddRole(input) | Change::SetRole(input) => show_name(&input.name),
        Change::DropRole(name) => show_name(name),
        Change::AddUser(user) => show_user(user),
        Change::SetUser(patch) => show_patch(patch),
        Change::DropUser(name) => show_name(name),
        Change::SyncDag(access) => show_access(access),
    }
}

fn show_user(user: &User)
    ensures named { IsName account_name_grammar user.now.name }
    ensures digest { IsDigest user.now.digest }
    ensures roles { AreNames account_name_grammar user.now.roles }
{
    show_name(user.name());
    show_digest(user.digest());
    show_names(user.roles());
}

fn show_patch(patch: &UserPatch)
    ensures named { IsName account_name_grammar patch.now.name }
    ensures digest { IfThere IsDigest patch.now.digest }
    ensures roles { IfThere (AreNames account_name_grammar) patch.now.roles }
{
    show_name(&patch.name);
    show_new_digest(patch);
    show_new_roles(patch);
}

fn show_new_digest(patch: &UserPatch)
    ensures { IfThere IsDigest patch.now.digest }
{
    if let Some(digest) = patch.digest {
        show_digest(digest);
    }
}

fn show_new_roles(patch: &UserPatch)
    ensures { IfThere (AreNames account_name_grammar) patch.now.roles }
{
    if let Some(roles) = &patch.roles {
        show_names(roles.as_slice());
    }
}

fn show_access(access: &DagAccess)
    ensures dag { IsName id_grammar access.now.dag }
    ensures rows { IfThere AreRows access.now.access }
{
    show_name(&access.dag);
    show_access_rows(access);
}

fn show_access_rows(access: &DagAccess)
    ensures { IfThere AreRows access.now.access }
{
    if let Some(rows) = &access.access {
        show_rows(rows.as_slice());
    }
}
