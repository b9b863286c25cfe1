ghost use Rattle.std.specs.Prelude.{◌≡◌, ◌⊎◌, true, Ok, Err, IfOk, IfErr, OnOk, OnErr, map};
ghost use Rattle.std.specs.Option.{is_some, option_copied};
ghost use Rattle.af_role.specs.Access.{has_role, is_admin_name, kept_pairs, synced, synced_role, unknown_role};

use crate::{AccessControl, Permissions, Role, SyncFault};
use af_names::{DagId, RoleName};
use std::alloc::{AllocError, Global};

/// Takes over a DAG's access control: takes the permissions on that DAG alone, and on its runs alone, from each role but Admin, and then
/// adds those that are listed. Where there is no access control the roles stay, and no memory is wanted. After a fault they are as before.
pub fn sync_access(
    alloc: Global,
    roles: &mut Vec<Role>,
    dag: &DagId,
    access: Option<&AccessControl>,
) -> Result<(), SyncFault>
    ensures ok { OnOk result (synced roles.old.items dag.now (option_copied access.entry) ≡ Ok roles.new.items) }
    ensures refused { IfErr (synced roles.old.items dag.now (option_copied access.entry)) (λ fault. (result ≡ Err fault) ⊎ (result ≡ Err SyncFault.OutOfMemory)) }
    ensures fault { IfErr result (λ fault. (synced roles.old.items dag.now (option_copied access.entry) ≡ Err fault) ⊎ (fault ≡ SyncFault.OutOfMemory)) }
    ensures memory { result ≡ Err SyncFault.OutOfMemory → is_some (option_copied access.entry) ≡ true }
    ensures err { OnErr result (roles.new ≡ roles.old) }
{
    let Some(access) = access else {
        return Ok(());
    };
    if let Some(text) = access.bad_action() {
        return Err(SyncFault::BadAction(text.copied(alloc)?));
    }
    if let Some(name) = unknown_role(roles.as_slice(), access) {
        return Err(SyncFault::UnknownRole(name.copied(alloc)?));
    }
    *roles = each_synced(alloc, roles.as_slice(), dag, access)?;
    Ok(())
}

/// The first role that is named and is not there.
fn unknown_role<'a>(roles: &[Role], access: &'a AccessControl) -> Option<&'a RoleName>
    ensures { option_copied result ≡ unknown_role roles.now access.now }
{
    match access
        .as_slice()
        .iter()
        .find(|row| !has_role(roles, &row.role))
    {
        Some(row) => Some(&row.role),
        None => None,
    }
}

/// Whether a role of that name is there.
fn has_role(roles: &[Role], name: &RoleName) -> bool
    ensures { result ≡ has_role roles.now name.now }
{
    roles.iter().any(|role| name == role.name())
}

/// Each role after the sync.
fn each_synced(
    alloc: Global,
    roles: &[Role],
    dag: &DagId,
    access: &AccessControl,
) -> Result<Vec<Role>, AllocError>
    ensures { IfOk result (λ made. made.items ≡ map (synced_role dag.now access.now) roles.now) }
{
    let mut made = Vec::with_capacity(alloc, roles.len())?;
    for role in roles {
        made.push(role.synced(alloc, dag, access)?)?;
    }
    Ok(made)
}

impl Role {
    /// The role after a sync of a DAG's access control. `AllocError` only where a growth was refused.
    pub fn synced(
        &self,
        alloc: Global,
        dag: &DagId,
        access: &AccessControl,
    ) -> Result<Role, AllocError>
        ensures { IfOk result (λ role. role ≡ synced_role dag.now access.now self.now) }
    {
        let mut permissions = self.kept(alloc, dag)?;
        access.add_listed(alloc, &mut permissions, dag, self.name())?;
        let name = self.name().copied(alloc)?;
        Ok(Role::new(name, permissions))
    }

    /// What the role keeps where a DAG's access control is taken over.
    fn kept(&self, alloc: Global, dag: &DagId) -> Result<Permissions, AllocError>
        ensures { IfOk result (λ permissions. permissions ≡ kept_pairs dag.now self.now) }
    {
        if self.is_admin() {
            self.permissions().copied(alloc)
        } else {
            self.permissions().without_dag(alloc, dag)
        }
    }

    /// Whether it is the role Admin.
    pub fn is_admin(&self) -> bool
        ensures { result ≡ is_admin_name self.now.name }
    {
        self.name().as_str() == "Admin"
    }
}
