ghost use Rattle.std.specs.Prelude.{◌≡◌, IfOk};
ghost use Rattle.af_policy.specs.Changes.{kind_of};

use crate::{ChangeKind, User};
use af_base::Items;
use af_names::{DagId, RoleName, UserName};
use af_role::{AccessControl, PairTexts};
use std::alloc::{AllocError, Global};

/// A role as it is to be: its name, and its permissions as they were given.
pub struct RoleInput {
    pub name: RoleName,
    pub actions: PairTexts,
}

impl Drop for RoleInput {
    fn drop(self) {
        let RoleInput {
            name: _,
            actions: _,
        } = self;
    }
}

/// Names of roles, in the order in which they were given.
pub type RoleNames = Items<RoleName>;

/// What is to be another of the user of a name; what is None stays.
pub struct UserPatch {
    pub name: UserName,
    /// The SHA-256 of the user's token.
    pub digest: Option<[u8; 32]>,
    pub roles: Option<RoleNames>,
}

impl Drop for UserPatch {
    fn drop(self) {
        let UserPatch {
            name: _,
            digest: _,
            roles: _,
        } = self;
    }
}

/// Which roles are to have which actions on a DAG. Without access control they stay as they are.
pub struct DagAccess {
    pub dag: DagId,
    pub access: Option<AccessControl>,
}

impl Drop for DagAccess {
    fn drop(self) {
        let DagAccess { dag: _, access: _ } = self;
    }
}

/// A change of a policy.
pub enum Change {
    /// A further role.
    AddRole(RoleInput),
    /// Other permissions of a role, in place of all that it has.
    SetRole(RoleInput),
    /// One role less.
    DropRole(RoleName),
    /// A further user.
    AddUser(User),
    /// Another digest or other roles of a user.
    SetUser(UserPatch),
    /// One user less.
    DropUser(UserName),
    /// The access control of a DAG, whether there is such a DAG or not.
    SyncDag(DagAccess),
}

impl Drop for Change {
    fn drop(self) {
        match self {
            Change::AddRole(_) => {}
            Change::SetRole(_) => {}
            Change::DropRole(_) => {}
            Change::AddUser(_) => {}
            Change::SetUser(_) => {}
            Change::DropUser(_) => {}
            Change::SyncDag(_) => {}
        }
    }
}

impl Change {
    /// Which kind of change it is.
    pub fn kind(&self) -> ChangeKind
        ensures { result ≡ kind_of self.now }
    {
        match self {
            Change::AddRole(_) => ChangeKind::AddRole,
            Change::SetRole(_) => ChangeKind::SetRole,
            Change::DropRole(_) => ChangeKind::DropRole,
            Change::AddUser(_) => ChangeKind::AddUser,
            Change::SetUser(_) => ChangeKind::SetUser,
            Change::DropUser(_) => ChangeKind::DropUser,
            Change::SyncDag(_) => ChangeKind::SyncDag,
        }
    }

    /// The same change again. `AllocError` only where a growth was refused.
    pub fn copy(&self, alloc: Global) -> Result<Change, AllocError>
        ensures { IfOk result (λ change. change ≡ self.now) }
    {
        match self {
            Change::AddRole(input) => Ok(Change::AddRole(input.copied(alloc)?)),
            Change::SetRole(input) => Ok(Change::SetRole(input.copied(alloc)?)),
            Change::DropRole(name) => Ok(Change::DropRole(name.copied(alloc)?)),
            Change::AddUser(user) => Ok(Change::AddUser(user.copied(alloc)?)),
            Change::SetUser(patch) => Ok(Change::SetUser(patch.copied(alloc)?)),
            Change::DropUser(name) => Ok(Change::DropUser(name.copied(alloc)?)),
            Change::SyncDag(access) => Ok(Change::SyncDag(access.copied(alloc)?)),
        }
    }
}

impl RoleInput {
    fn copied(&self, alloc: Global) -> Result<RoleInput, AllocError>
        ensures { IfOk result (λ input. input ≡ self.now) }
    {
        let name = self.name.copied(alloc)?;
        let actions = self.actions.copied(alloc)?;
        Ok(RoleInput { name, actions })
    }
}

impl UserPatch {
    fn copied(&self, alloc: Global) -> Result<UserPatch, AllocError>
        ensures { IfOk result (λ patch. patch ≡ self.now) }
    {
        let name = self.name.copied(alloc)?;
        let digest = self.digest;
        match &self.roles {
            Some(roles) => {
                let roles = roles.copied(alloc)?;
                Ok(UserPatch {
                    name,
                    digest,
                    roles: Some(roles),
                })
            }
            None => Ok(UserPatch {
                name,
                digest,
                roles: None,
            }),
        }
    }
}

impl DagAccess {
    fn copied(&self, alloc: Global) -> Result<DagAccess, AllocError>
        ensures { IfOk result (λ access. access ≡ self.now) }
    {
        let dag = self.dag.copied(alloc)?;
        match &self.access {
            Some(access) => {
                let access = access.copied(alloc)?;
                Ok(DagAccess {
                    dag,
                    access: Some(access),
                })
            }
            None => Ok(DagAccess { dag, access: None }),
        }
    }
}
