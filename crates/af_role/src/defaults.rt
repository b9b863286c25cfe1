ghost use Rattle.std.specs.Prelude.{◌≡◌, [], IfOk, OnOk, codes, map};
ghost use Rattle.af_role.specs.Pairs.{on_kind, with_pairs};
ghost use Rattle.af_role.specs.DefaultRoles.{admin_pairs, default_rows, op_pairs, user_pairs, viewer_pairs};

use crate::{Action, Pair, Permissions, ResourceKind, Role};
use af_names::RoleName;
use std::alloc::{AllocError, Global};

/// An action on a whole kind.
type Grant = (Action, ResourceKind);

const VIEWER_ADDS: [Grant; 3] = [
    (Action::Read, ResourceKind::Dags),
    (Action::Read, ResourceKind::DagRuns),
    (Action::Read, ResourceKind::TaskInstances),
];

const USER_ADDS: [Grant; 8] = [
    (Action::Edit, ResourceKind::Dags),
    (Action::Delete, ResourceKind::Dags),
    (Action::Create, ResourceKind::DagRuns),
    (Action::Edit, ResourceKind::DagRuns),
    (Action::Delete, ResourceKind::DagRuns),
    (Action::Create, ResourceKind::TaskInstances),
    (Action::Edit, ResourceKind::TaskInstances),
    (Action::Delete, ResourceKind::TaskInstances),
];

const OP_ADDS: [Grant; 9] = [
    (Action::Create, ResourceKind::Pools),
    (Action::Read, ResourceKind::Pools),
    (Action::Edit, ResourceKind::Pools),
    (Action::Delete, ResourceKind::Pools),
    (Action::Create, ResourceKind::Variables),
    (Action::Read, ResourceKind::Variables),
    (Action::Edit, ResourceKind::Variables),
    (Action::Delete, ResourceKind::Variables),
    (Action::Read, ResourceKind::AuditLogs),
];

const ADMIN_ADDS: [Grant; 8] = [
    (Action::Create, ResourceKind::Roles),
    (Action::Read, ResourceKind::Roles),
    (Action::Edit, ResourceKind::Roles),
    (Action::Delete, ResourceKind::Roles),
    (Action::Create, ResourceKind::Users),
    (Action::Read, ResourceKind::Users),
    (Action::Edit, ResourceKind::Users),
    (Action::Delete, ResourceKind::Users),
];

/// The five default roles: Public, Viewer, User, Op, Admin, each with the permissions of the one before and its own.
/// `AllocError` only where a growth was refused.
pub fn default_roles(alloc: Global) -> Result<Vec<Role>, AllocError>
    ensures { IfOk result (λ roles. roles.items ≡ default_rows) }
{
    let roles = vec![in alloc;
        public(alloc)?,
        viewer(alloc)?,
        user(alloc)?,
        op(alloc)?,
        admin(alloc)?,
    ]?;
    Ok(roles)
}

/// The role Public.
fn public(alloc: Global) -> Result<Role, AllocError>
    ensures { IfOk result (λ role. role ≡ record { name = codes "Public"; pairs = [] }) }
{
    role(alloc, "Public", Permissions::new(alloc))
}

/// The role Viewer.
fn viewer(alloc: Global) -> Result<Role, AllocError>
    ensures { IfOk result (λ role. role ≡ record { name = codes "Viewer"; pairs = viewer_pairs }) }
{
    role(alloc, "Viewer", viewer_permissions(alloc)?)
}

/// The role User.
fn user(alloc: Global) -> Result<Role, AllocError>
    ensures { IfOk result (λ role. role ≡ record { name = codes "User"; pairs = user_pairs }) }
{
    role(alloc, "User", user_permissions(alloc)?)
}

/// The role Op.
fn op(alloc: Global) -> Result<Role, AllocError>
    ensures { IfOk result (λ role. role ≡ record { name = codes "Op"; pairs = op_pairs }) }
{
    role(alloc, "Op", op_permissions(alloc)?)
}

/// The role Admin.
fn admin(alloc: Global) -> Result<Role, AllocError>
    ensures { IfOk result (λ role. role ≡ record { name = codes "Admin"; pairs = admin_pairs }) }
{
    role(alloc, "Admin", admin_permissions(alloc)?)
}

/// The role of a name that is known to be one.
fn role(alloc: Global, name: &str, permissions: Permissions) -> Result<Role, AllocError>
    ensures { IfOk result (λ role. role ≡ record { name = name.now; pairs = permissions }) }
{
    match RoleName::parse(alloc, name) {
        Ok(name) => Ok(Role::new(name, permissions)),
        Err(_) => Err(AllocError),
    }
}

#[tactic(auto, unfolding(crate::specs::DefaultRoles::viewer_pairs))]
fn viewer_permissions(alloc: Global) -> Result<Permissions, AllocError>
    ensures { IfOk result (λ permissions. permissions ≡ viewer_pairs) }
{
    let mut permissions = Permissions::new(alloc);
    add_each(&mut permissions, &VIEWER_ADDS)?;
    Ok(permissions)
}

#[tactic(auto, unfolding(crate::specs::DefaultRoles::user_pairs))]
fn user_permissions(alloc: Global) -> Result<Permissions, AllocError>
    ensures { IfOk result (λ permissions. permissions ≡ user_pairs) }
{
    let mut permissions = viewer_permissions(alloc)?;
    add_each(&mut permissions, &USER_ADDS)?;
    Ok(permissions)
}

#[tactic(auto, unfolding(crate::specs::DefaultRoles::op_pairs))]
fn op_permissions(alloc: Global) -> Result<Permissions, AllocError>
    ensures { IfOk result (λ permissions. permissions ≡ op_pairs) }
{
    let mut permissions = user_permissions(alloc)?;
    add_each(&mut permissions, &OP_ADDS)?;
    Ok(permissions)
}

#[tactic(auto, unfolding(crate::specs::DefaultRoles::admin_pairs))]
fn admin_permissions(alloc: Global) -> Result<Permissions, AllocError>
    ensures { IfOk result (λ permissions. permissions ≡ admin_pairs) }
{
    let mut permissions = op_permissions(alloc)?;
    add_each(&mut permissions, &ADMIN_ADDS)?;
    Ok(permissions)
}

fn add_each(permissions: &mut Permissions, grants: &[Grant]) -> Result<(), AllocError>
    ensures { OnOk result (permissions.new ≡ with_pairs permissions.old (map (λ grant. on_kind grant.0 grant.1) grants.now)) }
{
    for grant in grants {
        permissions.add(Pair::on_kind(grant.0, grant.1))?;
    }
    Ok(())
}
