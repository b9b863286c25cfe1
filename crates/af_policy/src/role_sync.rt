//! A DAG's access control, taken over by the roles.
ghost use Rattle.std.specs.Prelude.{◌≡◌, ◌⊎◌, map, IfOk, OnOk};
ghost use Rattle.af_role.specs.Access.{synced_role};
ghost use Rattle.af_policy.specs.Rows.{with_role};
ghost use Rattle.af_policy.specs.SharedRows.{seen};

use crate::masked_role::MaskedRole;
use crate::role_rows::RoleByName;
use crate::shared::Table;
use af_names::DagId;
use af_role::AccessControl;
use std::alloc::{AllocError, Global};
use std::sync::Arc;

/// The roles after a DAG's access control is taken over.
pub(crate) fn synced(
    alloc: Global,
    roles: &Table<RoleByName>,
    dag: &DagId,
    access: &AccessControl,
) -> Result<Table<RoleByName>, AllocError>
    ensures { IfOk result (λ made. made ≡ map (synced_role dag.now access.now) roles.now) }
{
    let mut made = roles.copied()?;
    let rows = roles.rows(alloc)?;
    sync_each(alloc, &mut made, rows.as_slice(), dag, access)?;
    Ok(made)
}

/// Puts each role in its place as it is after the sync.
fn sync_each(
    alloc: Global,
    made: &mut Table<RoleByName>,
    rows: &[&RoleByName],
    dag: &DagId,
    access: &AccessControl,
) -> Result<(), AllocError>
    requires { made.old ≡ seen rows.now }
    ensures { OnOk result (made.new ≡ map (synced_role dag.now access.now) (seen rows.now)) }
{
    for row in rows {
        made.facts();
        sync_row(alloc, made, row.masked(), dag, access)?;
    }
    Ok(())
}

/// Puts a role in its place as it is after the sync, where the sync touches it.
fn sync_row(
    alloc: Global,
    made: &mut Table<RoleByName>,
    role: &MaskedRole,
    dag: &DagId,
    access: &AccessControl,
) -> Result<(), AllocError>
    ensures { OnOk result ((made.new ≡ with_role made.old (synced_role dag.now access.now role.now)) ⊎ ((made.new ≡ made.old) × (synced_role dag.now access.now role.now ≡ role.now))) }
{
    if role.is_touched(dag, access) {
        put_synced(alloc, made, role, dag, access)?;
    }
    Ok(())
}

/// Puts a role in its place as it is after the sync. It stays a call of its own: a sync looks at all roles, and the memory on the stack for a
/// role with its mask is cleared where it is declared.
#[inline(never)]
fn put_synced(
    alloc: Global,
    made: &mut Table<RoleByName>,
    role: &MaskedRole,
    dag: &DagId,
    access: &AccessControl,
) -> Result<(), AllocError>
    ensures { OnOk result (made.new ≡ with_role made.old (synced_role dag.now access.now role.now)) }
{
    let role = MaskedRole::of(alloc, role.role().synced(alloc, dag, access)?)?;
    let role = Arc::new(alloc, role)?;
    made.put(alloc, RoleByName::new(role))?;
    Ok(())
}
