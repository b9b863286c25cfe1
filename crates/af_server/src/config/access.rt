// The access control of the DAGs of the configuration: which roles have which actions on each of them alone, and on its runs alone.
ghost use Rattle.std.specs.Prelude.{map};
ghost use Rattle.af_base.specs.JsonValue.{view};
ghost use Rattle.af_base.specs.Readings.{OrMemory, Makes, taking};
ghost use Rattle.af_server.specs.declared.reason.Reason.{Reason};
ghost use Rattle.af_policy.specs.Changes.{changed};
ghost use Rattle.af_server.specs.Accesses.{access_taken, changed_or, dag_access_in, sync_in};
ghost use Rattle.af_server.specs.Configurations.{synced_in};

use crate::members::{name, optional_list};
use crate::reason::Reason;
use af_base::{Json, member};
use af_ops::read_access;
use af_policy::{Change, DagAccess, Policy};
use af_role::AccessControl;
use std::alloc::Global;

/// The policy after the access control of each DAG that is listed is taken over, in their order.
pub fn sync_dags(alloc: Global, policy: Policy, config: &Json<'_>) -> Result<Policy, Reason>
    ensures { OrMemory Reason.Memory (synced_in (view config.now) policy) result }
{
    sync_rows(alloc, policy, optional_list(config, "dags")?)
}

/// The policy after the access control of each of these rows is taken over.
fn sync_rows(alloc: Global, policy: Policy, rows: &[Json<'_>]) -> Result<Policy, Reason>
    ensures { OrMemory Reason.Memory (taking access_taken policy (map view rows.now)) result }
{
    let mut policy = policy;
    for row in rows {
        sync_row(alloc, &mut policy, row)?;
    }
    Ok(policy)
}

fn sync_row(alloc: Global, policy: &mut Policy, row: &Json<'_>) -> Result<(), Reason>
    ensures { Makes Reason.Memory (access_taken policy.old (view row.now)) policy.new result }
{
    let sync = read_sync(alloc, row)?;
    make(alloc, policy, Change::SyncDag(sync))
}

/// Makes a change: the policy after it takes the place of the one before.
fn make(alloc: Global, policy: &mut Policy, change: Change) -> Result<(), Reason>
    ensures { Makes Reason.Memory (changed_or (changed policy.old change)) policy.new result }
{
    let changed = policy.changed(alloc, &change);
    drop(change);
    drop(std::mem::replace(policy, changed?));
    Ok(())
}

/// Reads what roles may do on the DAG of a row.
fn read_sync(alloc: Global, row: &Json<'_>) -> Result<DagAccess, Reason>
    ensures { OrMemory Reason.Memory (sync_in (view row.now)) result }
{
    let dag = name(alloc, row, "dag_id")?;
    match read_dag_access(alloc, row) {
        Ok(access) => Ok(DagAccess { dag, access }),
        Err(reason) => {
            drop(dag);
            Err(reason)
        }
    }
}

/// Reads the access control of a DAG, none where it is absent.
fn read_dag_access(alloc: Global, row: &Json<'_>) -> Result<Option<AccessControl>, Reason>
    ensures { OrMemory Reason.Memory (dag_access_in (view row.now)) result }
{
    let Some(value) = member(row, "access_control") else {
        return Ok(None);
    };
    let access = read_access(alloc, value, Reason::Shape, Reason::Name, Reason::Memory)?;
    Ok(Some(access))
}
