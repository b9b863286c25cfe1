// The lists of a configuration: roles and users make its policy, pools, variables and DAGs its state.
ghost use Rattle.std.specs.Prelude.{◌≡◌, codes, map};
ghost use Rattle.af_base.specs.JsonValue.{view};
ghost use Rattle.af_base.specs.Readings.{OrMemory, Makes, taking};
ghost use Rattle.af_server.specs.declared.reason.Reason.{Reason};
ghost use Rattle.af_server.specs.DagRows.{dag_taken};
ghost use Rattle.af_server.specs.PoolRows.{pool_taken};
ghost use Rattle.af_server.specs.VariableRows.{variable_taken};
ghost use Rattle.af_server.specs.Configurations.{draft_in, policy_in, role_taken, user_taken, with_admin, with_rows};

use super::dags::add_dag;
use super::draft::StateDraft;
use super::pools::add_pool;
use super::roles::read_role;
use super::users::read_user;
use super::variables::add_variables;
use crate::members::optional_list;
use crate::reason::Reason;
use af_base::Json;
use af_policy::{FinishFault, Policy, PolicyDraft};
use std::alloc::Global;

/// The policy of the roles and the users that are listed, beside the default roles.
pub fn read_policy(alloc: Global, config: &Json<'_>) -> Result<Policy, Reason>
    ensures { OrMemory Reason.Memory (policy_in (view config.now)) result }
{
    let mut draft = PolicyDraft::new(alloc)?;
    read_roles(alloc, &mut draft, config)?;
    read_users(alloc, &mut draft, config)?;
    finish(alloc, draft)
}

/// Adds the roles that are listed.
fn read_roles(alloc: Global, draft: &mut PolicyDraft, config: &Json<'_>) -> Result<(), Reason>
    ensures { Makes Reason.Memory (with_rows role_taken (codes "roles") (view config.now) draft.old) draft.new result }
{
    add_roles(alloc, draft, optional_list(config, "roles")?)
}

/// Adds the users that are listed.
fn read_users(alloc: Global, draft: &mut PolicyDraft, config: &Json<'_>) -> Result<(), Reason>
    ensures { Makes Reason.Memory (with_rows user_taken (codes "users") (view config.now) draft.old) draft.new result }
{
    add_users(alloc, draft, optional_list(config, "users")?)
}

/// The policy of a draft, which has to have an administrator.
fn finish(alloc: Global, draft: PolicyDraft) -> Result<Policy, Reason>
    ensures { OrMemory Reason.Memory (with_admin draft) result }
{
    match draft.finish(alloc) {
        Ok(policy) => Ok(policy),
        Err(FinishFault::NoAdmin) => Err(Reason::Admin),
        Err(FinishFault::OutOfMemory) => Err(Reason::Memory),
    }
}

/// Adds the roles of the rows.
fn add_roles(alloc: Global, draft: &mut PolicyDraft, rows: &[Json<'_>]) -> Result<(), Reason>
    ensures { Makes Reason.Memory (taking role_taken draft.old (map view rows.now)) draft.new result }
{
    for row in rows {
        add_role(alloc, draft, row)?;
    }
    Ok(())
}

fn add_role(alloc: Global, draft: &mut PolicyDraft, row: &Json<'_>) -> Result<(), Reason>
    ensures { Makes Reason.Memory (role_taken draft.old (view row.now)) draft.new result }
{
    let role = read_role(alloc, row)?;
    draft.add_role(role)?;
    Ok(())
}

/// Adds the users of the rows.
fn add_users(alloc: Global, draft: &mut PolicyDraft, rows: &[Json<'_>]) -> Result<(), Reason>
    ensures { Makes Reason.Memory (taking user_taken draft.old (map view rows.now)) draft.new result }
{
    for row in rows {
        add_user(alloc, draft, row)?;
    }
    Ok(())
}

fn add_user(alloc: Global, draft: &mut PolicyDraft, row: &Json<'_>) -> Result<(), Reason>
    ensures { Makes Reason.Memory (user_taken draft.old (view row.now)) draft.new result }
{
    let user = read_user(alloc, row)?;
    draft.add_user(alloc, user)?;
    Ok(())
}

/// The state of the pools, the variables and the DAGs that are listed, with the scripts of tasks.
pub fn read_state(alloc: Global, config: &Json<'_>) -> Result<StateDraft, Reason>
    ensures { OrMemory Reason.Memory (draft_in (view config.now)) result }
{
    let draft = StateDraft::new(alloc)?;
    let draft = read_pools(alloc, draft, config)?;
    let draft = read_variables(alloc, draft, config)?;
    read_dags(alloc, draft, config)
}

/// Adds the pools that are listed.
fn read_pools(alloc: Global, draft: StateDraft, config: &Json<'_>) -> Result<StateDraft, Reason>
    ensures { OrMemory Reason.Memory (with_rows pool_taken (codes "pools") (view config.now) draft) result }
{
    let mut draft = draft;
    let told = list_pools(alloc, &mut draft, config);
    draft.unless_refused(told)
}

/// Adds the pools that are listed, in place.
fn list_pools(alloc: Global, draft: &mut StateDraft, config: &Json<'_>) -> Result<(), Reason>
    ensures { Makes Reason.Memory (with_rows pool_taken (codes "pools") (view config.now) draft.old) draft.new result }
{
    add_pools(alloc, draft, optional_list(config, "pools")?)
}

/// Adds the variables that are listed.
fn read_variables(alloc: Global, draft: StateDraft, config: &Json<'_>) -> Result<StateDraft, Reason>
    ensures { OrMemory Reason.Memory (with_rows variable_taken (codes "variables") (view config.now) draft) result }
{
    match optional_list(config, "variables") {
        Ok(rows) => add_variables(alloc, draft, rows),
        Err(reason) => {
            drop(draft);
            Err(reason)
        }
    }
}

/// Adds the DAGs that are listed.
fn read_dags(alloc: Global, draft: StateDraft, config: &Json<'_>) -> Result<StateDraft, Reason>
    ensures { OrMemory Reason.Memory (with_rows dag_taken (codes "dags") (view config.now) draft) result }
{
    let mut draft = draft;
    let told = list_dags(alloc, &mut draft, config);
    draft.unless_refused(told)
}

/// Adds the DAGs that are listed, in place.
fn list_dags(alloc: Global, draft: &mut StateDraft, config: &Json<'_>) -> Result<(), Reason>
    ensures { Makes Reason.Memory (with_rows dag_taken (codes "dags") (view config.now) draft.old) draft.new result }
{
    add_dags(alloc, draft, optional_list(config, "dags")?)
}

/// Adds the pools of the rows.
fn add_pools(alloc: Global, draft: &mut StateDraft, rows: &[Json<'_>]) -> Result<(), Reason>
    ensures { Makes Reason.Memory (taking pool_taken draft.old (map view rows.now)) draft.new result }
{
    for row in rows {
        add_pool(alloc, draft, row)?;
    }
    Ok(())
}

/// Adds the DAGs of the rows.
fn add_dags(alloc: Global, draft: &mut StateDraft, rows: &[Json<'_>]) -> Result<(), Reason>
    ensures { Makes Reason.Memory (taking dag_taken draft.old (map view rows.now)) draft.new result }
{
    for row in rows {
        add_dag(alloc, draft, row)?;
    }
    Ok(())
}
