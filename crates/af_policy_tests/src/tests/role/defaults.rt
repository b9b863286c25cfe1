use crate::tests::asserts::{holds, row_holds};
use crate::tests::telling::Telling;
use af_role::{Role, default_roles};
use std::alloc::Global;
use std::process::Abort;

/// The default roles, each with all its permissions.
const ROLES: &[(&str, &str)] = &[
    ("Public", ""),
    (
        "Viewer",
        "DAGs.can_read,DAG Runs.can_read,Task Instances.can_read,",
    ),
    (
        "User",
        "DAGs.can_read,DAGs.can_edit,DAGs.can_delete,DAG Runs.can_create,DAG Runs.can_read,DAG Runs.can_edit,DAG Runs.can_delete,Task Instances.can_create,Task Instances.can_read,Task Instances.can_edit,Task Instances.can_delete,",
    ),
    (
        "Op",
        "DAGs.can_read,DAGs.can_edit,DAGs.can_delete,DAG Runs.can_create,DAG Runs.can_read,DAG Runs.can_edit,DAG Runs.can_delete,Task Instances.can_create,Task Instances.can_read,Task Instances.can_edit,Task Instances.can_delete,Pools.can_create,Pools.can_read,Pools.can_edit,Pools.can_delete,Variables.can_create,Variables.can_read,Variables.can_edit,Variables.can_delete,Audit Logs.can_read,",
    ),
    (
        "Admin",
        "DAGs.can_read,DAGs.can_edit,DAGs.can_delete,DAG Runs.can_create,DAG Runs.can_read,DAG Runs.can_edit,DAG Runs.can_delete,Task Instances.can_create,Task Instances.can_read,Task Instances.can_edit,Task Instances.can_delete,Pools.can_create,Pools.can_read,Pools.can_edit,Pools.can_delete,Variables.can_create,Variables.can_read,Variables.can_edit,Variables.can_delete,Audit Logs.can_read,Roles.can_create,Roles.can_read,Roles.can_edit,Roles.can_delete,Users.can_create,Users.can_read,Users.can_edit,Users.can_delete,",
    ),
];

/// Ends the test where one of these roles has another name, or other permissions.
fn are_roles(rt: &impl Abort, alloc: Global, roles: &[Role]) {
    for (number, (role, (name, permissions))) in roles.iter().zip(ROLES).enumerate() {
        let mut telling = Telling::of(permissions);
        telling.tell_permissions(rt, alloc, role.permissions());
        let is_role = telling.is_wanted() && role.name().as_str() == *name;
        row_holds(rt, is_role, "roles", number);
    }
}

#[test]
fn default_roles_list_their_permissions(rt: HostRuntime) {
    let roles = default_roles(rt.alloc()).expect(&rt, "the default roles");
    holds(&rt, roles.len() == 5, "five roles");
    are_roles(&rt, rt.alloc(), roles.as_slice());
}
