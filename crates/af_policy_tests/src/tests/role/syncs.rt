use super::permissions::role_of;
use crate::tests::asserts::{has_memory, row_holds};
use crate::tests::steps::{Access, access};
use crate::tests::telling::Telling;
use af_names::DagId;
use af_role::{AccessControl, Role, SyncFault, sync_access};
use std::alloc::Global;
use std::process::Abort;

/// The roles before each sync.
const ROLES: &[(&str, &[(&str, &str)])] = &[
    (
        "Admin",
        &[
            ("can_edit", "DAGs"),
            ("can_read", "DAG:b"),
            ("can_edit", "DAG Run:b"),
        ],
    ),
    (
        "one",
        &[
            ("can_edit", "DAG:b"),
            ("can_read", "DAG:c"),
            ("can_create", "DAG Run:b"),
            ("can_read", "DAG Run:c"),
        ],
    ),
    ("two", &[]),
];

/// The access control of the DAG b, what a sync tells, and what the roles then list.
type Synced = (Option<Access>, &'static str, &'static str);

const SYNCS: &[Synced] = &[
    (
        None,
        "done",
        "Admin: DAGs.can_edit,DAG:b.can_read,DAG Run:b.can_edit, one: DAG:b.can_edit,DAG:c.can_read,DAG Run:b.can_create,DAG Run:c.can_read, two:  ",
    ),
    (
        Some(&[]),
        "done",
        "Admin: DAGs.can_edit,DAG:b.can_read,DAG Run:b.can_edit, one: DAG:c.can_read,DAG Run:c.can_read, two:  ",
    ),
    (
        Some(&[("two", &["can_edit", "can_read", "can_edit"], &[])]),
        "done",
        "Admin: DAGs.can_edit,DAG:b.can_read,DAG Run:b.can_edit, one: DAG:c.can_read,DAG Run:c.can_read, two: DAG:b.can_read,DAG:b.can_edit, ",
    ),
    (
        Some(&[("Admin", &["can_delete"], &["can_create"])]),
        "done",
        "Admin: DAGs.can_edit,DAG:b.can_read,DAG:b.can_delete,DAG Run:b.can_create,DAG Run:b.can_edit, one: DAG:c.can_read,DAG Run:c.can_read, two:  ",
    ),
    (
        Some(&[
            ("one", &["can_read"], &["can_edit"]),
            ("one", &["can_delete"], &["can_create", "can_edit"]),
        ]),
        "done",
        "Admin: DAGs.can_edit,DAG:b.can_read,DAG Run:b.can_edit, one: DAG:b.can_read,DAG:b.can_delete,DAG:c.can_read,DAG Run:b.can_create,DAG Run:b.can_edit,DAG Run:c.can_read, two:  ",
    ),
    (
        Some(&[("one", &[], &[]), ("two", &[], &["can_delete"])]),
        "done",
        "Admin: DAGs.can_edit,DAG:b.can_read,DAG Run:b.can_edit, one: DAG:c.can_read,DAG Run:c.can_read, two: DAG Run:b.can_delete, ",
    ),
    (
        Some(&[
            ("three", &["can_read"], &["can_create"]),
            ("one", &["can_read", "can_create"], &[]),
        ]),
        "no action can_create",
        "Admin: DAGs.can_edit,DAG:b.can_read,DAG Run:b.can_edit, one: DAG:b.can_edit,DAG:c.can_read,DAG Run:b.can_create,DAG Run:c.can_read, two:  ",
    ),
    (
        Some(&[("three", &["can_fly"], &["can_read", "fly"])]),
        "no action fly",
        "Admin: DAGs.can_edit,DAG:b.can_read,DAG Run:b.can_edit, one: DAG:b.can_edit,DAG:c.can_read,DAG Run:b.can_create,DAG Run:c.can_read, two:  ",
    ),
    (
        Some(&[
            ("one", &["can_read"], &[]),
            ("three", &[], &[]),
            ("four", &[], &[]),
        ]),
        "no role three",
        "Admin: DAGs.can_edit,DAG:b.can_read,DAG Run:b.can_edit, one: DAG:b.can_edit,DAG:c.can_read,DAG Run:b.can_create,DAG Run:c.can_read, two:  ",
    ),
];

/// The roles before each sync.
fn roles(rt: &impl Abort, alloc: Global) -> Vec<Role> {
    let mut roles = Vec::new(alloc);
    for (name, texts) in ROLES {
        roles
            .push(role_of(rt, alloc, name, texts))
            .expect(rt, "room for a role");
    }
    roles
}

/// A copy of the access control of these rows, or none.
fn copied(rt: &impl Abort, alloc: Global, rows: Option<Access>) -> Option<AccessControl> {
    match access(rt, alloc, rows) {
        Some(access) => {
            let copy = access.copied(alloc).expect(rt, "a copy of access control");
            drop(access);
            Some(copy)
        }
        None => None,
    }
}

/// Tells the roles, each with what it lists.
fn tell_roles(rt: &impl Abort, alloc: Global, telling: &mut Telling<'_>, roles: &[Role]) {
    for role in roles {
        telling.tell(role.name().as_str());
        telling.tell(": ");
        telling.tell_permissions(rt, alloc, role.permissions());
        telling.tell(" ");
    }
}

/// Tells what a sync tells.
fn tell_done(telling: &mut Telling<'_>, done: &Result<(), SyncFault>) {
    match done {
        Ok(()) => telling.tell("done"),
        Err(SyncFault::BadAction(text)) => {
            telling.tell("no action ");
            telling.tell(text.as_str());
        }
        Err(SyncFault::UnknownRole(name)) => {
            telling.tell("no role ");
            telling.tell(name.as_str());
        }
        Err(SyncFault::OutOfMemory) => telling.tell("no memory"),
    }
}

/// Whether the sync of a row tells this of the roles above, and they are shown so after it.
fn is_synced(rt: &impl Abort, alloc: Global, row: Synced) -> bool {
    let dag = DagId::parse(alloc, "b").expect(rt, "the id of a DAG");
    let access = copied(rt, alloc, row.0);
    let mut roles = roles(rt, alloc);
    let done = sync_access(alloc, &mut roles, &dag, access.as_ref());
    drop(dag);
    drop(access);
    let has_room = !matches!(&done, Err(SyncFault::OutOfMemory));
    has_memory(rt, has_room, "a sync");
    let mut told = Telling::of(row.1);
    tell_done(&mut told, &done);
    drop(done);
    let mut left = Telling::of(row.2);
    tell_roles(rt, alloc, &mut left, roles.as_slice());
    drop(roles);
    told.is_wanted() && left.is_wanted()
}

#[test]
fn access_control_is_taken_over(rt: HostRuntime) {
    for (number, row) in SYNCS.iter().enumerate() {
        row_holds(&rt, is_synced(&rt, rt.alloc(), *row), "syncs", number);
    }
}
