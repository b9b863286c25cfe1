use crate::tests::asserts::holds;
use crate::tests::telling::Telling;
use af_names::RoleName;
use af_role::{Action, Actions, Pair, Permissions, Resource, Role};
use std::alloc::Global;
use std::process::Abort;

/// Texts of actions and resources.
const TEXTS: &[(&str, &str)] = &[
    ("can_create", "DAG Run:B"),
    ("can_read", "DAG:b"),
    ("can_read", "Users"),
    ("can_create", "DAG:b"),
    ("can_edit", "DAG:b"),
    ("can_read", "DAG:B"),
    ("can_read", "DAG:a b"),
    ("can_read", "DAG:"),
    ("can_fly", "Pools"),
    ("can_read", "dags"),
    ("can_read", "DAGs"),
    ("can_read", "DAG:b"),
];

/// The pair of two texts, where they are an action and a resource that carries it.
fn pair_of(rt: &impl Abort, alloc: Global, action: &str, resource: &str) -> Option<Pair> {
    let action = Action::read(action)?;
    match Resource::read(alloc, resource).expect(rt, "a resource") {
        Some(resource) => Pair::new(action, resource),
        None => None,
    }
}

/// The pairs of these texts, each that is one.
fn permissions_of(rt: &impl Abort, alloc: Global, texts: &[(&str, &str)]) -> Permissions {
    let mut permissions = Permissions::new(alloc);
    for (action, resource) in texts {
        if let Some(pair) = pair_of(rt, alloc, action, resource) {
            permissions.add(pair).expect(rt, "room for a permission");
        }
    }
    permissions
}

/// The role of this name and these permissions, each of which is one.
pub fn role_of(rt: &impl Abort, alloc: Global, name: &str, texts: &[(&str, &str)]) -> Role {
    let name = RoleName::parse(alloc, name).expect(rt, "the name of a role");
    let permissions = permissions_of(rt, alloc, texts);
    holds(rt, permissions.len() == texts.len(), "no such permission");
    Role::new(name, permissions)
}

const LISTED: &str =
    "DAGs.can_read,Users.can_read,DAG:B.can_read,DAG:b.can_read,DAG:b.can_edit,DAG Run:B.can_create,";

#[test]
fn permissions_stand_in_order_and_once(rt: HostRuntime) {
    let permissions = permissions_of(&rt, rt.alloc(), TEXTS);
    let mut telling = Telling::of(LISTED);
    telling.tell_permissions(&rt, rt.alloc(), &permissions);
    let count = permissions.len();
    drop(permissions);
    holds(&rt, count == 6, "six pairs");
    holds(&rt, telling.is_wanted(), "in order");
}

/// An action, and whether it is in the set.
const IN_SET: &[(Action, bool)] = &[
    (Action::Create, false),
    (Action::Read, true),
    (Action::Edit, false),
    (Action::Delete, true),
];

#[test]
fn sets_of_actions_keep_what_is_put_in(rt: HostRuntime) {
    let set = Actions::none().with(Action::Read).with(Action::Delete);
    for (action, among) in IN_SET {
        holds(&rt, set.has(*action) == *among, "each action");
    }
}
