//! Policies that a generator puts together, each beside its plain rows.
use crate::tests::numbers::Numbers;
use crate::tests::plain::{Had, Listed, On, Plain};
use af_names::{DagId, RoleName, UserName};
use af_policy::{Change, DagAccess, Policy, PolicyDraft, User};
use af_role::{
    AccessControl, AccessRow, Action, DagPart, Pair, Permissions, Resource, ResourceKind, Role,
    Text, Texts,
};
use std::alloc::Global;
use std::process::Abort;

/// The roles, out of the order of their names.
pub const ROLES: [&str; 5] = ["red", "green", "blue", "grey", "black"];

/// The users who are asked about, of whom the last is not there.
pub const USERS: [&str; 5] = ["cyd", "ada", "dan", "bob", "eve"];

/// The DAGs, out of the order of their ids.
pub const DAGS: [&str; 6] = ["d", "b", "e", "a", "f", "c"];

/// What a single DAG carries.
const ON_A_DAG: [Action; 3] = [Action::Read, Action::Edit, Action::Delete];

/// The id of the DAG of a number.
pub fn dag_of(rt: &impl Abort, alloc: Global, dag: usize) -> DagId {
    let id = DAGS.get(dag).expect(rt, "a DAG");
    DagId::parse(alloc, id).expect(rt, "the id of a DAG")
}

/// The name of the user of a number.
pub fn user_of(rt: &impl Abort, alloc: Global, user: usize) -> UserName {
    let name = USERS.get(user).expect(rt, "a user");
    UserName::parse(alloc, name).expect(rt, "the name of a user")
}

fn role_of(rt: &impl Abort, alloc: Global, role: usize) -> RoleName {
    let name = ROLES.get(role).expect(rt, "a role");
    RoleName::parse(alloc, name).expect(rt, "the name of a role")
}

/// The next action.
pub fn action(numbers: &mut Numbers) -> Action {
    Action::ALL[numbers.below(4)]
}

/// The next kind, `DAGs` or `DAG Runs` in most cases.
pub fn kind(numbers: &mut Numbers) -> ResourceKind {
    match numbers.below(3) {
        0 => ResourceKind::Dags,
        1 => ResourceKind::DagRuns,
        _ => ResourceKind::ALL[numbers.below(8)],
    }
}

/// The next part of a DAG.
pub fn part(numbers: &mut Numbers) -> DagPart {
    if numbers.is_even() {
        return DagPart::Itself;
    }
    DagPart::Runs
}

fn on(numbers: &mut Numbers) -> On {
    if numbers.below(4) == 0 {
        return On::Kind(kind(numbers));
    }
    On::Dag(part(numbers), numbers.below(6))
}

fn resource_of(rt: &impl Abort, alloc: Global, on: On) -> Resource {
    match on {
        On::Kind(kind) => Resource::Kind(kind),
        On::Dag(part, dag) => Resource::Dag(part, dag_of(rt, alloc, dag)),
    }
}

/// Gives a role the next permission, if there is one of its action and its resource.
fn give(
    rt: &impl Abort,
    alloc: Global,
    numbers: &mut Numbers,
    plain: &mut Plain,
    role: usize,
    permissions: &mut Permissions,
) {
    let action = action(numbers);
    let on = on(numbers);
    if let Some(pair) = Pair::new(action, resource_of(rt, alloc, on)) {
        permissions.add(pair).expect(rt, "room for a permission");
        plain.list(rt, Listed { role, action, on });
    }
}

/// The role of a number, with the next permissions.
fn role(
    rt: &impl Abort,
    alloc: Global,
    numbers: &mut Numbers,
    plain: &mut Plain,
    role: usize,
) -> Role {
    let mut permissions = Permissions::new(alloc);
    for _ in 0..numbers.below(7) {
        give(rt, alloc, numbers, plain, role, &mut permissions);
    }
    Role::new(role_of(rt, alloc, role), permissions)
}

/// The user of a number, with the next roles.
fn user(
    rt: &impl Abort,
    alloc: Global,
    numbers: &mut Numbers,
    plain: &mut Plain,
    user: usize,
) -> User {
    let mut roles = Vec::new(alloc);
    for role in 0..ROLES.len() {
        if numbers.is_even() {
            roles
                .push(role_of(rt, alloc, role))
                .expect(rt, "room for a role");
            plain.have(rt, Had { user, role });
        }
    }
    User::new(user_of(rt, alloc, user), [user.to_le_bytes()[0]; 32], roles)
}

/// The one Admin, who is not asked about.
fn admin(rt: &impl Abort, alloc: Global) -> User {
    let name = UserName::parse(alloc, "root").expect(rt, "the name of a user");
    let role = RoleName::parse(alloc, "Admin").expect(rt, "the name of a role");
    let mut roles = Vec::new(alloc);
    roles.push(role).expect(rt, "room for a role");
    User::new(name, [255; 32], roles)
}

/// The next policy.
fn opened(rt: &impl Abort, alloc: Global, numbers: &mut Numbers, plain: &mut Plain) -> Policy {
    let mut draft = PolicyDraft::new(alloc).expect(rt, "room for a policy");
    for number in 0..ROLES.len() {
        let role = role(rt, alloc, numbers, plain, number);
        draft.add_role(role).expect(rt, "a further role");
    }
    for number in 0..USERS.len() - 1 {
        let user = user(rt, alloc, numbers, plain, number);
        draft.add_user(alloc, user).expect(rt, "a further user");
    }
    let admin = admin(rt, alloc);
    draft.add_user(alloc, admin).expect(rt, "an Admin");
    draft.finish(alloc).expect(rt, "a policy")
}

/// The next of these actions, which the role of a number is to have on a DAG or on its runs.
fn listed(
    rt: &impl Abort,
    alloc: Global,
    numbers: &mut Numbers,
    plain: &mut Plain,
    role: usize,
    on: On,
    actions: &[Action],
) -> Texts {
    let mut texts = Vec::new(alloc);
    for action in actions {
        if numbers.is_even() {
            let text = String::from_str(alloc, action.text()).expect(rt, "a text");
            texts.push(Text::new(text)).expect(rt, "room for an action");
            let action = *action;
            plain.list(rt, Listed { role, action, on });
        }
    }
    Texts::of(texts)
}

/// What the role of a number is to have on a DAG and on its runs: the next actions.
fn access_row(
    rt: &impl Abort,
    alloc: Global,
    numbers: &mut Numbers,
    plain: &mut Plain,
    role: usize,
    dag: usize,
) -> AccessRow {
    let itself = On::Dag(DagPart::Itself, dag);
    let runs = On::Dag(DagPart::Runs, dag);
    AccessRow {
        role: role_of(rt, alloc, role),
        actions: listed(rt, alloc, numbers, plain, role, itself, &ON_A_DAG),
        runs: listed(rt, alloc, numbers, plain, role, runs, &Action::ALL),
    }
}

/// The next access control of a DAG.
fn access(
    rt: &impl Abort,
    alloc: Global,
    numbers: &mut Numbers,
    plain: &mut Plain,
    dag: usize,
) -> AccessControl {
    let mut rows = Vec::new(alloc);
    for role in 0..ROLES.len() {
        if numbers.is_even() {
            let row = access_row(rt, alloc, numbers, plain, role, dag);
            rows.push(row).expect(rt, "room for a role's actions");
        }
    }
    AccessControl::new(rows)
}

/// The policy after the access control of the next DAG is taken over.
fn synced(
    rt: &impl Abort,
    alloc: Global,
    numbers: &mut Numbers,
    plain: &mut Plain,
    policy: &Policy,
) -> Policy {
    let dag = numbers.below(6);
    plain.take_dag(dag);
    let access = access(rt, alloc, numbers, plain, dag);
    let change = Change::SyncDag(DagAccess {
        dag: dag_of(rt, alloc, dag),
        access: Some(access),
    });
    policy.changed(alloc, &change).ok().expect(rt, "a sync")
}

/// The next policy after up to three syncs, and its plain rows.
pub fn made(rt: &impl Abort, alloc: Global, numbers: &mut Numbers) -> (Policy, Plain) {
    let mut plain = Plain::new(alloc);
    let mut policy = opened(rt, alloc, numbers, &mut plain);
    for _ in 0..numbers.below(4) {
        policy = synced(rt, alloc, numbers, &mut plain, &policy);
    }
    (policy, plain)
}
