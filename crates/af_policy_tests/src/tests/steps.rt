//! Permissions, access control and names of roles, as rows give them.
use af_names::RoleName;
use af_role::{AccessControl, AccessRow, PairText, PairTexts, Text, Texts};
use std::alloc::Global;
use std::process::Abort;

/// Permissions, as texts of actions and resources.
pub type Pairs = &'static [(&'static str, &'static str)];

/// Access control: roles, their actions on the DAG and those on its runs.
pub type Access = &'static [(
    &'static str,
    &'static [&'static str],
    &'static [&'static str],
)];

/// Names of roles.
pub type Roles = &'static [&'static str];

/// The text of these letters.
fn text(rt: &impl Abort, alloc: Global, text: &str) -> Text {
    Text::new(String::from_str(alloc, text).expect(rt, "a text"))
}

/// Texts of actions and resources.
pub fn pair_texts(rt: &impl Abort, alloc: Global, pairs: &[(&str, &str)]) -> PairTexts {
    let mut items = Vec::new(alloc);
    for (action, resource) in pairs {
        let action = text(rt, alloc, action);
        let resource = text(rt, alloc, resource);
        items
            .push(PairText { action, resource })
            .expect(rt, "room for a permission");
    }
    PairTexts::of(items)
}

/// The name of a role.
fn role_name(rt: &impl Abort, alloc: Global, name: &str) -> RoleName {
    RoleName::parse(alloc, name).expect(rt, "the name of a role")
}

/// The access control of these rows, or none.
pub fn access(rt: &impl Abort, alloc: Global, rows: Option<Access>) -> Option<AccessControl> {
    match rows {
        Some(rows) => Some(AccessControl::new(access_rows(rt, alloc, rows))),
        None => None,
    }
}

/// Roles and their actions on the DAG and on its runs.
fn access_rows(rt: &impl Abort, alloc: Global, rows: Access) -> Vec<AccessRow> {
    let mut access = Vec::new(alloc);
    for (role, actions, runs) in rows {
        let row = AccessRow {
            role: role_name(rt, alloc, role),
            actions: texts(rt, alloc, actions),
            runs: texts(rt, alloc, runs),
        };
        access.push(row).expect(rt, "room for a role's actions");
    }
    access
}

/// These texts, in their order.
fn texts(rt: &impl Abort, alloc: Global, items: &[&str]) -> Texts {
    let mut texts = Vec::new(alloc);
    for item in items {
        texts
            .push(text(rt, alloc, item))
            .expect(rt, "room for a text");
    }
    Texts::of(texts)
}
