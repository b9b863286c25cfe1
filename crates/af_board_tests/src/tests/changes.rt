//! The changes that users ask for.
use af_names::{DagId, RoleName, UserName};
use af_policy::{Ask, Change, DagAccess, RoleInput};
use af_role::PairTexts;
use std::alloc::Global;
use std::process::Abort;

/// A change.
#[derive(Clone, Copy)]
pub enum Step {
    /// A further role, without permissions.
    AddRole(&'static str),
    DropUser(&'static str),
    /// The DAG b without access control.
    Unlisted,
}

/// A role without permissions.
pub fn empty_role(rt: &impl Abort, alloc: Global, name: &str) -> RoleInput {
    RoleInput {
        name: RoleName::parse(alloc, name).expect(rt, "the name of a role"),
        actions: PairTexts::of(Vec::new(alloc)),
    }
}

/// The DAG b, without access control.
fn unlisted(rt: &impl Abort, alloc: Global) -> Change {
    let dag = DagId::parse(alloc, "b").expect(rt, "the id of a DAG");
    Change::SyncDag(DagAccess { dag, access: None })
}

/// What a step asks for.
pub fn ask_of(rt: &impl Abort, alloc: Global, step: Step) -> Ask {
    let change = match step {
        Step::AddRole(name) => Change::AddRole(empty_role(rt, alloc, name)),
        Step::DropUser(name) => {
            Change::DropUser(UserName::parse(alloc, name).expect(rt, "the name of a user"))
        }
        Step::Unlisted => unlisted(rt, alloc),
    };
    Ask::Made(change)
}
