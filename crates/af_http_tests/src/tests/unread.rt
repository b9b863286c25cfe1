//! A change of the policy whose body was not read, since there was no memory for it.
use crate::tests::asserts::{has_memory, holds};
use af_names::{RoleName, UserName};
use af_ops::{PolicyOp, Served, Status};
use af_policy::{ChangeKind, Policy, PolicyDraft, User};
use af_world::{Versions, answer_policy};
use sha2::{Digest, Sha256};
use std::alloc::{AllocGlobal, Global};
use std::process::Abort;

/// Who there is: each user's name, which is the token, and the user's role.
const USERS: &[(&str, &str)] = &[("adam", "Admin"), ("uma", "User")];

fn add_user(rt: &impl Abort, alloc: Global, draft: &mut PolicyDraft, name: &str, role: &str) {
    let digest = Sha256::digest(name.as_bytes());
    let name = UserName::parse(alloc, name).expect(rt, "the name of a user");
    let role = RoleName::parse(alloc, role).expect(rt, "the name of a role");
    let mut roles = Vec::new(alloc);
    roles.push(role).expect(rt, "room for the name of a role");
    let user = User::new(name, digest, roles);
    draft.add_user(alloc, user).expect(rt, "a user is added");
}

/// The policy with these users.
fn policy(rt: &impl Abort, alloc: Global) -> Policy {
    let mut draft = PolicyDraft::new(alloc).expect(rt, "a draft of a policy");
    for (name, role) in USERS {
        add_user(rt, alloc, &mut draft, name, role);
    }
    draft.finish(alloc).expect(rt, "a policy")
}

/// Whether a user is served this status, or none where that is wanted. Where a status is wanted and there was no memory to tell it,
/// the test ends in words that say so.
fn is_status(rt: &impl Abort, served: &Served, who: &str, wanted: Option<Status>) -> bool {
    match served {
        Served::Shown(shown) => wanted == Some(shown.status),
        Served::NothingDone => {
            has_memory(rt, wanted.is_none(), who);
            true
        }
    }
}

/// Whether the change comes to this status where a user asks for it, or to none.
fn comes_to(
    rt: &impl Abort,
    alloc: Global,
    versions: &mut Versions,
    who: &str,
    status: Option<Status>,
) -> bool {
    let op = PolicyOp::Unread(ChangeKind::AddUser);
    let served = answer_policy(alloc, versions, Some(who.as_bytes()), &op);
    drop(op);
    let is_status = is_status(rt, &served, who, status);
    drop(served);
    is_status
}

/// Whether a new policy is served so.
fn is_served(rt: &(impl AllocGlobal + Abort), who: &str, status: Option<Status>) -> bool {
    let alloc = rt.alloc();
    let mut versions = Versions::open(alloc, policy(rt, alloc), 4);
    let comes = comes_to(rt, alloc, &mut versions, who, status);
    drop(versions);
    comes
}

/// Who asks, and the status, or none where only the body could tell it. Nobody has the token `eve`.
const ASKS: &[(&str, Option<Status>)] = &[
    ("eve", Some(Status::Unauthorized)),
    ("uma", Some(Status::Forbidden)),
    ("adam", None),
];

/// A refusal that applies whatever the body says is told, memory or not.
#[test]
fn a_change_without_its_body(rt: HostRuntime) {
    for (who, status) in ASKS {
        holds(&rt, is_served(&rt, who, *status), who);
    }
}
