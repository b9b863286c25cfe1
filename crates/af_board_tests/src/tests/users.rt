//! The policy that each board opens with: three roles and the eight users of the sample configuration.
use af_names::{DagId, Name, NameKind, RoleName, UserName};
use af_policy::{Policy, PolicyDraft, User};
use af_role::{Action, DagPart, Pair, Permissions, Resource, ResourceKind, Role};
use std::alloc::Global;
use std::process::Abort;

/// The SHA-256 of `admin`.
const OF_ADAM: [u8; 32] = [
    0x8c, 0x69, 0x76, 0xe5, 0xb5, 0x41, 0x04, 0x15, 0xbd, 0xe9, 0x08, 0xbd, 0x4d, 0xee, 0x15, 0xdf,
    0xb1, 0x67, 0xa9, 0xc8, 0x73, 0xfc, 0x4b, 0xb8, 0xa8, 0x1f, 0x6f, 0x2a, 0xb4, 0x48, 0xa9, 0x18,
];

/// The SHA-256 of `password`.
const OF_ZOE: [u8; 32] = [
    0x5e, 0x88, 0x48, 0x98, 0xda, 0x28, 0x04, 0x71, 0x51, 0xd0, 0xe5, 0x6f, 0x8d, 0xc6, 0x29, 0x27,
    0x73, 0x60, 0x3d, 0x0d, 0x6a, 0xab, 0xbd, 0xd6, 0x2a, 0x11, 0xef, 0x72, 0x1d, 0x15, 0x42, 0xd8,
];

/// The SHA-256 of `test`.
const OF_VERA: [u8; 32] = [
    0x9f, 0x86, 0xd0, 0x81, 0x88, 0x4c, 0x7d, 0x65, 0x9a, 0x2f, 0xea, 0xa0, 0xc5, 0x5a, 0xd0, 0x15,
    0xa3, 0xbf, 0x4f, 0x1b, 0x2b, 0x0b, 0x82, 0x2c, 0xd1, 0x5d, 0x6c, 0x15, 0xb0, 0xf0, 0x0a, 0x08,
];

/// The SHA-256 of `foo`.
const OF_BOB: [u8; 32] = [
    0x2c, 0x26, 0xb4, 0x6b, 0x68, 0xff, 0xc6, 0x8f, 0xf9, 0x9b, 0x45, 0x3c, 0x1d, 0x30, 0x41, 0x34,
    0x13, 0x42, 0x2d, 0x70, 0x64, 0x83, 0xbf, 0xa0, 0xf9, 0x8a, 0x5e, 0x88, 0x62, 0x66, 0xe7, 0xae,
];

/// The SHA-256 of `bar`.
const OF_PAT: [u8; 32] = [
    0xfc, 0xde, 0x2b, 0x2e, 0xdb, 0xa5, 0x6b, 0xf4, 0x08, 0x60, 0x1f, 0xb7, 0x21, 0xfe, 0x9b, 0x5c,
    0x33, 0x8d, 0x10, 0xee, 0x42, 0x9e, 0xa0, 0x4f, 0xae, 0x55, 0x11, 0xb6, 0x8f, 0xbf, 0x8f, 0xb9,
];

/// The SHA-256 of `hello`.
const OF_EDNA: [u8; 32] = [
    0x2c, 0xf2, 0x4d, 0xba, 0x5f, 0xb0, 0xa3, 0x0e, 0x26, 0xe8, 0x3b, 0x2a, 0xc5, 0xb9, 0xe2, 0x9e,
    0x1b, 0x16, 0x1e, 0x5c, 0x1f, 0xa7, 0x42, 0x5e, 0x73, 0x04, 0x33, 0x62, 0x93, 0x8b, 0x98, 0x24,
];

/// The SHA-256 of `abc`.
const OF_UMA: [u8; 32] = [
    0xba, 0x78, 0x16, 0xbf, 0x8f, 0x01, 0xcf, 0xea, 0x41, 0x41, 0x40, 0xde, 0x5d, 0xae, 0x22, 0x23,
    0xb0, 0x03, 0x61, 0xa3, 0x96, 0x17, 0x7a, 0x9c, 0xb4, 0x10, 0xff, 0x61, 0xf2, 0x00, 0x15, 0xad,
];

/// The SHA-256 of `secret`.
const OF_RON: [u8; 32] = [
    0x2b, 0xb8, 0x0d, 0x53, 0x7b, 0x1d, 0xa3, 0xe3, 0x8b, 0xd3, 0x03, 0x61, 0xaa, 0x85, 0x56, 0x86,
    0xbd, 0xe0, 0xea, 0xcd, 0x71, 0x62, 0xfe, 0xf6, 0xa2, 0x5f, 0xe9, 0x7b, 0xf5, 0x27, 0xa2, 0x5b,
];

/// Each user's name, digest of the token, and roles.
const USERS: &[(&str, [u8; 32], &[&str])] = &[
    ("adam", OF_ADAM, &["Admin"]),
    ("zoe", OF_ZOE, &["Admin"]),
    ("vera", OF_VERA, &["Viewer"]),
    ("bob", OF_BOB, &["OnlyB"]),
    ("pat", OF_PAT, &["Public"]),
    ("edna", OF_EDNA, &["Viewer", "EditB"]),
    ("uma", OF_UMA, &["User"]),
    ("ron", OF_RON, &["RunsB"]),
];

/// Each role's name, the action that it has on the DAG b, and whether it reads all runs.
const ROLES: &[(&str, Action, bool)] = &[
    ("OnlyB", Action::Read, false),
    ("EditB", Action::Edit, false),
    ("RunsB", Action::Read, true),
];

/// Names of a kind.
pub fn names<K: NameKind>(rt: &impl Abort, alloc: Global, texts: &[&str]) -> Vec<Name<K>> {
    let mut names = Vec::new(alloc);
    for text in texts {
        let name = Name::parse(alloc, text).expect(rt, "a name");
        names.push(name).expect(rt, "room for a name");
    }
    names
}

/// The permission to do this to the DAG b.
fn on_b(rt: &impl Abort, alloc: Global, action: Action) -> Pair {
    let b = DagId::parse(alloc, "b").expect(rt, "the id of a DAG");
    Pair::new(action, Resource::Dag(DagPart::Itself, b)).expect(rt, "a permission")
}

/// The permissions of a role.
fn permissions(rt: &impl Abort, alloc: Global, action: Action, reads_runs: bool) -> Permissions {
    let mut permissions = Permissions::new(alloc);
    permissions
        .add(on_b(rt, alloc, action))
        .expect(rt, "room for a permission");
    if reads_runs {
        let runs = Pair::new(Action::Read, Resource::Kind(ResourceKind::DagRuns)).expect(
            rt,
            "a permission",
        );
        permissions.add(runs).expect(rt, "room for a permission");
    }
    permissions
}

fn add_roles(rt: &impl Abort, alloc: Global, draft: &mut PolicyDraft) {
    for (name, action, reads_runs) in ROLES {
        let name = RoleName::parse(alloc, name).expect(rt, "the name of a role");
        let role = Role::new(name, permissions(rt, alloc, *action, *reads_runs));
        draft.add_role(role).expect(rt, "a role is added");
    }
}

fn add_users(rt: &impl Abort, alloc: Global, draft: &mut PolicyDraft) {
    for (name, digest, roles) in USERS {
        let name = UserName::parse(alloc, name).expect(rt, "the name of a user");
        let user = User::new(name, *digest, names(rt, alloc, roles));
        draft.add_user(alloc, user).expect(rt, "a user is added");
    }
}

/// The policy of the sample configuration.
pub fn policy(rt: &impl Abort, alloc: Global) -> Policy {
    let mut draft = PolicyDraft::new(alloc).expect(rt, "a draft of a policy");
    add_roles(rt, alloc, &mut draft);
    add_users(rt, alloc, &mut draft);
    draft.finish(alloc).expect(rt, "a policy")
}
