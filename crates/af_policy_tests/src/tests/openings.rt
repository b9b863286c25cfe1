//! A policy as it opens, put together row by row.
use crate::tests::asserts::{has_memory, row_holds};
use crate::tests::role::permissions::role_of;
use crate::tests::steps::{Pairs, Roles};
use af_names::{Name, NameKind, UserName};
use af_policy::{FinishFault, Policy, PolicyDraft, RowFault, User};
use std::alloc::Global;
use std::process::Abort;

pub const ADAMS: &str = "admin";

pub const VERAS: &str = "test";

pub const BOBS: &str = "foo";

pub const PATS: &str = "bar";

pub const EDNAS: &str = "hello";

/// The SHA-256 of `admin`.
const OF_ADAM: [u8; 32] = [
    0x8c, 0x69, 0x76, 0xe5, 0xb5, 0x41, 0x04, 0x15, 0xbd, 0xe9, 0x08, 0xbd, 0x4d, 0xee, 0x15, 0xdf,
    0xb1, 0x67, 0xa9, 0xc8, 0x73, 0xfc, 0x4b, 0xb8, 0xa8, 0x1f, 0x6f, 0x2a, 0xb4, 0x48, 0xa9, 0x18,
];

/// The SHA-256 of `test`.
const OF_VERA: [u8; 32] = [
    0x9f, 0x86, 0xd0, 0x81, 0x88, 0x4c, 0x7d, 0x65, 0x9a, 0x2f, 0xea, 0xa0, 0xc5, 0x5a, 0xd0, 0x15,
    0xa3, 0xbf, 0x4f, 0x1b, 0x2b, 0x0b, 0x82, 0x2c, 0xd1, 0x5d, 0x6c, 0x15, 0xb0, 0xf0, 0x0a, 0x08,
];

/// The SHA-256 of `foo`.
const OF_BOB: [u8; 32] = [
    0x2c, 0x26, 0xb4, 0x6b, 0x68, 0xff, 0xc6, 0x8f, 0xf9, 0x9b, 0x45, 0x3c, 0x1d, 0x30, 0x41, 0x34,
    0x13, 0x42, 0x2d, 0x70, 0x64, 0x83, 0xbf, 0xa0, 0xf9, 0x8a, 0x5e, 0x88, 0x62, 0x66, 0xe7, 0xae,
];

/// The SHA-256 of `bar`.
const OF_PAT: [u8; 32] = [
    0xfc, 0xde, 0x2b, 0x2e, 0xdb, 0xa5, 0x6b, 0xf4, 0x08, 0x60, 0x1f, 0xb7, 0x21, 0xfe, 0x9b, 0x5c,
    0x33, 0x8d, 0x10, 0xee, 0x42, 0x9e, 0xa0, 0x4f, 0xae, 0x55, 0x11, 0xb6, 0x8f, 0xbf, 0x8f, 0xb9,
];

/// The SHA-256 of `hello`.
const OF_EDNA: [u8; 32] = [
    0x2c, 0xf2, 0x4d, 0xba, 0x5f, 0xb0, 0xa3, 0x0e, 0x26, 0xe8, 0x3b, 0x2a, 0xc5, 0xb9, 0xe2, 0x9e,
    0x1b, 0x16, 0x1e, 0x5c, 0x1f, 0xa7, 0x42, 0x5e, 0x73, 0x04, 0x33, 0x62, 0x93, 0x8b, 0x98, 0x24,
];

/// A digest that is nobody's.
const OF_NOBODY: [u8; 32] = [7; 32];

/// Tokens, and their digests as the standard gives them.
const DIGESTS: &[(&str, [u8; 32])] = &[
    (ADAMS, OF_ADAM),
    (VERAS, OF_VERA),
    (BOBS, OF_BOB),
    (PATS, OF_PAT),
    (EDNAS, OF_EDNA),
];

/// The digest of a token; of any other text one that is nobody's.
fn digest_of(token: &str) -> [u8; 32] {
    for (text, digest) in DIGESTS {
        if *text == token {
            return *digest;
        }
    }
    OF_NOBODY
}

/// Names of a kind.
pub fn names<K: NameKind>(rt: &impl Abort, alloc: Global, texts: &[&str]) -> Vec<Name<K>> {
    let mut names = Vec::new(alloc);
    for text in texts {
        let name = Name::parse(alloc, text).expect(rt, "a name");
        names.push(name).expect(rt, "room for a name");
    }
    names
}

/// The user of this name, this digest and these roles.
fn user_of(rt: &impl Abort, alloc: Global, name: &str, digest: [u8; 32], roles: &[&str]) -> User {
    let name = UserName::parse(alloc, name).expect(rt, "the name of a user");
    User::new(name, digest, names(rt, alloc, roles))
}

/// What is added to a policy that opens.
#[derive(Clone, Copy)]
enum Row {
    /// A role with these permissions.
    Role(&'static str, Pairs),
    /// A user, with a token and roles.
    User(&'static str, &'static str, Roles),
}

/// vera is a Viewer, bob reads the DAG b, adam is the one Admin, pat has no permission, edna is a Viewer who edits b. The users
/// stand in another order than that of their names.
const THE_FIVE: &[Row] = &[
    Row::Role("OnlyB", &[("can_read", "DAG:b")]),
    Row::Role("EditB", &[("can_edit", "DAG:b")]),
    Row::User("vera", VERAS, &["Viewer"]),
    Row::User("bob", BOBS, &["OnlyB"]),
    Row::User("adam", ADAMS, &["Admin"]),
    Row::User("pat", PATS, &["Public"]),
    Row::User("edna", EDNAS, &["Viewer", "EditB"]),
];

/// Adds what a row says: why it is not added.
fn fault_of(rt: &impl Abort, alloc: Global, draft: &mut PolicyDraft, row: Row) -> Option<RowFault> {
    match row {
        Row::Role(name, pairs) => draft.add_role(role_of(rt, alloc, name, pairs)).err(),
        Row::User(name, token, roles) => {
            let user = user_of(rt, alloc, name, digest_of(token), roles);
            draft.add_user(alloc, user).err()
        }
    }
}

/// Adds what these rows say, in their order.
fn fill(rt: &impl Abort, alloc: Global, draft: &mut PolicyDraft, rows: &[Row]) {
    for (place, row) in rows.iter().enumerate() {
        let fault = fault_of(rt, alloc, draft, *row);
        has_memory(rt, fault != Some(RowFault::OutOfMemory), "the five");
        row_holds(rt, fault.is_none(), "the five", place);
    }
}

/// What comes of a draft with the five users.
pub fn finished(rt: &impl Abort, alloc: Global) -> Result<Policy, FinishFault> {
    let mut draft = PolicyDraft::new(alloc).expect(rt, "a draft of a policy");
    fill(rt, alloc, &mut draft, THE_FIVE);
    draft.finish(alloc)
}
