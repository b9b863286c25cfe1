//! Calls of two passes on one board, row by row.
use crate::tests::changes::Step;
use crate::tests::playing::Call::{Current, Me, Meet, Role, Seen, Submit, Users};
use crate::tests::playing::{Row, play};
use std::test::*;

/// Who asks at version 0, and what users read of roles and users.
const READS: &[Row] = &[
    (1, Me("foo"), "under 0: bob(OnlyB,) DAG:b.can_read,"),
    (1, Me("nope"), "under 0: unauthenticated"),
    (2, Role("admin", "OnlyB"), "under 0: OnlyB: DAG:b.can_read,"),
    (1, Role("admin", "Nobody"), "under 0: no such role"),
    (2, Role("foo", "OnlyB"), "under 0: denied"),
    (1, Users("admin", 1), "under 0: adam(Admin,) of 8"),
];

#[test]
fn the_opening_policy_is_read(rt: HostRuntime) {
    play(&rt, 9, "readings at version 0", READS);
}

/// The last version is 2: the third change makes none, and one that is refused is refused for its own reason.
const THREE: &[Row] = &[
    (1, Submit("admin", Step::Unlisted), "version 1 by adam on 0"),
    (
        2,
        Submit("password", Step::Unlisted),
        "version 2 by zoe on 1",
    ),
    (
        1,
        Submit("admin", Step::Unlisted),
        "under 2: the last version",
    ),
    (2, Submit("test", Step::Unlisted), "under 2: denied"),
];

#[test]
fn a_third_change_is_past_the_last_version(rt: HostRuntime) {
    play(&rt, 2, "three changes, of which two are left", THREE);
}

/// A policy that was published is found by each pass that looks; one that does not look has not seen it.
const FOUND: &[Row] = &[
    (1, Current("admin"), "under 0: adam"),
    (
        1,
        Submit("password", Step::DropUser("adam")),
        "version 1 by zoe on 0",
    ),
    (2, Seen, "seen 0"),
    (2, Current("admin"), "under 1: nobody"),
    (
        1,
        Submit("password", Step::AddRole("x")),
        "version 2 by zoe on 1",
    ),
    (2, Seen, "seen 1"),
    (2, Meet, "seen 2"),
    (2, Current("password"), "under 2: zoe"),
];

#[test]
fn a_published_policy_is_found(rt: HostRuntime) {
    play(&rt, 9, "two passes", FOUND);
}
