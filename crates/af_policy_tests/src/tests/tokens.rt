//! Who brings a token: the digests were written by hand.
use crate::tests::asserts::row_holds;
use crate::tests::openings::{ADAMS, BOBS, EDNAS, PATS, VERAS, finished};
use af_policy::{Policy, Presented};
use std::process::Abort;

/// A token, or none, and the name of who brings it; nobody's is the empty text.
type Row = (Option<&'static str>, &'static str);

/// Each user's token; one that is nobody's, an empty one, and one that is cut short.
const BEARERS: &[Row] = &[
    (Some(ADAMS), "adam"),
    (Some(VERAS), "vera"),
    (Some(BOBS), "bob"),
    (Some(PATS), "pat"),
    (Some(EDNAS), "edna"),
    (Some("nope"), ""),
    (Some(""), ""),
    (Some("fo"), ""),
    (None, ""),
];

/// Whether this is the name of who brings a token.
fn is_bearer(policy: &Policy, token: Option<&str>, wanted: &str) -> bool {
    let presented = match token {
        Some(token) => Presented::of(Some(token.as_bytes())),
        None => None,
    };
    match policy.bearer(presented.as_ref()) {
        Some(user) => user.as_str() == wanted,
        None => wanted.is_empty(),
    }
}

/// Ends the test at the first token that another brings.
fn are_bearers(rt: &impl Abort, policy: &Policy) {
    for (number, (token, wanted)) in BEARERS.iter().enumerate() {
        row_holds(rt, is_bearer(policy, *token, wanted), "tokens", number);
    }
}

#[test]
fn tokens_are_found_by_their_digests(rt: HostRuntime) {
    let policy = finished(&rt, rt.alloc()).expect(&rt, "a policy");
    are_bearers(&rt, &policy);
    drop(policy);
}
