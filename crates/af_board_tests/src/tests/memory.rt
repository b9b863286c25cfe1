//! A draft for which there is no memory, and what stands then. Memory is refused at most once: there is memory for all that is asked after it.
ghost use Rattle.std.specs.Prelude.{◌≡◌};
ghost use Rattle.af_board.specs.Drafts.{IsDraft};
ghost use Rattle.af_board.specs.Marks.{HasSeen};

use crate::tests::asserts::holds;
use crate::tests::changes::{Step, ask_of};
use crate::tests::playing::Call::{Role, Seen, Submit};
use crate::tests::playing::{Row, opened, play_rows};
use af_board::{Board, Draft, Receipt, SubmitFault};
use af_names::RoleName;
use af_policy::{Ask, ChangeFault, Policy, PolicyRead, PolicyReply, Presented, ReadFault};
use af_word::Pass;
use std::alloc::Global;
use std::process::Abort;
use std::sync::Wait;
use std::test::*;

/// Where the draft was published, it is version 1.
const PUBLISHED: &[Row] = &[
    (1, Seen, "seen 1"),
    (2, Role("admin", "x"), "under 1: x: "),
    (1, Submit("admin", Step::AddRole("x")), "under 1: exists"),
];

/// A role that adam adds, and what reads it. They are made before the draft: what comes after it takes the board's memory alone.
#[derive(Drop)]
struct Added {
    ask: Ask,
    read: PolicyRead,
}

/// The role `x`, without permissions.
fn make_added(rt: &impl Abort, alloc: Global) -> Added {
    let name = RoleName::parse(alloc, "x").expect(rt, "the name of a role");
    Added {
        ask: ask_of(rt, alloc, Step::AddRole("x")),
        read: PolicyRead::Role(name),
    }
}

/// Whether a receipt says that adam made version 1 of version 0.
fn is_first(receipt: &Receipt) -> bool {
    receipt.mark().version() == 1
        && receipt.base().version() == 0
        && receipt.author().as_str() == "adam"
}

/// Whether a draft is published as version 1.
fn is_published(board: &Board, pass: &mut Pass, draft: Draft) -> bool
    requires word { pass.old.word ≡ board.now.word }
    requires draft { IsDraft board.now draft }
    requires seen { HasSeen pass.old draft.base }
    ensures { pass.new.word ≡ board.now.word }
{
    match board.publish(pass, draft) {
        Ok(receipt) => {
            let is_first = is_first(&receipt);
            drop(receipt);
            is_first
        }
        Err(fault) => {
            drop(fault);
            false
        }
    }
}

/// What comes of a draft.
#[derive(Clone, Copy, PartialEq, Eq)]
enum Outcome {
    Published,
    /// Under version 0 there was no memory.
    NoMemory,
    /// Under version 1 there is the role.
    Exists,
    Other,
}

/// What came of a draft that should be published.
fn published(is_published: bool) -> Outcome {
    if is_published {
        Outcome::Published
    } else {
        Outcome::Other
    }
}

/// What an error says of a draft.
fn outcome_of(fault: &SubmitFault) -> Outcome {
    match fault {
        SubmitFault::OutOfMemory(mark) if mark.version() == 0 => Outcome::NoMemory,
        SubmitFault::Refused(mark, ChangeFault::Exists) if mark.version() == 1 => Outcome::Exists,
        _ => Outcome::Other,
    }
}

/// Drafts the role for adam, and publishes it where there is memory for the draft.
fn tried(rt: &impl Wait, alloc: Global, board: &Board, pass: &mut Pass, added: &Added) -> Outcome
    requires { pass.old.word ≡ board.now.word }
    ensures { pass.new.word ≡ board.now.word }
{
    let presented = Presented::of(Some(b"admin"));
    match board.draft(rt, alloc, pass, presented.as_ref(), &added.ask) {
        Ok(draft) => published(is_published(board, pass, draft)),
        Err(fault) => {
            let outcome = outcome_of(&fault);
            drop(fault);
            outcome
        }
    }
}

/// Whether the role is there, without permissions; none where anything else is read, or there was no memory.
fn is_there(answer: &Result<PolicyReply<'_>, ReadFault>) -> Option<bool> {
    match answer {
        Ok(PolicyReply::Role(role)) if role.name().as_str() == "x" => {
            Some(role.permissions().len() == 0)
        }
        Err(ReadFault::NoSuchRole) => Some(false),
        _ => None,
    }
}

/// Whether this is the last version, and the token is adam's under it.
fn is_last(board: &Board, pass: &mut Pass, version: u32) -> bool
    requires { pass.old.word ≡ board.now.word }
    ensures { pass.new.word ≡ board.now.word }
{
    match board.current(pass) {
        Ok(mark) => mark.version() == version && is_adam(board.policy(&mark)),
        Err(_) => false,
    }
}

/// Whether the token is adam's.
fn is_adam(policy: &Policy) -> bool {
    let presented = Presented::of(Some(b"admin"));
    match policy.bearer(presented.as_ref()) {
        Some(name) => name.as_str() == "adam",
        None => false,
    }
}

/// Whether this is the version under which adam reads the role, and whether the role is there then.
fn reads(
    alloc: Global,
    board: &Board,
    pass: &mut Pass,
    added: &Added,
    version: u32,
    there: bool,
) -> bool
    requires { pass.old.word ≡ board.now.word }
    ensures { pass.new.word ≡ board.now.word }
{
    let presented = Presented::of(Some(b"admin"));
    match board.read(alloc, pass, presented.as_ref(), &added.read) {
        Ok(told) => {
            let reads = told.mark.version() == version && is_there(&told.answer) == Some(there);
            drop(told);
            reads
        }
        Err(_) => false,
    }
}

/// Ends the test where version 0 is not the last, or the same draft is not published then, whichever place of the table is used up.
fn goes_again(
    rt: &(impl Abort + Wait),
    alloc: Global,
    board: &Board,
    one: &mut Pass,
    two: &mut Pass,
    added: &Added,
)
    requires { (one.old.word ≡ board.now.word) × (two.old.word ≡ board.now.word) }
    ensures { (one.new.word ≡ board.now.word) × (two.new.word ≡ board.now.word) }
{
    let is_seen = one.seen().version == 0;
    let is_last = is_last(board, two, 0);
    let reads = reads(alloc, board, two, added, 0, false);
    holds(rt, is_seen && is_last && reads, "no draft");
    let outcome = tried(rt, alloc, board, one, added);
    holds(rt, outcome == Outcome::Published, "the draft again");
}

/// Ends the test where that draft is not version 1.
fn stands(
    rt: &(impl Abort + Wait),
    alloc: Global,
    board: &Board,
    one: &mut Pass,
    two: &mut Pass,
    added: &Added,
)
    requires { (one.old.word ≡ board.now.word) × (two.old.word ≡ board.now.word) }
{
    let is_seen = one.seen().version == 1;
    let is_last = is_last(board, two, 1);
    let reads = reads(alloc, board, two, added, 1, true);
    holds(rt, is_seen && is_last && reads, "the role of the draft");
    let outcome = tried(rt, alloc, board, one, added);
    holds(rt, outcome == Outcome::Exists, "a third draft");
}

/// Ends the test where something else stands after a draft than its outcome says.
fn goes(
    rt: &(impl Abort + Wait),
    alloc: Global,
    board: &Board,
    one: &mut Pass,
    two: &mut Pass,
    added: &Added,
)
    requires { (one.old.word ≡ board.now.word) × (two.old.word ≡ board.now.word) }
{
    match tried(rt, alloc, board, one, added) {
        Outcome::Published => play_rows(rt, alloc, board, one, two, "published", PUBLISHED),
        Outcome::NoMemory => {
            goes_again(rt, alloc, board, one, two, added);
            stands(rt, alloc, board, one, two, added);
        }
        _ => holds(rt, false, "a draft is published, or has no memory"),
    }
}

#[test]
fn a_draft_without_memory_leaves_the_last_version(rt: HostRuntime) {
    let alloc = rt.alloc();
    let (board, mut one, mut two) = opened(&rt, alloc, 9);
    let added = make_added(&rt, alloc);
    goes(&rt, alloc, &board, &mut one, &mut two, &added);
    drop(added);
    drop(board);
}
