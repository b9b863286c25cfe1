//! Drafts of one base, of which one is published.
ghost use Rattle.std.specs.Prelude.{◌≡◌};
ghost use Rattle.af_board.specs.Drafts.{IsDraft};
ghost use Rattle.af_board.specs.Marks.{HasSeen};

use crate::tests::asserts::{has_memory, holds};
use crate::tests::changes::{Step, ask_of};
use crate::tests::playing::Call::{Role, Submit};
use crate::tests::playing::{Row, opened, play_rows};
use crate::tests::reports::{Report, report_fault, report_receipt};
use af_board::{Board, Draft, SubmitFault};
use af_policy::{ChangeKind, Presented};
use af_word::Pass;
use std::alloc::Global;
use std::process::Abort;
use std::sync::Wait;
use std::test::*;

/// Four versions.
const FOUR: &[Row] = &[
    (1, Submit("admin", Step::Unlisted), "version 1 by adam on 0"),
    (
        2,
        Submit("password", Step::Unlisted),
        "version 2 by zoe on 1",
    ),
    (1, Submit("admin", Step::Unlisted), "version 3 by adam on 2"),
    (
        2,
        Submit("password", Step::Unlisted),
        "version 4 by zoe on 3",
    ),
];

/// After the drafts: the one of zoe made nothing, and zoe submits again.
const AGAIN: &[Row] = &[
    (2, Role("admin", "x"), "under 5: x: "),
    (1, Role("admin", "y"), "under 5: no such role"),
    (
        2,
        Submit("password", Step::AddRole("y")),
        "version 6 by zoe on 5",
    ),
    (1, Role("admin", "y"), "under 6: y: "),
];

/// The draft of a change that the token's owner asks for.
fn drafted(
    rt: &(impl Abort + Wait),
    alloc: Global,
    board: &Board,
    pass: &mut Pass,
    token: &str,
    step: Step,
) -> Draft
    requires { pass.old.word ≡ board.now.word }
    ensures word { pass.new.word ≡ board.now.word }
    ensures draft { IsDraft board.now result }
    ensures seen { HasSeen pass.new result.base }
{
    let ask = ask_of(rt, alloc, step);
    let presented = Presented::of(Some(token.as_bytes()));
    match board.draft(rt, alloc, pass, presented.as_ref(), &ask) {
        Ok(draft) => draft,
        Err(fault) => {
            has_memory(
                rt,
                !matches!(&fault, SubmitFault::OutOfMemory(_)),
                "a draft",
            );
            panic!(rt; "a draft")
        }
    }
}

/// Ends the test where a draft is not of this author, not on version 4, or where its policy has not the role of this name.
fn is_of(rt: &impl Abort, board: &Board, draft: &Draft, author: &str)
    requires { IsDraft board.now draft.now }
{
    holds(
        rt,
        draft.author().as_str() == author,
        "the author of a draft",
    );
    holds(
        rt,
        draft.change().kind() == ChangeKind::AddRole,
        "the change of a draft",
    );
    holds(rt, draft.base().version() == 4, "the base of a draft");
    let presented = Presented::of(Some(b"foo"));
    let bearer = draft.policy(board).bearer(presented.as_ref());
    holds(rt, bearer.is_some(), "the policy of a draft");
}

/// Whether this is reported of a draft that is published.
fn is_published(
    rt: &impl Abort,
    alloc: Global,
    board: &Board,
    pass: &mut Pass,
    draft: Draft,
    wanted: &str,
) -> bool
    requires word { pass.old.word ≡ board.now.word }
    requires draft { IsDraft board.now draft }
    requires seen { HasSeen pass.old draft.base }
    ensures { pass.new.word ≡ board.now.word }
{
    let mut report = Report::of(wanted);
    match board.publish(pass, draft) {
        Ok(receipt) => {
            report_receipt(rt, alloc, &mut report, &receipt);
            drop(receipt);
        }
        Err(fault) => report_fault(rt, alloc, &mut report, fault),
    }
    report.is_wanted()
}

/// Two drafts of one base: adam's is published, and zoe's is moved.
fn two_drafts(
    rt: &(impl Abort + Wait),
    alloc: Global,
    board: &Board,
    one: &mut Pass,
    two: &mut Pass,
)
    requires { (one.old.word ≡ board.now.word) × (two.old.word ≡ board.now.word) }
    ensures { (one.new.word ≡ board.now.word) × (two.new.word ≡ board.now.word) }
{
    let adams = drafted(rt, alloc, board, one, "admin", Step::AddRole("x"));
    is_of(rt, board, &adams, "adam");
    let zoes = drafted(rt, alloc, board, two, "password", Step::AddRole("y"));
    is_of(rt, board, &zoes, "zoe");
    let is_so = is_published(rt, alloc, board, one, adams, "version 5 by adam on 4");
    holds(rt, is_so, "the first draft");
    let is_so = is_published(rt, alloc, board, two, zoes, "moved to version 5");
    holds(rt, is_so, "the second draft");
}

#[test]
fn the_second_draft_of_a_base_is_moved(rt: HostRuntime) {
    let alloc = rt.alloc();
    let (board, mut one, mut two) = opened(&rt, alloc, 9);
    play_rows(
        &rt,
        alloc,
        &board,
        &mut one,
        &mut two,
        "four versions",
        FOUR,
    );
    two_drafts(&rt, alloc, &board, &mut one, &mut two);
    play_rows(
        &rt,
        alloc,
        &board,
        &mut one,
        &mut two,
        "after the drafts",
        AGAIN,
    );
    drop(board);
}
