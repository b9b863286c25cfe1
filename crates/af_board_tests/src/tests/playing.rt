//! Calls on a board by two passes, and what each returns: rows that one loop plays. Who owns the board lends it to the function that plays
//! the rows, and hands it to drop, which is proved once.
ghost use Rattle.std.specs.Prelude.{◌≡◌};

use crate::tests::asserts::row_holds;
use crate::tests::changes::{Step, ask_of};
use crate::tests::reports::{Report, report_fault, report_me, report_receipt, report_reply};
use crate::tests::users::policy;
use af_board::Board;
use af_names::RoleName;
use af_policy::{PolicyRead, Presented, Span};
use af_word::Pass;
use std::alloc::{AllocGlobal, Global};
use std::process::Abort;
use std::sync::Wait;

/// A call on a board.
#[derive(Clone, Copy)]
pub enum Call {
    /// The last version that the pass has seen, without a look.
    Seen,
    /// The last version, and who has a token under it.
    Current(&'static str),
    /// The token's owner.
    Me(&'static str),
    /// The owner of the first token reads the role of this name.
    Role(&'static str, &'static str),
    /// The token's owner reads so many users.
    Users(&'static str, u32),
    /// The token's owner submits a change.
    Submit(&'static str, Step),
    /// The pass takes in what a split of the other has seen.
    Meet,
}

/// Which pass calls, 1 or 2, the call, and what it reports.
pub type Row = (u8, Call, &'static str);

/// A board whose version 0 is the sample configuration's policy, and two passes that have seen it.
pub fn opened(rt: &impl Abort, alloc: Global, last: u32) -> (Board, Pass, Pass)
    ensures { (result.1.word ≡ result.0.word) × (result.2.word ≡ result.0.word) }
{
    let (board, mut one) = Board::open(alloc, policy(rt, alloc), last).expect(rt, "a board");
    let two = board.split(&mut one);
    (board, one, two)
}

/// Plays the rows on a board that takes versions up to `last`.
pub fn play(rt: &(impl AllocGlobal + Abort + Wait), last: u32, what: &str, rows: &[Row]) {
    let alloc = rt.alloc();
    let (board, mut one, mut two) = opened(rt, alloc, last);
    play_rows(rt, alloc, &board, &mut one, &mut two, what, rows);
    drop(board);
}

/// Plays the rows: ends the test at the first one that reports something else.
pub fn play_rows(
    rt: &(impl Abort + Wait),
    alloc: Global,
    board: &Board,
    one: &mut Pass,
    two: &mut Pass,
    what: &str,
    rows: &[Row],
)
    requires { (one.old.word ≡ board.now.word) × (two.old.word ≡ board.now.word) }
    ensures { (one.new.word ≡ board.now.word) × (two.new.word ≡ board.now.word) }
{
    for (row, (by, call, wanted)) in rows.iter().enumerate() {
        let is_so = if *by == 1 {
            is_reported(rt, alloc, board, one, two, *call, wanted)
        } else {
            is_reported(rt, alloc, board, two, one, *call, wanted)
        };
        row_holds(rt, is_so, what, row);
    }
}

/// Whether a call of a pass reports this.
fn is_reported(
    rt: &(impl Abort + Wait),
    alloc: Global,
    board: &Board,
    pass: &mut Pass,
    other: &mut Pass,
    call: Call,
    wanted: &str,
) -> bool
    requires { (pass.old.word ≡ board.now.word) × (other.old.word ≡ board.now.word) }
    ensures { (pass.new.word ≡ board.now.word) × (other.new.word ≡ board.now.word) }
{
    match call {
        Call::Seen => is_seen(rt, alloc, pass, wanted),
        Call::Current(token) => is_current(rt, alloc, board, pass, token, wanted),
        Call::Me(token) => is_me(rt, alloc, board, pass, token, wanted),
        Call::Role(token, name) => {
            let name = RoleName::parse(alloc, name).expect(rt, "the name of a role");
            let read = PolicyRead::Role(name);
            is_read(rt, alloc, board, pass, token, read, wanted)
        }
        Call::Users(token, limit) => {
            let read = PolicyRead::Users(Span { limit, offset: 0 });
            is_read(rt, alloc, board, pass, token, read, wanted)
        }
        Call::Submit(token, step) => is_submitted(rt, alloc, board, pass, token, step, wanted),
        Call::Meet => {
            let copy = board.split(other);
            board.meet(pass, copy);
            is_seen(rt, alloc, pass, wanted)
        }
    }
}

/// Whether this is reported of the last version that a pass has seen.
fn is_seen(rt: &impl Abort, alloc: Global, pass: &Pass, wanted: &str) -> bool {
    let mut report = Report::of(wanted);
    report.add_number(rt, alloc, "seen ", pass.seen().version as usize);
    report.is_wanted()
}

/// Whether this is reported of the last version and of the token's owner under it.
fn is_current(
    rt: &impl Abort,
    alloc: Global,
    board: &Board,
    pass: &mut Pass,
    token: &str,
    wanted: &str,
) -> bool
    requires { pass.old.word ≡ board.now.word }
    ensures { pass.new.word ≡ board.now.word }
{
    let mut report = Report::of(wanted);
    match board.current(pass) {
        Ok(mark) => {
            report.add_version(rt, alloc, mark.version());
            let presented = Presented::of(Some(token.as_bytes()));
            match board.policy(&mark).bearer(presented.as_ref()) {
                Some(name) => report.add(name.as_str()),
                None => report.add("nobody"),
            }
        }
        Err(_) => report.add("not found"),
    }
    report.is_wanted()
}

/// Whether this is reported of the token's owner.
fn is_me(
    rt: &impl Abort,
    alloc: Global,
    board: &Board,
    pass: &mut Pass,
    token: &str,
    wanted: &str,
) -> bool
    requires { pass.old.word ≡ board.now.word }
    ensures { pass.new.word ≡ board.now.word }
{
    let mut report = Report::of(wanted);
    let presented = Presented::of(Some(token.as_bytes()));
    match board.me(alloc, pass, presented.as_ref()) {
        Ok(told) => {
            report.add_version(rt, alloc, told.mark.version());
            report_me(rt, alloc, &mut report, &told.answer);
            drop(told);
        }
        Err(_) => report.add("not found"),
    }
    report.is_wanted()
}

/// Whether this is reported of what the token's owner reads.
fn is_read(
    rt: &impl Abort,
    alloc: Global,
    board: &Board,
    pass: &mut Pass,
    token: &str,
    read: PolicyRead,
    wanted: &str,
) -> bool
    requires { pass.old.word ≡ board.now.word }
    ensures { pass.new.word ≡ board.now.word }
{
    let mut report = Report::of(wanted);
    let presented = Presented::of(Some(token.as_bytes()));
    match board.read(alloc, pass, presented.as_ref(), &read) {
        Ok(told) => {
            report.add_version(rt, alloc, told.mark.version());
            report_reply(rt, alloc, &mut report, &told.answer);
            drop(told);
        }
        Err(_) => report.add("not found"),
    }
    drop(read);
    report.is_wanted()
}

/// Whether this is reported of a change that the token's owner submits.
fn is_submitted(
    rt: &(impl Abort + Wait),
    alloc: Global,
    board: &Board,
    pass: &mut Pass,
    token: &str,
    step: Step,
    wanted: &str,
) -> bool
    requires { pass.old.word ≡ board.now.word }
    ensures { pass.new.word ≡ board.now.word }
{
    let ask = ask_of(rt, alloc, step);
    let presented = Presented::of(Some(token.as_bytes()));
    let made = board.submit(rt, alloc, pass, presented.as_ref(), &ask);
    drop(ask);
    let mut report = Report::of(wanted);
    match made {
        Ok(receipt) => {
            report_receipt(rt, alloc, &mut report, &receipt);
            drop(receipt);
        }
        Err(fault) => report_fault(rt, alloc, &mut report, fault),
    }
    report.is_wanted()
}
