//! Two threads submit through one board.
ghost use Rattle.std.specs.Prelude.{◌≡◌};
ghost use Rattle.af_board.specs.Drafts.{IsReceipt};

use crate::tests::asserts::{has_memory, holds};
use crate::tests::changes::empty_role;
use crate::tests::playing::opened;
use af_board::{Board, Receipt, SubmitFault};
use af_names::RoleName;
use af_policy::{Ask, Change, Policy, PolicyRead, Presented};
use af_word::Pass;
use std::alloc::Global;
use std::process::Abort;
use std::sync::Wait;
use std::test::*;
use std::thread::{Threads, join};

/// Who submits in a thread: the user's name and token, and the letter with which the names of the user's roles begin.
#[derive(Clone, Copy)]
struct Author {
    name: &'static str,
    token: &'static str,
    letter: &'static str,
}

const ADAM: Author = Author {
    name: "adam",
    token: "admin",
    letter: "x",
};

const ZOE: Author = Author {
    name: "zoe",
    token: "password",
    letter: "y",
};

/// How many roles each user adds.
const ROLES: usize = 100;

/// How often each thread tries at most.
const TRIES: usize = 50_000;

/// A board that threads share: a thread knows it by this bound alone.
trait Submits {
    ghost use Rattle.af_word.specs.Places.{WordId};

    /// Which version word it has.
    ghost word: { Self → WordId };

    /// Adds the author's roles one after another: the versions that they make.
    fn made<R: Wait + Abort>(
        &self,
        rt: &R,
        alloc: Global,
        pass: Pass,
        author: Author,
    ) -> (Vec<u32>, Pass)
        requires { pass.word ≡ word self.now }
        ensures { result.1.word ≡ word self.now };
}

impl Submits for Board {
    ghost word = { λ board. board.word };

    fn made<R: Wait + Abort>(
        &self,
        rt: &R,
        alloc: Global,
        pass: Pass,
        author: Author,
    ) -> (Vec<u32>, Pass) {
        made(rt, alloc, self, pass, author)
    }
}

/// Adds the author's roles, trying again where another was first.
fn made(
    rt: &(impl Wait + Abort),
    alloc: Global,
    board: &Board,
    mut pass: Pass,
    author: Author,
) -> (Vec<u32>, Pass)
    requires { pass.word ≡ board.now.word }
    ensures { result.1.word ≡ board.now.word }
{
    let mut made = Vec::new(alloc);
    for _ in 0..TRIES {
        if made.len() < ROLES {
            let number = made.len().saturating_add(1);
            if let Some(version) = added(rt, alloc, board, &mut pass, author, number) {
                made.push(version).expect(rt, "room for a version");
            }
        }
    }
    (made, pass)
}

/// The version that the author's role of this number makes; none where another version was published first.
fn added(
    rt: &(impl Wait + Abort),
    alloc: Global,
    board: &Board,
    pass: &mut Pass,
    author: Author,
    number: usize,
) -> Option<u32>
    requires { pass.old.word ≡ board.now.word }
    ensures { pass.new.word ≡ board.now.word }
{
    let letter = author.letter;
    let role = format!(in alloc; "{letter}{number}").expect(rt, "the name of a role");
    let version = submitted(rt, alloc, board, pass, author, role.as_str());
    drop(role);
    version
}

/// The version that a further role makes; none where another version was published first.
fn submitted(
    rt: &(impl Wait + Abort),
    alloc: Global,
    board: &Board,
    pass: &mut Pass,
    author: Author,
    role: &str,
) -> Option<u32>
    requires { pass.old.word ≡ board.now.word }
    ensures { pass.new.word ≡ board.now.word }
{
    let ask = Ask::Made(Change::AddRole(empty_role(rt, alloc, role)));
    let presented = Presented::of(Some(author.token.as_bytes()));
    let made = board.submit(rt, alloc, pass, presented.as_ref(), &ask);
    drop(ask);
    match made {
        Ok(receipt) => {
            is_of(rt, alloc, board, &receipt, author, role);
            let version = receipt.mark().version();
            drop(receipt);
            Some(version)
        }
        Err(fault) => {
            is_moved(rt, &fault);
            drop(fault);
            None
        }
    }
}

/// Ends the test where a fault is another than that a later version was published.
fn is_moved(rt: &impl Abort, fault: &SubmitFault) {
    has_memory(
        rt,
        !matches!(fault, SubmitFault::OutOfMemory(_)),
        "a change",
    );
    holds(rt, matches!(fault, SubmitFault::Moved { .. }), "moved");
}

/// Ends the test where a receipt is of another author, or where the version that it made is not the one before with the role.
fn is_of(
    rt: &impl Abort,
    alloc: Global,
    board: &Board,
    receipt: &Receipt,
    author: Author,
    role: &str,
)
    requires { IsReceipt board.now receipt.now }
{
    holds(rt, receipt.author().as_str() == author.name, "the author");
    let had = has_role(rt, alloc, board.policy(receipt.base()), author, role);
    holds(rt, !had, "the policy before");
    let has = has_role(rt, alloc, board.policy(receipt.mark()), author, role);
    holds(rt, has, "the policy of the version");
}

/// Whether there is a role of this name.
fn has_role(rt: &impl Abort, alloc: Global, policy: &Policy, author: Author, role: &str) -> bool {
    let name = RoleName::parse(alloc, role).expect(rt, "the name of a role");
    let read = PolicyRead::Role(name);
    let presented = Presented::of(Some(author.token.as_bytes()));
    let is_there = policy.read(alloc, presented.as_ref(), &read).is_ok();
    drop(read);
    is_there
}

/// What two threads have made, each with its pass.
fn raced<B: Submits + Sync, R: Threads + Wait + Abort + Sync>(
    rt: &R,
    alloc: Global,
    board: &B,
    one: Pass,
    two: Pass,
) -> ((Vec<u32>, Pass), (Vec<u32>, Pass))
    requires { (one.word ≡ B.word board.now) × (two.word ≡ B.word board.now) }
    ensures { (result.0.1.word ≡ B.word board.now) × (result.1.1.word ≡ B.word board.now) }
{
    join(
        rt,
        move || -> (Vec<u32>, Pass)
            requires { one.word ≡ B.word board.now }
            ensures { result.1.word ≡ B.word board.entry.now }
        { board.made(rt, alloc, one, ADAM) },
        move || -> (Vec<u32>, Pass)
            requires { two.word ≡ B.word board.now }
            ensures { result.1.word ≡ B.word board.entry.now }
        { board.made(rt, alloc, two, ZOE) },
    )
}

/// Whether these are all versions from 1 to that of the last role, in order.
fn are_in_order(made: &[u32]) -> bool {
    for (version, wanted) in made.iter().zip(1u32..=200) {
        if *version != wanted {
            return false;
        }
    }
    made.len() == 200
}

/// Ends the test where the versions of both are not 1 to 200, each once.
fn are_all(rt: &impl Abort, mut made: Vec<u32>, others: &[u32]) {
    for version in others {
        made.push(*version).expect(rt, "room for a version");
    }
    made.sort().expect(rt, "room to sort");
    let are_in_order = are_in_order(made.as_slice());
    holds(rt, are_in_order, "each version once");
}

/// Shares a board with two threads: the versions that they have made, and the last one that their passes have seen together.
fn shared(
    rt: &(impl Threads + Wait + Abort + Sync),
    alloc: Global,
    board: &Board,
    one: Pass,
    two: Pass,
)
    requires { (one.word ≡ board.now.word) × (two.word ≡ board.now.word) }
{
    let ((made, mut pass), (others, met)) = raced::<Board, _>(rt, alloc, board, one, two);
    board.meet(&mut pass, met);
    holds(rt, pass.seen().version == 200, "the last version");
    are_all(rt, made, others.as_slice());
}

#[test]
fn two_threads_make_each_version_once(rt: HostRuntime) {
    let alloc = rt.alloc();
    let (board, one, two) = opened(&rt, alloc, 999);
    shared(&rt, alloc, &board, one, two);
    drop(board);
}
