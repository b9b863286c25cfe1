//! Marks of one version, of two passes, and the mark of version 0.
ghost use Rattle.std.specs.Prelude.{◌≡◌};
ghost use Rattle.af_board.specs.Marks.{IsLast, IsOf};

use crate::tests::asserts::holds;
use crate::tests::changes::Step;
use crate::tests::playing::Call::Submit;
use crate::tests::playing::{Row, opened, play_rows};
use af_board::{Board, Mark};
use af_names::{DagId, UserName};
use af_policy::Presented;
use af_role::{Action, Need, ResourceKind};
use af_word::Pass;
use std::alloc::Global;
use std::process::Abort;
use std::test::*;

/// The mark of the last version, which the pass has then seen.
fn last(rt: &impl Abort, board: &Board, pass: &mut Pass) -> Mark
    requires { pass.old.word ≡ board.now.word }
    ensures word { pass.new.word ≡ board.now.word }
    ensures mark { IsLast board.now pass.new result }
{
    board.current(pass).expect(rt, "the last version")
}

/// Whether adam is known under the version that a mark names.
fn knows_adam(board: &Board, mark: &Mark) -> bool
    requires { IsOf board.now mark.now }
{
    let presented = Presented::of(Some(b"admin"));
    board.policy(mark).bearer(presented.as_ref()).is_some()
}

/// To read all runs.
const READ_RUNS: Need = Need {
    action: Action::Read,
    kind: ResourceKind::DagRuns,
    at_dag: false,
};

/// Whether adam reads all runs under the compiled policy that a mark names.
fn adam_reads(rt: &impl Abort, alloc: Global, board: &Board, mark: &Mark) -> bool
    requires { IsOf board.now mark.now }
{
    let adam = UserName::parse(alloc, "adam").expect(rt, "the name of a user");
    let dags: &[DagId] = &[];
    let missing = board
        .compiled(mark)
        .missing(&adam, &[READ_RUNS], None, dags);
    drop(adam);
    missing.is_none()
}

/// Ends the test where the marks of the last version, one of each pass, differ.
fn agree(rt: &impl Abort, alloc: Global, board: &Board, one: &mut Pass, two: &mut Pass)
    requires { (one.old.word ≡ board.now.word) × (two.old.word ≡ board.now.word) }
{
    let a = last(rt, board, one);
    let b = last(rt, board, two);
    holds(
        rt,
        a.version() == 1 && b.version() == 1,
        "two marks of version 1",
    );
    holds(
        rt,
        !knows_adam(board, &a) && !knows_adam(board, &b),
        "one policy",
    );
    if a.version() == b.version() {
        board.same_version(one, &a, &a);
        board.versions_agree(one, &a, board.split(two), &b);
        board.agrees(&b, &b);
    }
}

/// Ends the test where the opening mark is not version 0, or names another policy than the opening one.
fn opens(rt: &impl Abort, alloc: Global, board: &Board) {
    let opening = board.opening();
    holds(rt, opening.version() == 0, "the opening version");
    holds(rt, knows_adam(board, &opening), "the opening policy");
    holds(
        rt,
        adam_reads(rt, alloc, board, &opening),
        "the opening policy, compiled",
    );
}

/// adam leaves.
const ONE: &[Row] = &[(
    1,
    Submit("admin", Step::DropUser("adam")),
    "version 1 by adam on 0",
)];

#[test]
fn marks_of_one_version_agree(rt: HostRuntime) {
    let alloc = rt.alloc();
    let (board, mut one, mut two) = opened(&rt, alloc, 9);
    play_rows(&rt, alloc, &board, &mut one, &mut two, "one version", ONE);
    agree(&rt, alloc, &board, &mut one, &mut two);
    opens(&rt, alloc, &board);
    drop(board);
}
