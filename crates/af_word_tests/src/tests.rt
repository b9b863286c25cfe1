ghost use Rattle.std.specs.Prelude.{◌≡◌};

use af_word::{Pass, PublishFault, Seen, VersionWord};
use std::alloc::Global;
use std::process::Abort;
use std::test::*;

mod named;
mod raced;

/// A call on a word: a pass tells what it has seen, looks, or publishes a place behind a version; or the first pass takes in what a
/// copy of the second has seen, and tells what it has seen.
#[derive(Clone, Copy, Debug, PartialEq, Eq)]
enum Call {
    Tell,
    Look,
    Publish(u32, u32),
    Meet,
}

use Call::{Look, Meet, Publish, Tell};

/// The version and the place that a call answers, or why nothing was published.
type Answer = Result<(u32, u32), PublishFault>;

fn called(word: &VersionWord, pass: &mut Pass, other: &mut Pass, call: Call) -> Answer
    requires { (pass.old.word ≡ word.now) × (other.old.word ≡ word.now) }
    ensures { (pass.new.word ≡ word.now) × (other.new.word ≡ word.now) }
{
    match call {
        Tell => {}
        Look => {
            let Seen { version, index } = word.look(pass);
            return Ok((version, index));
        }
        Publish(at, index) if at <= pass.seen().version => {
            return Ok((word.publish(pass, at, index)?, index));
        }
        Publish(_, _) => {}
        Meet => word.meet(pass, word.split(other)),
    }
    let Seen { version, index } = pass.seen();
    Ok((version, index))
}

/// Makes the calls, each by the first pass or by the second, and compares what it answers.
fn made(
    rt: &impl Abort,
    word: &VersionWord,
    mut one: Pass,
    mut two: Pass,
    calls: &[(u8, Call, Answer)],
)
    requires { (one.word ≡ word.now) × (two.word ≡ word.now) }
{
    for (by, call, wanted) in calls {
        let answer = if *by == 1 {
            called(word, &mut one, &mut two, *call)
        } else {
            called(word, &mut two, &mut one, *call)
        };
        assert_eq!(rt; answer, *wanted, "{call:?} by {by}");
    }
}

/// Makes the calls on a word that opens with this place and takes versions up to `last`.
fn played(
    rt: &impl Abort,
    alloc: Global,
    first: u32,
    last: u32,
    calls: &[(u8, Call, Answer)],
) -> Result<(), Fail> {
    let (word, mut one) = VersionWord::open(alloc, first, last)?;
    let two = word.split(&mut one);
    assert_eq!(rt; word.last(), last);
    made(rt, &word, one, two, calls);
    Ok(())
}

/// The version and the place that a pass moves to where another was first.
fn moved() -> PublishFault {
    PublishFault::Moved {
        version: 5,
        index: 60,
    }
}

#[test]
fn no_version_follows_the_last(rt: HostRuntime) -> Result<(), Fail> {
    let calls = [
        (1, Publish(0, 70), Ok((1, 70))),
        (1, Publish(1, 80), Ok((2, 80))),
        (1, Publish(2, 90), Err(PublishFault::Last)),
        (1, Look, Ok((2, 80))),
    ];
    played(&rt, rt.alloc(), 0, 2, &calls)
}

#[test]
fn the_first_may_be_the_last(rt: HostRuntime) -> Result<(), Fail> {
    let calls = [
        (1, Look, Ok((0, 7))),
        (1, Publish(0, 8), Err(PublishFault::Last)),
        (2, Publish(0, 9), Err(PublishFault::Last)),
        (2, Look, Ok((0, 7))),
    ];
    played(&rt, rt.alloc(), 7, 0, &calls)
}

#[test]
fn who_comes_second_has_moved(rt: HostRuntime) -> Result<(), Fail> {
    let calls = [
        (1, Publish(0, 20), Ok((1, 20))),
        (2, Tell, Ok((0, 10))),
        (2, Look, Ok((1, 20))),
        (1, Publish(1, 30), Ok((2, 30))),
        (1, Publish(2, 40), Ok((3, 40))),
        (1, Publish(3, 50), Ok((4, 50))),
        (2, Look, Ok((4, 50))),
        (1, Look, Ok((4, 50))),
        (1, Publish(4, 60), Ok((5, 60))),
        (2, Tell, Ok((4, 50))),
        (2, Publish(4, 61), Err(moved())),
        (2, Tell, Ok((5, 60))),
    ];
    played(&rt, rt.alloc(), 10, 9, &calls)
}

#[test]
fn who_has_seen_more_moves_to_the_last(rt: HostRuntime) -> Result<(), Fail> {
    let calls = [
        (1, Publish(0, 20), Ok((1, 20))),
        (1, Publish(1, 30), Ok((2, 30))),
        (1, Publish(2, 40), Ok((3, 40))),
        (1, Publish(3, 50), Ok((4, 50))),
        (2, Look, Ok((4, 50))),
        (1, Publish(4, 60), Ok((5, 60))),
        (2, Tell, Ok((4, 50))),
        (2, Publish(0, 61), Err(moved())),
        (2, Tell, Ok((5, 60))),
    ];
    played(&rt, rt.alloc(), 10, 9, &calls)
}

#[test]
fn a_pass_meets_another(rt: HostRuntime) -> Result<(), Fail> {
    let calls = [
        (2, Publish(0, 20), Ok((1, 20))),
        (2, Tell, Ok((1, 20))),
        (1, Meet, Ok((1, 20))),
        (1, Tell, Ok((1, 20))),
    ];
    played(&rt, rt.alloc(), 10, 9, &calls)
}
