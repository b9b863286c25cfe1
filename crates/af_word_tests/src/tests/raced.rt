//! Two threads publish on one word.
ghost use Rattle.std.specs.Prelude.{◌≡◌, IfOk};

use af_word::{Pass, Seen, VersionWord};
use std::alloc::{AllocError, Global};
use std::process::Abort;
use std::test::*;
use std::thread::{Threads, join};

/// Publishes until it has won a hundred times, trying again where another was first. Each try lengthens the list that it has
/// seen, so that two hundred are enough for two threads.
fn hundred_won(
    word: &VersionWord,
    mut pass: Pass,
    alloc: Global,
    index: u32,
) -> Result<(Vec<u32>, Pass), AllocError>
    requires { pass.word ≡ word.now }
    ensures { IfOk result (λ r. r.1.word ≡ word.now) }
{
    let mut won = Vec::new(alloc);
    for _ in 0..200 {
        let at = pass.seen().version;
        if won.len() < 100 {
            if let Ok(version) = word.publish(&mut pass, at, index) {
                won.push(version)?;
            }
        }
    }
    Ok((won, pass))
}

/// The versions that two threads have won, in order, and what they have seen together.
fn raced<R: Threads + Sync>(
    rt: &R,
    alloc: Global,
    word: &VersionWord,
    one: Pass,
    two: Pass,
) -> Result<(Vec<u32>, Seen), AllocError>
    requires { (one.word ≡ word.now) × (two.word ≡ word.now) }
{
    let (first, second) = join(
        rt,
        move || -> Result<(Vec<u32>, Pass), AllocError>
            requires { one.word ≡ word.now }
            ensures { IfOk result (λ r. r.1.word ≡ word.entry.now) }
        { hundred_won(word, one, alloc, 1) },
        move || -> Result<(Vec<u32>, Pass), AllocError>
            requires { two.word ≡ word.now }
            ensures { IfOk result (λ r. r.1.word ≡ word.entry.now) }
        { hundred_won(word, two, alloc, 2) },
    );
    let (mut won, mut pass) = first?;
    let (other, met) = second?;
    for version in other.iter() {
        won.push(*version)?;
    }
    won.sort()?;
    word.meet(&mut pass, met);
    Ok((won, pass.seen()))
}

#[test]
fn two_threads_win_each_version_once(rt: HostRuntime) -> Result<(), Fail> {
    let (word, mut one) = VersionWord::open(rt.alloc(), 0, 4_294_967_295)?;
    let two = word.split(&mut one);
    let (won, seen) = raced(&rt, rt.alloc(), &word, one, two)?;
    assert_eq!(rt; won.len(), 200);
    for (version, expected) in won.iter().zip(1..=200) {
        assert_eq!(rt; *version, expected);
    }
    assert_eq!(rt; seen.version, 200);
    Ok(())
}
