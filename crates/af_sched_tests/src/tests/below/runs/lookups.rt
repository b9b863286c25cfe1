mod acts;
mod filters;
mod plain;
mod twins;

use crate::tests::asserts::holds;
use std::process::Abort;
use twins::Twins;

/// The next of a row of numbers that look random (a linear congruential generator, the constants of Numerical Recipes).
fn next_of(seed: &mut u64) -> u64 {
    *seed = (*seed % 4_294_967_296 * 1_664_525 + 1_013_904_223) % 4_294_967_296;
    *seed / 65_536
}

/// A thousand runs of three DAGs, added, ended, marked, cleared, found and taken out in a random order: each answer is that of
/// a filter over a plain list.
#[test]
fn look_ups_agree_with_plain_filters(rt: HostRuntime) {
    let mut twins = Twins::new(&rt, rt.alloc());
    agree(&rt, &mut twins);
    holds(&rt, twins.next() > 1_000, "a thousand were added");
    holds(&rt, twins.plain.len() > 800, "most are there");
    drop(twins);
}

/// Ends the test where an answer of the runs is not that of a filter.
fn agree(rt: &impl Abort, twins: &mut Twins) {
    let mut seed = 1;
    for _ in 0..5_000 {
        let is_told = twins.turn(rt, &mut seed);
        let agrees = twins.agrees(rt, (next_of(&mut seed) % 500) as u32);
        holds(rt, is_told, "added once");
        holds(rt, agrees, "as a filter");
    }
}
