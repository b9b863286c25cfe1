//! Two threads, each with a session of its own, make a change where the history has room for one, and memory is refused once.
ghost use Rattle.std.specs.Prelude.{◌≡◌};
ghost use Rattle.af_plane.specs.Names.{IsOfName};

use crate::tests::plane::asserts::holds;
use crate::tests::plane::memory::last_entry::{DAGS, FIRST, Heard, LOGS, OF_B, OF_C, SECOND, told};
use crate::tests::plane::opening::{Dags, opened};
use crate::tests::plane::told::Row;
use crate::tests::plane::users::OF_SAMPLE;
use af_plane::{Control, Named, Parts};
use std::alloc::Global;
use std::marker::Brand;
use std::sync::Wait;
use std::test::*;
use std::thread;
use std::thread::Threads;

/// The number of the row that is told, and whether there was no memory for it at first.
type Again = (Option<usize>, bool);

/// Asks what these rows ask. Where there was no memory for it, it asks once more, and is told no row where there is none then.
fn told_again<C: Heard, R: Wait>(rt: &R, alloc: Global, shared: &C, rows: &[Row]) -> Again {
    match told(rt, alloc, shared, rows) {
        Ok(place) => (place, false),
        Err(_) => (told(rt, alloc, shared, rows).unwrap_or(None), true),
    }
}

/// What each thread is told, and then, in further sessions, of the event logs and of the DAGs.
type All = [Again; 4];

/// Each change in a thread of its own, and what stands when both have ended.
fn in_threads<C: Heard + Sync, R: Threads + Wait + Sync>(rt: &R, alloc: Global, shared: &C) -> All {
    let (first, second) = thread::join(
        rt,
        || told_again(rt, alloc, shared, OF_B),
        || told_again(rt, alloc, shared, OF_C),
    );
    let logs = told_again(rt, alloc, shared, LOGS);
    let dags = told_again(rt, alloc, shared, DAGS);
    [first, second, logs, dags]
}

/// The same, over a control of these parts.
fn told_to_two<N: Named + Send + Sync, R: Threads + Wait + Sync>(
    rt: &R,
    alloc: Global,
    parts: Parts,
) -> All
    requires board { parts.board ≡ N.name.site }
    requires plane { IsOfName N.name parts.plane }
{
    let shared = Control::<N>::of(parts);
    in_threads(rt, alloc, &shared)
}

/// What a control is made of, over the sample configuration, with room for one entry.
fn parts(alloc: Global) -> Result<Parts, Fail> {
    let (policy, state) = opened(alloc, OF_SAMPLE, Dags::Three)?;
    Ok(Parts::open(alloc, policy, 9, state, 1)?)
}

/// The same over the sample. The name is picked here.
fn play<R: Threads + Wait + Sync>(rt: &R, alloc: Global) -> Result<All, Fail> {
    let parts = parts(alloc)?;
    Ok(told_to_two::<Brand, R>(rt, alloc, parts))
}

/// Whether the change of one thread is made and the other is told that there is no room, in either order.
fn is_one_made(all: All) -> bool {
    let [(first, _), (second, _), (logs, _), (dags, _)] = all;
    let places = [first, second, logs, dags];
    places == FIRST || places == SECOND
}

/// How many of them were refused memory.
fn refusals(all: All) -> usize {
    let mut count = 0usize;
    for (_, was_refused) in all {
        if was_refused {
            count = count.saturating_add(1);
        }
    }
    count
}

#[test]
fn of_two_threads_one_has_the_last_entry_or_asks_again(rt: HostRuntime) -> Result<(), Fail> {
    let all = play(&rt, rt.alloc())?;
    holds(&rt, is_one_made(all), "the last entry");
    holds(&rt, refusals(all) <= 1, "one refusal");
    Ok(())
}
