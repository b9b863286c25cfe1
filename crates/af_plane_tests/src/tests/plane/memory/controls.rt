//! Opening a control, and the calls of two users in two sessions over it.
ghost use Rattle.std.specs.Prelude.{◌≡◌};
ghost use Rattle.af_plane.specs.Names.{IsOfName};

use crate::tests::plane::asserts::story_holds;
use crate::tests::plane::calls::call;
use crate::tests::plane::memory::outcome::{Outcome, once_refused, outcome_of};
use crate::tests::plane::memory::pair::{Pair, Who};
use crate::tests::plane::memory::rows::{AFTER, DEMOTED, Row, UNCHANGED};
use crate::tests::plane::opening::{Dags, opened};
use crate::tests::plane::told;
use crate::tests::plane::told::is_told;
use crate::tests::plane::users::{OF_SAMPLE, token};
use af_names::Instant;
use af_ops::Served;
use af_plane::{Named, Parts};
use std::alloc::Global;
use std::marker::Brand;
use std::process::Abort;
use std::sync::Wait;
use std::test::*;

/// What a control is made of, over the sample configuration; none where opening it was refused memory.
fn parts(alloc: Global) -> Result<Option<Parts>, Fail> {
    let (policy, state) = opened(alloc, OF_SAMPLE, Dags::Three)?;
    Ok(Parts::open(alloc, policy, 9, state, 20).ok())
}

/// The same after it was refused.
fn other_parts(rt: &impl Abort, alloc: Global) -> Result<Parts, Fail> {
    match once_refused(rt, true, parts(alloc))? {
        Some(parts) => Ok(parts),
        None => Err(Fail::new("a control is not opened")),
    }
}

/// What a control is made of, and whether opening it was refused memory before.
fn parts_again(rt: &impl Abort, alloc: Global) -> Result<(Parts, bool), Fail> {
    match parts(alloc)? {
        Some(parts) => Ok((parts, false)),
        None => Ok((other_parts(rt, alloc)?, true)),
    }
}

/// What a session is told.
fn given<N: Named, R: Wait>(
    rt: &R,
    alloc: Global,
    pair: &mut Pair<N>,
    who: Who,
    row: told::Row,
    at: Instant,
) -> Result<Served, Fail> {
    let asked = row.0;
    let call = call(alloc, asked)?;
    let gave = pair.answered(rt, alloc, who, token(asked.0), &call, at);
    drop(call);
    Ok(gave)
}

/// Whether a session is told what a row says.
fn asks<N: Named, R: Wait>(
    rt: &R,
    alloc: Global,
    pair: &mut Pair<N>,
    who: Who,
    row: told::Row,
    at: Instant,
) -> Result<bool, Fail> {
    let gave = given(rt, alloc, pair, who, row, at)?;
    let told = is_told(&gave, row);
    drop(gave);
    told
}

/// Whether a session is told what a row says. Where there was no memory for that, it asks again, if none was refused before.
fn asks_again<N: Named, R: Wait>(
    rt: &R,
    alloc: Global,
    pair: &mut Pair<N>,
    who: Who,
    row: told::Row,
    at: Instant,
    was_refused: &mut bool,
) -> Result<bool, Fail> {
    let gave = given(rt, alloc, pair, who, row, at)?;
    let outcome = outcome_of(&gave, row);
    drop(gave);
    match outcome {
        Outcome::Told => Ok(true),
        Outcome::NothingDone if !*was_refused => {
            *was_refused = true;
            asks(rt, alloc, pair, who, row, at)
        }
        _ => Ok(false),
    }
}

/// Whether a row goes as it says.
fn goes<N: Named, R: Wait>(
    rt: &R,
    alloc: Global,
    pair: &mut Pair<N>,
    row: Row,
    at: Instant,
    was_refused: &mut bool,
) -> Result<bool, Fail> {
    let (who, row, seen) = row;
    let is_told = asks_again(rt, alloc, pair, who, row, at, was_refused)?;
    Ok(is_told && pair.seen(who) == seen)
}

/// How many of these rows go as they say, in January, up to the first that does not. Where memory was refused before, there is memory for
/// each row.
fn played<N: Named, R: Abort + Wait>(
    rt: &R,
    alloc: Global,
    pair: &mut Pair<N>,
    rows: &[Row],
    was_refused: &mut bool,
) -> Result<usize, Fail> {
    let at = Instant::read("2024-01-01T00:00:00Z")?;
    for (place, row) in rows.iter().enumerate() {
        let goes = goes(rt, alloc, pair, *row, at, was_refused);
        if !once_refused(rt, *was_refused, goes)? {
            return Ok(place);
        }
    }
    Ok(rows.len())
}

/// How many rows go as they say while vera is demoted, before b is paused, and then.
type Told = [usize; 3];

fn all_played<N: Named, R: Abort + Wait>(
    rt: &R,
    alloc: Global,
    pair: &mut Pair<N>,
    mut was_refused: bool,
) -> Result<Told, Fail> {
    let demoted = played(rt, alloc, pair, DEMOTED, &mut was_refused)?;
    let unchanged = played(rt, alloc, pair, UNCHANGED, &mut was_refused)?;
    let after = played(rt, alloc, pair, AFTER, &mut was_refused)?;
    Ok([demoted, unchanged, after])
}

/// The same with two sessions over a control of these parts.
fn demoted<N: Named, R: Abort + Wait>(
    rt: &R,
    alloc: Global,
    parts: Parts,
    was_refused: bool,
) -> Result<Told, Fail>
    requires board { parts.board ≡ N.name.site }
    requires plane { IsOfName N.name parts.plane }
{
    let mut pair = Pair::<N>::open(rt, parts);
    let told = all_played(rt, alloc, &mut pair, was_refused);
    drop(pair);
    told
}

/// The same over the sample. The name is picked here.
fn demoted_in_sample<R: Abort + Wait>(rt: &R, alloc: Global) -> Result<Told, Fail> {
    let (parts, was_refused) = parts_again(rt, alloc)?;
    demoted::<Brand, R>(rt, alloc, parts, was_refused)
}

#[test]
fn calls_of_two_users_are_answered_or_nothing_is_done(rt: HostRuntime) -> Result<(), Fail> {
    let [demoted, unchanged, after] = demoted_in_sample(&rt, rt.alloc())?;
    story_holds(&rt, demoted, DEMOTED.len(), "vera is demoted");
    story_holds(&rt, unchanged, UNCHANGED.len(), "what stands then");
    story_holds(&rt, after, AFTER.len(), "b is paused");
    Ok(())
}
