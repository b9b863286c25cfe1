ghost use Rattle.std.specs.Prelude.{◌≡◌, ◌≤◌, [], ◌∷◌, IfOk, MatchOption, take, None};
ghost use Rattle.af_names.specs.Instants.{last_micros};
ghost use Rattle.std.specs.List.{last_or};
ghost use Rattle.std.specs.Prelude.{option_to_list};
ghost use Rattle.af_graph.specs.Schedules.{is_scheduled};
ghost use Rattle.af_sched.specs.Due.{due_from, moved_cursor, taken_points};

use af_graph::Schedule;
use af_names::Instant;
use af_runs::Interval;
use std::alloc::{AllocError, Global};

/// The most points that one tick takes of a DAG.
const MOST_POINTS: usize = 16;

/// The points of a schedule, from the cursor on, that a tick at a moment takes: with catchup the first 16 that are due,
/// without it the last one. `AllocError` only where a growth was refused.
pub(crate) fn taken_points(
    alloc: Global,
    catchup: bool,
    schedule: &Schedule,
    cursor: Instant,
    at: Instant,
) -> Result<Vec<Instant>, AllocError>
    ensures { IfOk result (λ points. points.items ≡ taken_points catchup (is_scheduled schedule.now) cursor at) }
{
    if catchup {
        first_points(alloc, schedule, cursor, at)
    } else {
        last_points(alloc, schedule, cursor, at)
    }
}

/// Where the cursor stands once these points are taken: at the end of the last one's interval.
pub(crate) fn moved_cursor(
    schedule: &Schedule,
    taken: &[Instant],
    cursor: Instant,
) -> Option<Instant>
    ensures { result ≡ moved_cursor (is_scheduled schedule.now) taken.now cursor }
{
    match taken.last() {
        Some(last) => schedule.next_after(*last),
        None => Some(cursor),
    }
}

/// The first 16 points from the cursor on that are due at a moment.
fn first_points(
    alloc: Global,
    schedule: &Schedule,
    cursor: Instant,
    at: Instant,
) -> Result<Vec<Instant>, AllocError>
    ensures { IfOk result (λ points. points.items ≡ take 16 (due_from (is_scheduled schedule.now) cursor at)) }
{
    let mut points = Vec::new(alloc);
    let mut from = cursor;
    for turn in 0..MOST_POINTS {
        let Some(interval) = first_due(schedule, from, at) else {
            return Ok(points);
        };
        points.push(interval.start)?;
        from = interval.end;
    }
    Ok(points)
}

/// The last point from the cursor on that is due at a moment.
fn last_points(
    alloc: Global,
    schedule: &Schedule,
    cursor: Instant,
    at: Instant,
) -> Result<Vec<Instant>, AllocError>
    ensures { IfOk result (λ points. points.items ≡ option_to_list (last_or None (due_from (is_scheduled schedule.now) cursor at))) }
{
    let mut points = Vec::new(alloc);
    if let Some(last) = last_due(schedule, cursor, at) {
        points.push(last)?;
    }
    Ok(points)
}

/// The interval of the first point from an instant on that is due at a moment: those due after it are due from the
/// interval's end on.
fn first_due(schedule: &Schedule, from: Instant, at: Instant) -> Option<Interval>
    ensures due { MatchOption result (due_from (is_scheduled schedule.now) from at ≡ [])
        (λ interval. due_from (is_scheduled schedule.now) from at ≡ interval.start ∷ due_from (is_scheduled schedule.now) interval.end at) }
    ensures range { at ≤ last_micros }
{
    let start = schedule.next_at_or_after(from)?;
    let end = schedule.next_after(start)?;
    if end > at {
        return None;
    }
    Some(Interval { start, end })
}

/// The last point from the cursor on that is due at a moment: the one before the last point up to that moment.
fn last_due(schedule: &Schedule, cursor: Instant, at: Instant) -> Option<Instant>
    ensures due { result ≡ last_or None (due_from (is_scheduled schedule.now) cursor at) }
    ensures range { at ≤ last_micros }
{
    let end = schedule.last_at_or_before(at)?;
    let earlier = Instant::of_micros(end.micros().checked_sub(1)?)?;
    let start = schedule.last_at_or_before(earlier)?;
    if cursor > start {
        return None;
    }
    Some(start)
}
