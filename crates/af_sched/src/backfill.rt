ghost use Rattle.std.specs.Prelude.{◌≡◌, [], ◌∷◌, IfOk, MatchOption, Some, option_copied, take};
ghost use Rattle.std.specs.Option.{option_map_or};
ghost use Rattle.af_graph.specs.Schedules.{is_scheduled};
ghost use Rattle.af_sched.specs.Backfills.{backfill_of_row, points_within};
ghost use Rattle.af_sched.specs.Due.{next_after};

use crate::dag_row::DagRow;
use crate::tick::runs_for;
use af_graph::Schedule;
use af_names::Instant;
use af_runs::{Interval, NewRun, RunType};
use std::alloc::{AllocError, Global};

/// The interval of the first point of a range of dates: the others are the points from the interval's end on. None where no
/// point of the range is left. It costs two searches of the schedule, however long the range is.
pub fn next_within(schedule: &Schedule, first: Instant, last: Instant) -> Option<Interval>
    ensures { MatchOption result (points_within (is_scheduled schedule.now) first last ≡ [])
        (λ interval. (points_within (is_scheduled schedule.now) first last ≡ interval.start ∷ points_within (is_scheduled schedule.now) interval.end last)
        × (next_after (is_scheduled schedule.now) interval.start ≡ Some interval.end)) }
{
    let start = schedule.next_at_or_after(first)?;
    if start > last {
        return None;
    }
    let end = schedule.next_after(start)?;
    Some(Interval { start, end })
}

/// The first so many runs of a range of dates of a DAG, for the intervals that begin at its points; none where the DAG is not
/// there, or has no schedule. `AllocError` only where a growth was refused.
pub(crate) fn backfill_of(
    alloc: Global,
    row: Option<&DagRow>,
    first: Instant,
    last: Instant,
    most: usize,
) -> Result<Vec<NewRun>, AllocError>
    ensures { IfOk result (λ runs. runs.items ≡ take most (option_map_or (backfill_of_row first last) (option_copied row.entry) [])) }
{
    let Some(row) = row else {
        return Ok(Vec::new(alloc));
    };
    let Some(schedule) = row.dag.schedule() else {
        return Ok(Vec::new(alloc));
    };
    let points = first_points(alloc, &schedule, first, last, most)?;
    runs_for(
        alloc,
        RunType::Backfill,
        &row.dag,
        &schedule,
        points.as_slice(),
    )
}

/// The first so many points of a range of dates.
fn first_points(
    alloc: Global,
    schedule: &Schedule,
    first: Instant,
    last: Instant,
    most: usize,
) -> Result<Vec<Instant>, AllocError>
    ensures { IfOk result (λ points. points.items ≡ take most (points_within (is_scheduled schedule.now) first last)) }
{
    let mut points = Vec::new(alloc);
    let mut from = first;
    for turn in 0..most {
        let Some(interval) = next_within(schedule, from, last) else {
            return Ok(points);
        };
        points.push(interval.start)?;
        from = interval.end;
    }
    Ok(points)
}
