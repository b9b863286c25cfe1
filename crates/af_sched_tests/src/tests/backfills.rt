//! Backfills of a daily DAG s that begins with 2024.
use crate::tests::asserts::{holds, row_holds};
use crate::tests::fresh::{with_new_state, with_new_states};
use crate::tests::openings::{add_dag_of_one, add_run, add_scheduled, at, instances, new_run};
use crate::tests::seen::cursor_is;
use crate::tests::steps::{Step, play};
use af_graph::{Points, Schedule, TaskState};
use af_names::{DagId, Preset};
use af_runs::{MOST_RUNS, Run, RunState, RunType};
use af_sched::{State, next_within};
use std::alloc::Global;
use std::process::Abort;
use std::test::Fail;

const NEW_YEAR: &str = "2024-01-01T00:00:00Z";

const SECOND: &str = "2024-01-02T00:00:00Z";

const THIRD: &str = "2024-01-03T00:00:00Z";

const FOURTH: &str = "2024-01-04T00:00:00Z";

const EPOCH: &str = "1970-01-01T00:00:00Z";

const RUN_OF_THE_SECOND: &str = "backfill__2024-01-02T00:00:00+00:00";

/// The id of a run, its date, and the end of its interval.
type Made = (&'static str, &'static str, &'static str);

const OF_NEW_YEAR: Made = ("backfill__2024-01-01T00:00:00+00:00", NEW_YEAR, SECOND);

const OF_THE_SECOND: Made = (RUN_OF_THE_SECOND, SECOND, THIRD);

const OF_THE_THIRD: Made = ("backfill__2024-01-03T00:00:00+00:00", THIRD, FOURTH);

const OF_THE_LAST: Made = (
    "backfill__9998-12-30T00:00:00+00:00",
    "9998-12-30T00:00:00Z",
    "9998-12-31T00:00:00Z",
);

/// A run that the DAG has, a range of dates, how many runs are made of it at most, and those that are.
#[derive(Clone, Copy)]
struct Range {
    name: &'static str,
    is_paused: bool,
    taken: Option<(&'static str, &'static str)>,
    first: &'static str,
    last: &'static str,
    most: usize,
    made: &'static [Made],
}

const RANGES: &[Range] = &[
    Range {
        name: "both ends are in it, and no date before the schedule's start is",
        is_paused: false,
        taken: None,
        first: "2023-12-30T00:00:00Z",
        last: THIRD,
        most: 100,
        made: &[OF_NEW_YEAR, OF_THE_SECOND, OF_THE_THIRD],
    },
    Range {
        name: "a date that is taken is passed over",
        is_paused: false,
        taken: Some(("m", SECOND)),
        first: NEW_YEAR,
        last: THIRD,
        most: 100,
        made: &[OF_NEW_YEAR, OF_THE_THIRD],
    },
    Range {
        name: "an id that is taken is passed over",
        is_paused: false,
        taken: Some((RUN_OF_THE_SECOND, EPOCH)),
        first: NEW_YEAR,
        last: THIRD,
        most: 100,
        made: &[OF_NEW_YEAR, OF_THE_THIRD],
    },
    Range {
        name: "a paused DAG has its runs, and those that are too many are left out",
        is_paused: true,
        taken: None,
        first: "2024-01-01T00:00:00.000001Z",
        last: FOURTH,
        most: 2,
        made: &[OF_THE_SECOND, OF_THE_THIRD],
    },
    Range {
        name: "a point with no next one is left out",
        is_paused: false,
        taken: None,
        first: "9998-12-30T00:00:00Z",
        last: "9998-12-31T23:59:59.999999Z",
        most: 100,
        made: &[OF_THE_LAST],
    },
    Range {
        name: "a range without a point has none",
        is_paused: false,
        taken: None,
        first: "2024-01-01T00:00:00.000001Z",
        last: "2024-01-01T23:59:59.999999Z",
        most: 100,
        made: &[],
    },
];

/// Whether a run is this one, queued by a backfill.
fn is_made(run: &Run, made: &Made) -> Result<bool, Fail> {
    let (date, end) = (at(made.1)?, at(made.2)?);
    let is_dated = run.logical_date == date && run.interval.start == date;
    let is_queued = run.run_type == RunType::Backfill && run.state == RunState::Queued;
    Ok(run.run_id.as_str() == made.0 && is_dated && run.interval.end == end && is_queued)
}

/// Whether the runs, without so many of the first, are these.
fn are_made(runs: &[Run], before: usize, rows: &[Made]) -> Result<bool, Fail> {
    for (run, made) in runs.iter().skip(before).zip(rows) {
        if !is_made(run, made)? {
            return Ok(false);
        }
    }
    Ok(runs.len() == rows.len().saturating_add(before))
}

/// Plans the backfill of a range, and does it: whether the plan has its runs, leaves those of the state until it is done, and
/// tells a change where there are any.
fn backfills(alloc: Global, state: &mut State, range: &Range) -> Result<bool, Fail> {
    let dag_id = DagId::parse(alloc, "s")?;
    let before = state.runs().len();
    let (first, last) = (at(range.first)?, at(range.last)?);
    let plan = state.plan_backfill(alloc, &dag_id, first, last, range.most)?;
    let is_planned = state.runs().len() == before && are_made(plan.added(), 0, range.made)?;
    let is_told = plan.changes() != range.made.is_empty();
    state.commit(plan);
    Ok(is_planned && is_told && are_made(state.runs(), before, range.made)?)
}

/// Adds a run of the DAG of this id and this date.
fn add_taken(alloc: Global, state: &mut State, run_id: &str, date: &str) -> Result<(), Fail> {
    let date = at(date)?;
    let done = instances(alloc, &[TaskState::Success])?;
    let _number = add_run(state, new_run(alloc, "s", run_id, date, done)?)?;
    Ok(())
}

/// Adds the DAG of a range, and the run that it has.
fn add_dag_of(alloc: Global, state: &mut State, range: &Range) -> Result<(), Fail> {
    add_scheduled(alloc, state, Preset::Daily, NEW_YEAR, true, range.is_paused)?;
    match range.taken {
        Some((run_id, date)) => add_taken(alloc, state, run_id, date),
        None => Ok(()),
    }
}

/// Ends the test where a backfill of a range, in a new state, does not add its runs, moves the cursor, or adds any again.
fn is_backfilled(
    rt: &impl Abort,
    alloc: Global,
    state: &mut State,
    range: &Range,
) -> Result<(), Fail> {
    add_dag_of(alloc, state, range)?;
    holds(rt, backfills(alloc, state, range)?, range.name);
    holds(rt, cursor_is(state, at(NEW_YEAR)?)?, "the cursor stays");
    let again = Range {
        made: &[],
        ..*range
    };
    holds(
        rt,
        range.most < 100 || backfills(alloc, state, &again)?,
        "once",
    );
    Ok(())
}

#[test]
fn a_range_is_backfilled(rt: HostRuntime) -> Result<(), Fail> {
    with_new_states(&rt, RANGES, is_backfilled)
}

/// The runs of the first two days.
const TWO_DAYS: Range = Range {
    name: "two days",
    is_paused: false,
    taken: None,
    first: NEW_YEAR,
    last: SECOND,
    most: 100,
    made: &[OF_NEW_YEAR, OF_THE_SECOND],
};

const THE_THIRD_DAY_IS_LEFT: &[Step] = &[
    Step::Changes(FOURTH),
    Step::Runs(3, 2),
    Step::Cursor(FOURTH),
];

#[test]
fn a_tick_passes_over_what_a_backfill_made(rt: HostRuntime) -> Result<(), Fail> {
    with_new_state(&rt, is_passed_over)
}

/// Ends the test where a tick after the backfill of two days, in a new state, makes their runs again.
fn is_passed_over(rt: &impl Abort, alloc: Global, state: &mut State) -> Result<(), Fail> {
    add_dag_of(alloc, state, &TWO_DAYS)?;
    holds(rt, backfills(alloc, state, &TWO_DAYS)?, TWO_DAYS.name);
    play(rt, alloc, state, THE_THIRD_DAY_IS_LEFT, "the third day")
}

/// Whether two days are backfilled, or the state is as before once a growth is refused.
fn is_done_or_left(alloc: Global, state: &mut State, dag_id: &DagId) -> Result<bool, Fail> {
    let (first, last) = (at(NEW_YEAR)?, at(SECOND)?);
    match state.plan_backfill(alloc, dag_id, first, last, 100) {
        Ok(plan) => {
            state.commit(plan);
            are_made(state.runs(), 0, TWO_DAYS.made)
        }
        Err(_) => Ok(state.runs().is_empty()),
    }
}

#[test]
fn a_refused_growth_leaves_what_was_there(rt: HostRuntime) -> Result<(), Fail> {
    with_new_state(&rt, is_left)
}

/// Ends the test where a DAG, added to a new state, is not as before once a growth is refused, or has not its runs where none is.
fn is_left(rt: &impl Abort, alloc: Global, state: &mut State) -> Result<(), Fail> {
    add_dag_of(alloc, state, &TWO_DAYS)?;
    let dag_id = DagId::parse(alloc, "s")?;
    holds(
        rt,
        is_done_or_left(alloc, state, &dag_id)?,
        "done, or as before",
    );
    holds(rt, cursor_is(state, at(NEW_YEAR)?)?, "the cursor stays");
    Ok(())
}

#[test]
fn no_run_is_made_of_a_dag_without_a_schedule(rt: HostRuntime) -> Result<(), Fail> {
    with_new_state(&rt, has_none)
}

/// Ends the test where a backfill of a DAG that has no schedule, or of one that is not there, is a change.
fn has_none(rt: &impl Abort, alloc: Global, state: &mut State) -> Result<(), Fail> {
    add_dag_of_one(alloc, state, "u", 1, false)?;
    holds(rt, !changes(alloc, state, "u")?, "no schedule");
    holds(rt, !changes(alloc, state, "v")?, "no such DAG");
    Ok(())
}

/// Whether a backfill of two days of the DAG of this id would change the state.
fn changes(alloc: Global, state: &mut State, dag_id: &str) -> Result<bool, Fail> {
    let dag_id = DagId::parse(alloc, dag_id)?;
    let (first, last) = (at(NEW_YEAR)?, at(SECOND)?);
    let plan = state.plan_backfill(alloc, &dag_id, first, last, 100)?;
    Ok(plan.changes())
}

#[test]
fn what_is_taken_is_told(rt: HostRuntime) -> Result<(), Fail> {
    with_new_state(&rt, is_told)
}

/// Ends the test where an id or a date of a new state, which has one run, is told taken and is not, or the other way round; or
/// there is not room for as many runs as there may be.
fn is_told(rt: &impl Abort, alloc: Global, state: &mut State) -> Result<(), Fail> {
    add_dag_of(alloc, state, &TWO_DAYS)?;
    add_taken(alloc, state, "m", SECOND)?;
    let dag_id = DagId::parse(alloc, "s")?;
    holds(rt, state.is_taken(&dag_id, "m", at(EPOCH)?), "the id");
    holds(rt, state.is_taken(&dag_id, "n", at(SECOND)?), "the date");
    holds(rt, !state.is_taken(&dag_id, "n", at(EPOCH)?), "neither");
    holds(
        rt,
        state.has_room(&dag_id, MOST_RUNS - 1),
        "room for the rest",
    );
    holds(rt, !state.has_room(&dag_id, MOST_RUNS), "and for no more");
    Ok(())
}

/// A schedule, a range of dates, and the interval of its first point, if it has one.
type First = (
    Points,
    &'static str,
    &'static str,
    Option<(&'static str, &'static str)>,
);

const FIRSTS: &[First] = &[
    (
        Points::Seconds(1),
        EPOCH,
        "9998-12-31T00:00:00Z",
        Some((NEW_YEAR, "2024-01-01T00:00:01Z")),
    ),
    (
        Points::Seconds(90),
        "2024-01-01T00:00:00.000001Z",
        "2024-01-01T00:01:30Z",
        Some(("2024-01-01T00:01:30Z", "2024-01-01T00:03:00Z")),
    ),
    (
        Points::Preset(Preset::Monthly),
        SECOND,
        "2024-01-31T23:59:59.999999Z",
        None,
    ),
    (
        Points::Preset(Preset::Weekly),
        NEW_YEAR,
        "2024-01-07T00:00:00Z",
        Some(("2024-01-07T00:00:00Z", "2024-01-14T00:00:00Z")),
    ),
];

/// Whether the first interval of a row is the one that it says.
fn is_first(row: &First) -> Result<bool, Fail> {
    let schedule = Schedule {
        points: row.0,
        start_date: at(NEW_YEAR)?,
    };
    match (next_within(&schedule, at(row.1)?, at(row.2)?), row.3) {
        (Some(found), Some((start, end))) => {
            Ok(found.start == at(start)? && found.end == at(end)?)
        }
        (None, None) => Ok(true),
        _ => Ok(false),
    }
}

#[test]
fn the_first_point_of_a_range_is_found(rt: HostRuntime) -> Result<(), Fail> {
    for (number, row) in FIRSTS.iter().enumerate() {
        row_holds(&rt, is_first(row)?, number);
    }
    Ok(())
}
