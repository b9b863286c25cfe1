use crate::tests::asserts::holds;
use crate::tests::fresh::with_new_states;
use crate::tests::openings::{add_run, add_scheduled, at, instances, new_run};
use crate::tests::steps::{Step, first_fault, play};
use af_graph::TaskState;
use af_names::Preset;
use af_sched::State;
use std::alloc::Global;
use std::process::Abort;
use std::test::Fail;

const NEW_YEAR: &str = "2024-01-01T00:00:00Z";

const ONE_HOUR_LATER: &str = "2024-01-01T01:00:00Z";

const SIXTEEN_HOURS_LATER: &str = "2024-01-01T16:00:00Z";

const ONE_DAY_LATER: &str = "2024-01-02T00:00:00Z";

const FIRST_SUNDAY: &str = "2024-01-07T00:00:00Z";

const END_OF_JANUARY: &str = "2024-01-31T00:00:00Z";

const FEBRUARY: &str = "2024-02-01T00:00:00Z";

const BEFORE_MARCH: &str = "2024-02-29T23:59:59.999999Z";

const MARCH: &str = "2024-03-01T00:00:00Z";

const MAY: &str = "2024-05-01T00:00:00Z";

const MIDDLE_OF_MAY: &str = "2024-05-15T00:00:00Z";

const RUN_OF_FEBRUARY: &str = "scheduled__2024-02-01T00:00:00+00:00";

const RUN_OF_APRIL: &str = "scheduled__2024-04-01T00:00:00+00:00";

const EPOCH: &str = "1970-01-01T00:00:00Z";

const QUEUED: &[TaskState] = &[TaskState::Queued];

const A_MONTH_HAS_ITS_RUN: &[Step] = &[
    Step::Rests(BEFORE_MARCH),
    Step::Changes(MARCH),
    Step::First(RUN_OF_FEBRUARY, MARCH),
    Step::Runs(1, 1),
    Step::Are(QUEUED),
    Step::Cursor(MARCH),
    Step::Rests(MARCH),
];

const THE_LAST_MONTH_HAS_ITS_RUN: &[Step] = &[
    Step::Changes(MIDDLE_OF_MAY),
    Step::First(RUN_OF_APRIL, MAY),
    Step::Runs(1, 1),
    Step::Cursor(MAY),
];

const A_WEEK_BEGINS_ON_SUNDAY: &[Step] = &[Step::Cursor(FIRST_SUNDAY)];

const ONE_TICK_TAKES_SIXTEEN_POINTS: &[Step] = &[
    Step::Changes(ONE_DAY_LATER),
    Step::Runs(16, 2),
    Step::Cursor(SIXTEEN_HOURS_LATER),
];

const A_PLANNED_TICK_IS_THEN_DONE: &[Step] = &[
    Step::Planned(ONE_DAY_LATER),
    Step::Runs(16, 2),
    Step::Cursor(SIXTEEN_HOURS_LATER),
];

const A_PAUSED_DAG_HAS_NO_RUN: &[Step] = &[
    Step::Rests(ONE_DAY_LATER),
    Step::Cursor(NEW_YEAR),
    Step::Paused("s", false),
    Step::Changes(ONE_HOUR_LATER),
    Step::Runs(1, 1),
    Step::Paused("s", true),
    Step::Rests(ONE_DAY_LATER),
];

const FEBRUARY_IS_PASSED_OVER: &[Step] = &[
    Step::Changes(MARCH),
    Step::Runs(1, 0),
    Step::Cursor(MARCH),
];

/// A DAG of these points, and what becomes of it.
#[derive(Clone, Copy)]
struct Story {
    name: &'static str,
    preset: Preset,
    start: &'static str,
    catchup: bool,
    is_paused: bool,
    steps: &'static [Step],
}

const STORIES: &[Story] = &[
    Story {
        name: "a month has its run",
        preset: Preset::Monthly,
        start: END_OF_JANUARY,
        catchup: true,
        is_paused: false,
        steps: A_MONTH_HAS_ITS_RUN,
    },
    Story {
        name: "without catchup the last month has its run",
        preset: Preset::Monthly,
        start: END_OF_JANUARY,
        catchup: false,
        is_paused: false,
        steps: THE_LAST_MONTH_HAS_ITS_RUN,
    },
    Story {
        name: "a week begins on Sunday",
        preset: Preset::Weekly,
        start: NEW_YEAR,
        catchup: true,
        is_paused: false,
        steps: A_WEEK_BEGINS_ON_SUNDAY,
    },
    Story {
        name: "one tick takes sixteen points",
        preset: Preset::Hourly,
        start: NEW_YEAR,
        catchup: true,
        is_paused: false,
        steps: ONE_TICK_TAKES_SIXTEEN_POINTS,
    },
    Story {
        name: "a planned tick is then done",
        preset: Preset::Hourly,
        start: NEW_YEAR,
        catchup: true,
        is_paused: false,
        steps: A_PLANNED_TICK_IS_THEN_DONE,
    },
    Story {
        name: "a paused DAG has no run, and one once it goes on",
        preset: Preset::Hourly,
        start: NEW_YEAR,
        catchup: true,
        is_paused: true,
        steps: A_PAUSED_DAG_HAS_NO_RUN,
    },
];

/// Adds the DAG of a story.
fn add_dag_of(alloc: Global, state: &mut State, story: &Story) -> Result<(), Fail> {
    let (catchup, is_paused) = (story.catchup, story.is_paused);
    add_scheduled(alloc, state, story.preset, story.start, catchup, is_paused)
}

/// Ends the test where a story does not go as it says from a new state on.
fn goes(rt: &impl Abort, alloc: Global, state: &mut State, story: &Story) -> Result<(), Fail> {
    add_dag_of(alloc, state, story)?;
    play(rt, alloc, state, story.steps, story.name)
}

#[test]
fn runs_fall_due_by_the_schedule(rt: HostRuntime) -> Result<(), Fail> {
    with_new_states(&rt, STORIES, goes)
}

/// Adds a run of DAG s of this id and this date, whose instance has succeeded.
fn add_done(alloc: Global, state: &mut State, run_id: &str, date: &str) -> Result<(), Fail> {
    let date = at(date)?;
    let done = instances(alloc, &[TaskState::Success])?;
    let _number = add_run(state, new_run(alloc, "s", run_id, date, done)?)?;
    Ok(())
}

/// Adds a DAG that is due in February, and a run of it of this id and this date.
fn add_taken(alloc: Global, state: &mut State, run_id: &str, date: &str) -> Result<(), Fail> {
    add_scheduled(alloc, state, Preset::Monthly, END_OF_JANUARY, true, false)?;
    add_done(alloc, state, run_id, date)
}

/// Ends the test where February is not passed over, with the cursor at March, in a new state that has a run of a row.
fn is_passed_over(
    rt: &impl Abort,
    alloc: Global,
    state: &mut State,
    row: &Taken,
) -> Result<(), Fail> {
    add_taken(alloc, state, row.0, row.1)?;
    let fault = first_fault(alloc, state, FEBRUARY_IS_PASSED_OVER)?;
    holds(rt, fault.is_none(), row.0);
    Ok(())
}

/// An id and a date, of which one is February's.
type Taken = (&'static str, &'static str);

const TAKEN: &[Taken] = &[(RUN_OF_FEBRUARY, EPOCH), ("february", FEBRUARY)];

#[test]
fn a_taken_id_or_date_is_passed_over(rt: HostRuntime) -> Result<(), Fail> {
    with_new_states(&rt, TAKEN, is_passed_over)
}
