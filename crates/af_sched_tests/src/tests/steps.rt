use crate::tests::asserts::all_go;
use crate::tests::dags::dag_of_one;
use crate::tests::openings::{at, moment};
use crate::tests::redone::redone;
use crate::tests::seen::{are_dags, cursor_is, first_are, first_is, runs_are, states_are};
use af_graph::TaskState;
use af_names::{DagId, Instant, PoolName, RunId, TaskId};
use af_runs::{Mark, RunState};
use af_sched::{AddDagFault, Claim, DagRow, Outcome, ReportFault, State};
use std::alloc::Global;
use std::process::Abort;
use std::test::Fail;

/// What is done to a state, or seen of it.
#[derive(Clone, Copy)]
pub enum Step {
    /// A tick at this moment changes the state.
    Changes(&'static str),
    /// A tick at this moment leaves it as it was.
    Rests(&'static str),
    /// A tick at this moment is planned, which leaves the runs as they are, and is then done.
    Planned(&'static str),
    /// The next claim is the first try of this task of the first run.
    Claims(&'static str),
    /// A tick so many microseconds after 1970 changes the state, and the claim a microsecond later is of this try of run 1.
    Tries(u64, u32),
    /// There is nothing to claim.
    ClaimsNone,
    /// The next claim is of this task, and the report of this outcome is taken, both so many microseconds after 1970.
    Ends(&'static str, Outcome, u64),
    /// A report of the run of this number, this task and this try, so many microseconds after 1970, is answered so.
    Reports(u64, &'static str, u32, Outcome, u64, Result<(), ReportFault>),
    /// Task t of the runs of DAG g is cleared, or where it failed alone.
    Clears(bool),
    /// Task t of the run of this number is cleared, or where it failed alone.
    ClearsRun(u64, bool),
    /// Of task t of the runs of DAG g, or where it failed alone, the first of run 1 is chosen alone.
    Alone(bool),
    /// Whether the runs are as they were if task t of the runs of DAG g is cleared, or where it failed alone.
    Left(bool, bool),
    /// The run of this number is marked, so many microseconds after 1970.
    Marks(u64, Mark, u64),
    /// The run of this number is taken out.
    Removes(u64),
    /// A new run r of DAG g of one task gets this number.
    AddsRun(u64),
    /// The first instance is without a state, was tried so often, and may be tried so often.
    IsCleared(u32, u64),
    /// Pool p gets so many slots.
    Slots(u64),
    /// The DAG of this id is paused, or goes on.
    Paused(&'static str, bool),
    /// Adding a DAG of this id is answered so.
    Added(&'static str, Result<(), AddDagFault>),
    /// The DAGs have these ids.
    Dags(&'static [&'static str]),
    /// The instances of the first run are in these states.
    Are(&'static [TaskState]),
    /// The cursor of the first DAG is at this moment.
    Cursor(&'static str),
    /// There are so many runs, and so many of them are running.
    Runs(usize, usize),
    /// The runs are in these states.
    States(&'static [RunState]),
    /// The first run has this id, and its interval ends at this moment.
    First(&'static str, &'static str),
}

/// Ends the test where one of these steps, one after the other, does not go as it says.
pub fn play(
    rt: &impl Abort,
    alloc: Global,
    state: &mut State,
    steps: &[Step],
    what: &str,
) -> Result<(), Fail> {
    let fault = first_fault(alloc, state, steps)?;
    all_go(rt, fault, what);
    Ok(())
}

/// Of these steps, one after the other, the number of the first that does not go as it says.
pub fn first_fault(
    alloc: Global,
    state: &mut State,
    steps: &[Step],
) -> Result<Option<usize>, Fail> {
    for (number, step) in steps.iter().enumerate() {
        if !goes(alloc, state, *step)? {
            return Ok(Some(number));
        }
    }
    Ok(None)
}

/// Whether a step goes as it says.
fn goes(alloc: Global, state: &mut State, step: Step) -> Result<bool, Fail> {
    match step {
        Step::Changes(moment) => ticks(alloc, state, moment),
        Step::Rests(moment) => Ok(!ticks(alloc, state, moment)?),
        Step::Planned(moment) => planned(alloc, state, moment),
        Step::Claims(task_id) => claims(alloc, state, Some(task_id)),
        Step::ClaimsNone => claims(alloc, state, None),
        Step::Ends(_, _, _) | Step::Reports(_, _, _, _, _, _) => reported(alloc, state, step),
        _ => changed_or_seen(alloc, state, step),
    }
}

/// Whether a step that reports a claim goes as it says.
fn reported(alloc: Global, state: &mut State, step: Step) -> Result<bool, Fail> {
    match step {
        Step::Ends(task_id, outcome, micros) => ends(alloc, state, task_id, outcome, micros),
        Step::Reports(run, task_id, try_number, outcome, micros, wanted) => {
            let claim = claim_of(alloc, run, task_id, try_number)?;
            reports(state, &claim, outcome, micros, wanted)
        }
        _ => Ok(false),
    }
}

/// Whether a tick at this moment changes the state.
fn ticks(alloc: Global, state: &mut State, moment: &str) -> Result<bool, Fail> {
    Ok(state.tick(alloc, at(moment)?)?)
}

/// Whether a step that is no tick, claim or report goes as it says.
fn changed_or_seen(alloc: Global, state: &mut State, step: Step) -> Result<bool, Fail> {
    match step {
        Step::Slots(slots) => sets_slots(alloc, state, slots),
        Step::Paused(dag_id, is_paused) => is_paused_so(alloc, state, dag_id, is_paused),
        Step::Added(dag_id, wanted) => is_added(alloc, state, dag_id, wanted),
        Step::Dags(_)
        | Step::Are(_)
        | Step::Cursor(_)
        | Step::Runs(_, _)
        | Step::States(_)
        | Step::First(_, _) => seen(state, step),
        _ => redone(alloc, state, step),
    }
}

/// Pauses the DAG of this id, or lets it go on.
fn is_paused_so(
    alloc: Global,
    state: &mut State,
    dag_id: &str,
    is_paused: bool,
) -> Result<bool, Fail> {
    state.set_paused(&DagId::parse(alloc, dag_id)?, is_paused);
    Ok(true)
}

/// Whether pool p gets so many slots.
pub fn sets_slots(alloc: Global, state: &mut State, slots: u64) -> Result<bool, Fail> {
    let name = PoolName::parse(alloc, "p")?;
    Ok(state.set_slots(&name, slots).is_ok())
}

/// Whether adding a DAG of this id is answered so.
fn is_added(
    alloc: Global,
    state: &mut State,
    dag_id: &str,
    wanted: Result<(), AddDagFault>,
) -> Result<bool, Fail> {
    let row = dag_of_one(alloc, dag_id, 1, false)?;
    Ok(added_dag(state, row)? == wanted)
}

/// What adding a DAG is answered. Out of memory ends the test.
pub fn added_dag(state: &mut State, row: DagRow) -> Result<Result<(), AddDagFault>, Fail> {
    match state.add_dag(row) {
        Err(AddDagFault::OutOfMemory) => Err(AddDagFault::OutOfMemory.into()),
        told => Ok(told),
    }
}

/// Whether the state is as a step says.
fn seen(state: &State, step: Step) -> Result<bool, Fail> {
    match step {
        Step::Dags(wanted) => Ok(are_dags(state, wanted)),
        Step::Are(wanted) => Ok(first_are(state, wanted)),
        Step::Cursor(moment) => cursor_is(state, at(moment)?),
        Step::Runs(all, running) => Ok(runs_are(state, all, running)),
        Step::States(wanted) => Ok(states_are(state, wanted)),
        Step::First(run_id, end) => first_is(state, run_id, at(end)?),
        _ => Ok(false),
    }
}

/// Whether a report is answered so, and its fault told beforehand.
pub fn reports(
    state: &mut State,
    claim: &Claim,
    outcome: Outcome,
    micros: u64,
    wanted: Result<(), ReportFault>,
) -> Result<bool, Fail> {
    let at = moment(micros)?;
    let told = state.report_fault(claim);
    Ok(state.report(claim, outcome, at) == wanted && told == wanted.err())
}

/// Plans a tick, and does it: whether the plan leaves the runs as they are, and tells a change.
fn planned(alloc: Global, state: &mut State, moment: &str) -> Result<bool, Fail> {
    let before = state.runs().len();
    let plan = state.plan_tick(alloc, at(moment)?)?;
    let is_planned = plan.changes() && state.runs().len() == before;
    state.commit(plan);
    Ok(is_planned)
}

/// Whether a claim is the first try of this task of the first run.
fn is_first_try(claim: &Claim, task_id: &str) -> bool {
    claim.run_number == 1 && claim.try_number == 1 && claim.task_id.as_str() == task_id
}

/// Whether the first try of this task of the first run is claimed; of no task, whether there is nothing to claim.
fn is_claimed(claim: Option<&Claim>, wanted: Option<&str>) -> bool {
    match (claim, wanted) {
        (Some(claim), Some(task_id)) => is_first_try(claim, task_id),
        (None, None) => true,
        _ => false,
    }
}

/// Whether this is told to be claimed next.
fn is_next(alloc: Global, state: &State, wanted: Option<&str>) -> Result<bool, Fail> {
    let told = state.next_claim(alloc)?;
    Ok(is_claimed(told.as_ref(), wanted))
}

/// Whether this is told to be claimed next, and then is claimed.
fn claims(alloc: Global, state: &mut State, wanted: Option<&str>) -> Result<bool, Fail> {
    let is_next = is_next(alloc, state, wanted)?;
    let claim = state.claim(alloc, moment(3)?)?;
    Ok(is_next && is_claimed(claim.as_ref(), wanted))
}

/// Reports a claim: whether it is of this task, and the report is taken.
fn is_taken(
    state: &mut State,
    claim: &Claim,
    task_id: &str,
    outcome: Outcome,
    at: Instant,
) -> bool {
    state.report(claim, outcome, at).is_ok() && claim.task_id.as_str() == task_id
}

fn ends(
    alloc: Global,
    state: &mut State,
    task_id: &str,
    outcome: Outcome,
    micros: u64,
) -> Result<bool, Fail> {
    let at = moment(micros)?;
    match state.claim(alloc, at)? {
        Some(claim) => Ok(is_taken(state, &claim, task_id, outcome, at)),
        None => Ok(false),
    }
}

/// A claim of run r of DAG g.
pub fn claim_of(
    alloc: Global,
    run_number: u64,
    task_id: &str,
    try_number: u32,
) -> Result<Claim, Fail> {
    Ok(Claim {
        run_number,
        dag_id: DagId::parse(alloc, "g")?,
        run_id: RunId::parse(alloc, "r")?,
        task_id: TaskId::parse(alloc, task_id)?,
        try_number,
    })
}
