// The operation that makes runs of a range of dates.
ghost use Rattle.std.specs.Prelude.{◌≡◌, ◌≤◌, IfErr, IfOk, Ok, Err, OnOk, length, take, if◌then◌else◌};
ghost use Rattle.af_base.specs.Readings.{seen};
ghost use Rattle.af_graph.specs.Schedules.{is_scheduled};
ghost use Rattle.af_runs.specs.Runs.{is_taken};
ghost use Rattle.af_sched.specs.Backfills.{backfill_id, backfill_of, backfill_runs, backfilled};
ghost use Rattle.af_ops.specs.declared.answer.OpFault.TheVariants.{OutOfMemory};
ghost use Rattle.af_ops.specs.declared.edit.Edit.TheVariants.{Nothing, RunsPlanned};
ghost use Rattle.af_ops.specs.Decisions.{ChangesWhereDone};
ghost use Rattle.af_ops.specs.Effects.{backfilled_dag, backfilling, count_of, may_make, most_points, range_or};
ghost use Rattle.af_ops.specs.Prepared.{CanDo, IsExact, MemoryLast, done_on};

use crate::answer::OpFault;
use crate::backfill::Backfill;
use crate::body_fault::BodyFault;
use crate::edit::Edit;
use crate::operations::shared::{backfill_or, dag_or};
use crate::prepared::Prepared;
use crate::row::rows_text;
use af_graph::{Dag, Schedule};
use af_names::{DagId, Instant};
use af_sched::{Plan, State, next_within};
use arrayvec::ArrayString;
use std::alloc::{AllocError, Global};

/// The most points of a range.
const MOST_POINTS: usize = 100;

pub(crate) fn backfilled_dag(
    alloc: Global,
    state: &mut State,
    dag_id: &DagId,
    input: &Result<Backfill, BodyFault>,
) -> Result<Prepared, OpFault>
    ensures told { MemoryLast OutOfMemory (backfilled_dag state.old.rows dag_id.now input.now) (seen (done_on state.old.rows) result) }
    ensures room { IfOk result (λ prepared. CanDo state.new prepared.edit) }
    ensures exact { IfOk result (λ prepared. IsExact state.old.rows prepared.edit) }
    ensures rows { state.new.rows ≡ state.old.rows }
{
    let asked = backfill_or(input)?;
    range_or(state, dag_id, asked)?;
    let prepared = planned(alloc, state, dag_id, asked)?;
    Ok(prepared)
}

/// Nothing where the runs of a range may be made, else why not. It takes no memory to tell, and at most 101 points are looked for.
fn range_or(state: &State, dag_id: &DagId, asked: &Backfill) -> Result<(), OpFault>
    ensures ok { OnOk result (range_or state.now.rows dag_id.now asked.now ≡ Ok (backfill_of state.now.rows dag_id.now asked.now.start_date asked.now.end_date)) }
    ensures few { OnOk result (length (backfill_of state.now.rows dag_id.now asked.now.start_date asked.now.end_date) ≤ most_points) }
    ensures err { IfErr result (λ fault. range_or state.now.rows dag_id.now asked.now ≡ Err fault) }
{
    let row = dag_or(state, dag_id)?;
    let schedule = row.dag.schedule().ok_or(OpFault::NoSchedule)?;
    if may_make(state, &row.dag, &schedule, asked) {
        Ok(())
    } else {
        Err(OpFault::TooMany)
    }
}

/// Whether a range of a DAG has few enough points, and the DAG has room for the runs that are free.
fn may_make(state: &State, dag: &Dag, schedule: &Schedule, asked: &Backfill) -> bool
    ensures { result ≡ may_make state.now.rows dag.now.dag_id (backfill_runs dag.now (is_scheduled schedule.now) asked.now.start_date asked.now.end_date) }
{
    match count_free(state, dag, schedule, asked.start_date, asked.end_date) {
        Some(count) => state.has_room(dag.dag_id(), count),
        None => false,
    }
}

/// How many runs of a range of a DAG are free: neither their ids nor their dates are taken. None where the range has too many points.
fn count_free(
    state: &State,
    dag: &Dag,
    schedule: &Schedule,
    first: Instant,
    last: Instant,
) -> Option<usize>
    ensures { result ≡ count_of state.now.rows dag.now (is_scheduled schedule.now) first last }
{
    let mut free = 0;
    let mut from = first;
    for turn in 0..MOST_POINTS + 1 {
        let Some(interval) = next_within(schedule, from, last) else {
            return Some(free);
        };
        if !is_taken(state, dag.dag_id(), interval.start) {
            free += 1;
        }
        from = interval.end;
    }
    None
}

/// Whether the DAG has a run of this date, or one of the id that a backfill makes of it.
fn is_taken(state: &State, dag_id: &DagId, date: Instant) -> bool
    ensures { result ≡ is_taken state.now.rows.runs dag_id.now (backfill_id date) date }
{
    state.is_taken(dag_id, backfill_id(date).as_str(), date)
}

/// `backfill__` and the date.
fn backfill_id(date: Instant) -> ArrayString<64>
    ensures { result.bytes ≡ backfill_id date }
{
    let mut text = ArrayString::new();
    text.push_str("backfill__");
    text.push_str(date.isoformat().as_str());
    text
}

/// The first 100 runs of a range, with room for them, and the text of the reply.
fn planned(
    alloc: Global,
    state: &mut State,
    dag_id: &DagId,
    asked: &Backfill,
) -> Result<Prepared, AllocError>
    ensures told { IfOk result (λ prepared. done_on state.old.rows prepared ≡ backfilling state.old.rows (backfilled state.old.rows (take most_points (backfill_of state.old.rows dag_id.now asked.now.start_date asked.now.end_date)))) }
    ensures room { IfOk result (λ prepared. CanDo state.new prepared.edit) }
    ensures exact { IfOk result (λ prepared. IsExact state.old.rows prepared.edit) }
    ensures rows { state.new.rows ≡ state.old.rows }
{
    let plan = state.plan_backfill(alloc, dag_id, asked.start_date, asked.end_date, MOST_POINTS)?;
    let body = rows_text(alloc, "dag_runs", plan.added(), plan.added().len())?;
    Ok(Prepared::of(body, edit_of(plan)))
}

/// The edit of a plan: nothing where it adds no run.
fn edit_of(plan: Plan) -> Edit
    ensures { result ≡ (if plan.changes then RunsPlanned plan else Nothing) }
{
    if plan.changes() {
        Edit::RunsPlanned(plan)
    } else {
        Edit::Nothing
    }
}

/// Whether a backfill adds a run, where it is not refused. It takes no memory to tell.
pub(crate) fn would_backfill(state: &State, dag_id: &DagId, asked: &Backfill) -> bool
    ensures { ChangesWhereDone (backfilled_dag state.now.rows dag_id.now (Ok asked.now)) result }
{
    let Some(row) = state.dag(dag_id) else {
        return false;
    };
    let Some(schedule) = row.dag.schedule() else {
        return false;
    };
    match count_free(state, &row.dag, &schedule, asked.start_date, asked.end_date) {
        Some(count) => count > 0,
        None => false,
    }
}
