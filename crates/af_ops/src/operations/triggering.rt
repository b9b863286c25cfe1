// The operation that triggers a run.
ghost use Rattle.std.specs.Prelude.{◌≡◌, ℕ, List, Some, None, Err, IfErr, IfOk, IfSome, OnOk, ◌||◌};
ghost use Rattle.std.specs.List.{list_any};
ghost use Rattle.std.specs.Option.{option_copied};
ghost use Rattle.af_base.specs.Readings.{seen};
ghost use Rattle.af_runs.specs.Runs.{add_fault, is_dated, is_full, is_run};
ghost use Rattle.af_sched.specs.Additions.{IsWholeNew};
ghost use Rattle.af_ops.specs.declared.answer.OpFault.TheVariants.{OutOfMemory};
ghost use Rattle.af_ops.specs.Effects.{added_run, free_by, free_id, id_or, made_id, new_run, triggered_run};
ghost use Rattle.af_ops.specs.Prepared.{CanDo, IsExact, MemoryLast, done_on};

use crate::answer::OpFault;
use crate::body_fault::BodyFault;
use crate::edit::Edit;
use crate::operations::shared::{dag_or, trigger_or};
use crate::prepared::Prepared;
use crate::row::row_text;
use crate::trigger::Trigger;
use af_names::{DagId, Instant, RunId};
use af_runs::{Interval, MOST_RUNS, NewRun, Run, RunFault, RunType, new_instances};
use af_sched::{DagRow, State};
use arrayvec::ArrayString;
use std::alloc::{AllocError, Global};

pub(crate) fn triggered_run(
    alloc: Global,
    state: &mut State,
    dag_id: &DagId,
    input: &Result<Trigger, BodyFault>,
    now: Instant,
) -> Result<Prepared, OpFault>
    ensures told { MemoryLast OutOfMemory (triggered_run state.old.rows dag_id.now input.now now) (seen (done_on state.old.rows) result) }
    ensures room { IfOk result (λ prepared. CanDo state.new prepared.edit) }
    ensures exact { IfOk result (λ prepared. IsExact state.old.rows prepared.edit) }
    ensures rows { state.new.rows ≡ state.old.rows }
{
    let asked = trigger_or(input)?;
    let row = dag_or(state, dag_id)?;
    let date = asked.logical_date.unwrap_or(now);
    let run_id = free_id(alloc, state, dag_id, asked.dag_run_id.as_ref(), date)?;
    let new = new_run(alloc, row, dag_id, run_id, date)?;
    let prepared = added_run(alloc, state, new)?;
    Ok(prepared)
}

/// The id of the run that is triggered: the one that is given, else `manual__` and the date. A conflict is told, memory or not.
fn free_id(
    alloc: Global,
    state: &State,
    dag_id: &DagId,
    given: Option<&RunId>,
    date: Instant,
) -> Result<RunId, OpFault>
    ensures told { MemoryLast OutOfMemory (free_id state.now.rows dag_id.now (id_or (option_copied given.entry) date) date) result }
    ensures free { IfOk result (λ run_id. add_fault state.now.rows.runs state.now.rows.next_run dag_id.now run_id date ≡ None) }
{
    match given {
        Some(run_id) => given_id(alloc, state, dag_id, run_id, date),
        None => made_id(alloc, state, dag_id, date),
    }
}

/// The id that is given, where it is free.
fn given_id(
    alloc: Global,
    state: &State,
    dag_id: &DagId,
    run_id: &RunId,
    date: Instant,
) -> Result<RunId, OpFault>
    ensures told { MemoryLast OutOfMemory (free_id state.now.rows dag_id.now run_id.now date) result }
    ensures free { IfOk result (λ run_id. add_fault state.now.rows.runs state.now.rows.next_run dag_id.now run_id date ≡ None) }
{
    free(state, dag_id, run_id, date)?;
    let run_id = run_id.copied(alloc)?;
    Ok(run_id)
}

/// The id that is made of the date, where it is free.
fn made_id(alloc: Global, state: &State, dag_id: &DagId, date: Instant) -> Result<RunId, OpFault>
    ensures told { MemoryLast OutOfMemory (free_id state.now.rows dag_id.now (made_id date) date) result }
    ensures free { IfOk result (λ run_id. add_fault state.now.rows.runs state.now.rows.next_run dag_id.now run_id date ≡ None) }
{
    let text = made_text(date);
    match parsed(alloc, text.as_str()) {
        Some(run_id) => {
            free(state, dag_id, &run_id, date)?;
            Ok(run_id)
        }
        None => Err(unmade_fault(state, dag_id, text.as_str(), date)),
    }
}

/// The run id of this text. It is none where there is no memory for it: a text that is made of a date is a run id.
fn parsed(alloc: Global, text: &str) -> Option<RunId>
    ensures { IfSome result (λ run_id. run_id ≡ text.now) }
{
    RunId::parse(alloc, text).ok()
}

/// Nothing where a run of this id and this date may be added, else why not.
fn free(state: &State, dag_id: &DagId, run_id: &RunId, date: Instant) -> Result<(), OpFault>
    ensures told { IfErr result (λ fault. free_id state.now.rows dag_id.now run_id.now date ≡ Err fault) }
    ensures free { OnOk result (add_fault state.now.rows.runs state.now.rows.next_run dag_id.now run_id.now date ≡ None) }
{
    match state.run_fault(dag_id, run_id, date) {
        Some(fault) => Err(conflict(date, fault)),
        None => Ok(()),
    }
}

/// `manual__` and the date.
pub(crate) fn made_text(date: Instant) -> ArrayString<64>
    ensures { result.bytes ≡ made_id date }
{
    let mut text = ArrayString::new();
    text.push_str("manual__");
    text.push_str(date.isoformat().as_str());
    text
}

/// Why a run is not added.
fn conflict(date: Instant, fault: RunFault) -> OpFault
    ensures { (run_id : List ℕ) → free_by run_id date (Some fault) ≡ Err result }
{
    match fault {
        RunFault::RunExists => OpFault::RunExists(date),
        RunFault::DateTaken => OpFault::DateTaken(date),
        RunFault::Full => OpFault::TooMany,
        RunFault::OutOfMemory => OpFault::OutOfMemory,
    }
}

/// Why a run is not added whose id can not be made for lack of memory: what would be told of it, and else out of memory.
fn unmade_fault(state: &State, dag_id: &DagId, run_id: &str, date: Instant) -> OpFault
    ensures { MemoryLast OutOfMemory (free_id state.now.rows dag_id.now run_id.now date) (Err result) }
{
    if has_id(state.runs(), dag_id, run_id) {
        OpFault::RunExists(date)
    } else if has_date(state.runs(), dag_id, date) {
        OpFault::DateTaken(date)
    } else if is_full(state, dag_id) {
        OpFault::TooMany
    } else {
        OpFault::OutOfMemory
    }
}

/// Whether one of the runs is the DAG's of this id.
fn has_id(runs: &[Run], dag_id: &DagId, run_id: &str) -> bool
    ensures { result ≡ list_any (is_run dag_id.now run_id.now) runs.now }
{
    runs.iter().any(|run| is_run(run, dag_id, run_id))
}

fn is_run(run: &Run, dag_id: &DagId, run_id: &str) -> bool
    ensures { result ≡ is_run dag_id.now run_id.now run.now }
{
    run.dag_id == *dag_id && run.run_id.as_str() == run_id
}

/// Whether one of the runs is the DAG's of this logical date.
fn has_date(runs: &[Run], dag_id: &DagId, date: Instant) -> bool
    ensures { result ≡ list_any (is_dated dag_id.now date) runs.now }
{
    runs.iter().any(|run| is_dated(run, dag_id, date))
}

fn is_dated(run: &Run, dag_id: &DagId, date: Instant) -> bool
    ensures { result ≡ is_dated dag_id.now date run.now }
{
    run.dag_id == *dag_id && run.logical_date == date
}

/// Whether the DAG has as many runs as it may have, or no number is left for another.
fn is_full(state: &State, dag_id: &DagId) -> bool
    ensures { result ≡ is_full state.now.rows.runs state.now.rows.next_run dag_id.now }
{
    state.count_of_dag(dag_id) >= MOST_RUNS || state.next_run().is_none()
}

/// The run that is triggered. `AllocError` only where a growth was refused.
fn new_run(
    alloc: Global,
    row: &DagRow,
    dag_id: &DagId,
    run_id: RunId,
    date: Instant,
) -> Result<NewRun, AllocError>
    ensures { IfOk result (λ new. new ≡ new_run row.now dag_id.now run_id date) }
{
    let dag_id = dag_id.copied(alloc)?;
    let instances = new_instances(alloc, &row.dag)?;
    Ok(NewRun {
        dag_id,
        run_id,
        logical_date: date,
        interval: Interval {
            start: date,
            end: date,
        },
        run_type: RunType::Manual,
        instances,
    })
}

/// A run that may be added, with room for it, and the text of its reply.
fn added_run(alloc: Global, state: &mut State, new: NewRun) -> Result<Prepared, AllocError>
    requires whole { IsWholeNew state.old.rows new }
    requires free { add_fault state.old.rows.runs state.old.rows.next_run new.dag_id new.run_id new.logical_date ≡ None }
    ensures told { IfOk result (λ prepared. done_on state.old.rows prepared ≡ added_run state.old.rows new) }
    ensures room { IfOk result (λ prepared. CanDo state.new prepared.edit) }
    ensures exact { IfOk result (λ prepared. IsExact state.old.rows prepared.edit) }
    ensures rows { state.new.rows ≡ state.old.rows }
{
    state.reserve_runs(1)?;
    let body = row_text(alloc, &new)?;
    Ok(Prepared::of(body, Edit::RunAdded(new)))
}
