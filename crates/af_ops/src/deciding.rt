ghost use Rattle.std.specs.Prelude.{◌≡◌, ◌<◌, ◌≤◌, ◌↔◌, ℕ, List, Bool, false, true, Err, IfErr, IfOk, Ok, if◌then◌else◌};
ghost use Rattle.af_base.specs.Readings.{seen};
ghost use Rattle.af_policy.specs.Grants.{Readable, readable_by};
ghost use Rattle.af_policy.specs.Views.{held};
ghost use Rattle.af_ops.specs.declared.answer.CallFault.{CallFault};
ghost use Rattle.af_ops.specs.declared.answer.OpFault.TheVariants.{HistoryFull, OutOfMemory};
ghost use Rattle.af_ops.specs.declared.answer.Under.{Under};
ghost use Rattle.af_ops.specs.Decisions.{ChangesWhereDone, IsDecided, chooses};
ghost use Rattle.af_ops.specs.Edits.{is_edit};
ghost use Rattle.af_ops.specs.Endpoints.{endpoint_of};
ghost use Rattle.af_ops.specs.Prepared.{CanDo, IsExact, MemoryLast, told_alone};
ghost use Rattle.af_ops.specs.Table.{reads_only};
ghost use Rattle.af_ops.specs.Verdicts.{done, granted_verdict};
ghost use Rattle.af_ops.specs.Effects.{effect_of, paused_dag, run_marked};

use crate::answer::{CallFault, OpFault, Under};
use crate::body::Body;
use crate::op::Op;
use crate::operations::backfilling::would_backfill;
use crate::operations::dags::differs;
use crate::operations::pools::would_change_pools;
use crate::operations::variables::would_change_variables;
use crate::prepared::Prepared;
use crate::preparing::{prepare_for, prepare_read_for};
use crate::table::needs_for;
use af_names::{DagId, Instant, RunId};
use af_policy::View;
use af_runs::Mark;
use af_sched::State;
use std::alloc::Global;

/// Decides what a user asks whom a policy grants this, an operation that is not open, and works out what it does, with all the memory for
/// that. It changes nothing but that spare room may grow. A change is refused where there are as many entries as the limit. Out of memory
/// is told only of an operation that is permitted and not refused.
pub fn decide_for(
    alloc: Global,
    view: &View<'_>,
    state: &mut State,
    under: Under,
    limit: u32,
    op: &Op,
    now: Instant,
) -> Result<Prepared, CallFault>
    ensures verdict { IsDecided op.now state.old.rows (granted_verdict limit (held view.now) (record { under = under; state = state.old.rows }) op.now now) result }
    ensures room { IfOk result (λ prepared. CanDo state.new prepared.edit) }
    ensures exact { IfOk result (λ prepared. IsExact state.old.rows prepared.edit) }
    ensures entries { IfOk result (λ prepared. is_edit prepared.edit ≡ true → under.seq < limit) }
    ensures rows { state.new.rows ≡ state.old.rows }
{
    match view.missing(needs_for(op), op.dag(), state.dags()) {
        Some(need) => Err(CallFault::Denied(need)),
        None => permitted(alloc, view, state, under, limit, op, now),
    }
}

/// Works out a permitted operation. A change is refused where there is no room for its entry.
fn permitted(
    alloc: Global,
    view: &View<'_>,
    state: &mut State,
    under: Under,
    limit: u32,
    op: &Op,
    now: Instant,
) -> Result<Prepared, CallFault>
    ensures verdict { IsDecided op.now state.old.rows (done limit under (effect_of (readable_by (held view.now)) state.old.rows op.now now)) result }
    ensures room { IfOk result (λ prepared. CanDo state.new prepared.edit) }
    ensures exact { IfOk result (λ prepared. IsExact state.old.rows prepared.edit) }
    ensures entries { IfOk result (λ prepared. is_edit prepared.edit ≡ true → under.seq < limit) }
    ensures rows { state.new.rows ≡ state.old.rows }
{
    match prepare_for(alloc, state, op, view, now) {
        Ok(prepared) => match with_room(prepared, under, limit) {
            Ok(prepared) => Ok(prepared),
            Err(fault) => Err(CallFault::Op(fault)),
        },
        Err(fault) => {
            if is_full(state, under, limit, op, &fault) {
                return Err(CallFault::Op(OpFault::HistoryFull));
            }
            Err(CallFault::Op(fault))
        }
    }
}

/// Decides what a user asks whom a policy grants this, an operation that only reads, and gives the body of its reply, if it has one.
/// The state is only looked at. There is no entry, so the verdict is the same whatever their limit, their number and the policy
/// version. Out of memory is told only of an operation that is permitted and not refused.
pub fn read_for(
    alloc: Global,
    view: &View<'_>,
    state: &State,
    op: &Op,
    now: Instant,
) -> Result<Option<Body>, CallFault>
    requires { reads_only (endpoint_of op.now) ≡ true }
    ensures verdict { (limit : ℕ) (under : Under) → IsDecided op.now state.now.rows (granted_verdict limit (held view.now) (record { under = under; state = state.now.rows }) op.now now) (seen told_alone result) }
{
    if let Some(need) = view.missing(needs_for(op), op.dag(), state.dags()) {
        return Err(CallFault::Denied(need));
    }
    permitted_read(alloc, view, state, op, now)
}

/// Works out a permitted operation that only reads.
fn permitted_read(
    alloc: Global,
    view: &View<'_>,
    state: &State,
    op: &Op,
    now: Instant,
) -> Result<Option<Body>, CallFault>
    requires { reads_only (endpoint_of op.now) ≡ true }
    ensures verdict { (limit : ℕ) (under : Under) → IsDecided op.now state.now.rows (done limit under (effect_of (readable_by (held view.now)) state.now.rows op.now now)) (seen told_alone result) }
{
    match prepare_read_for(alloc, state, op, view, now) {
        Ok(prepared) => Ok(prepared.into_reply()),
        Err(fault) => Err(CallFault::Op(fault)),
    }
}

/// What is worked out, where there is room for the entry that it wants; else a full history is told, memory or not.
fn with_room(prepared: Prepared, under: Under, limit: u32) -> Result<Prepared, OpFault>
    ensures ok { IfOk result (λ it. (it ≡ prepared) × (is_edit prepared.edit ≡ true → under.seq < limit)) }
    ensures err { IfErr result (λ fault. (fault ≡ HistoryFull) × (is_edit prepared.edit ≡ true) × (limit ≤ under.seq)) }
{
    if prepared.changes() && under.seq >= limit {
        return Err(OpFault::HistoryFull);
    }
    Ok(prepared)
}

/// Whether a fault is told as a full history: it is out of memory for a change, for whose entry there is no room, memory or not;
/// but of one that chooses instances the want is told.
fn is_full(state: &State, under: Under, limit: u32, op: &Op, fault: &OpFault) -> bool
    ensures { (reads : Readable) (now : ℕ) → MemoryLast OutOfMemory (effect_of reads state.now.rows op.now now) (Err fault.now)
        → IsDecided op.now state.now.rows (done limit under (effect_of reads state.now.rows op.now now)) (Err (CallFault.Op (if result then HistoryFull else fault.now))) }
{
    if !is_want(fault) {
        return false;
    }
    if under.seq < limit {
        return false;
    }
    if chooses(op) {
        return false;
    }
    would_change(state, op)
}

/// Whether it takes memory to tell that an operation changes the state.
fn chooses(op: &Op) -> bool
    ensures { result ≡ chooses op.now }
{
    matches!(op, Op::ClearRun(_, _, _) | Op::ClearInstances(_, _))
}

/// Whether it is out of memory.
fn is_want(fault: &OpFault) -> bool
    ensures { (result ≡ true) ↔ (fault.now ≡ OutOfMemory) }
{
    matches!(fault, OpFault::OutOfMemory)
}

/// Whether an operation that chooses no instances changes the state, where it is not refused. It takes no memory to tell.
fn would_change(state: &State, op: &Op) -> bool
    ensures { (reads : Readable) (now : ℕ) → chooses op.now ≡ false → ChangesWhereDone (effect_of reads state.now.rows op.now now) result }
{
    match op {
        Op::PauseDag(dag_id, Ok(is_paused)) => would_pause(state, dag_id, *is_paused),
        Op::TriggerRun(_, Ok(_)) => true,
        Op::MarkRun(dag_id, run_id, Ok(mark)) => would_mark(state, dag_id, run_id, *mark),
        Op::DeleteRun(_, _) => true,
        Op::BackfillDag(dag_id, Ok(asked)) => would_backfill(state, dag_id, asked),
        Op::PauseDag(_, Err(_)) | Op::TriggerRun(_, Err(_)) | Op::MarkRun(_, _, Err(_)) => false,
        Op::BackfillDag(_, Err(_)) => false,
        Op::Version
        | Op::ListDags(_)
        | Op::GetDag(_)
        | Op::ListTasks(_)
        | Op::ListRuns(_, _)
        | Op::GetRun(_, _)
        | Op::ListInstances(_, _, _)
        | Op::GetInstance(_, _, _) => false,
        Op::ClearRun(_, _, _) | Op::ClearInstances(_, _) => false,
        Op::Pool(op) => would_change_pools(state, op),
        Op::Variable(op) => would_change_variables(state, op),
    }
}

/// Whether a DAG is to stand otherwise than it does, where it is there.
fn would_pause(state: &State, dag_id: &DagId, is_paused: bool) -> bool
    ensures { ChangesWhereDone (paused_dag state.now.rows dag_id.now (Ok is_paused)) result }
{
    match state.dag(dag_id) {
        Some(row) => differs(row, is_paused),
        None => false,
    }
}

/// Whether a run is not yet marked so, where it is there.
fn would_mark(state: &State, dag_id: &DagId, run_id: &RunId, mark: Mark) -> bool
    ensures { (now : ℕ) → ChangesWhereDone (run_marked state.now.rows dag_id.now run_id.now (Ok mark) now) result }
{
    match state.run(dag_id, run_id) {
        Some(run) => !run.is_marked(mark),
        None => false,
    }
}
