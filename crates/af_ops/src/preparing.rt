ghost use Rattle.std.specs.Prelude.{◌≡◌, IfOk, true};
ghost use Rattle.af_policy.specs.Grants.{readable_by};
ghost use Rattle.af_policy.specs.Views.{held};
ghost use Rattle.af_ops.specs.declared.answer.OpFault.TheVariants.{OutOfMemory};
ghost use Rattle.af_ops.specs.Effects.{effect_of};
ghost use Rattle.af_ops.specs.Endpoints.{endpoint_of};
ghost use Rattle.af_ops.specs.Prepared.{CanDo, IsExact, MemoryLast, done_on};
ghost use Rattle.af_ops.specs.Table.{reads_only};
ghost use Rattle.af_base.specs.Readings.{seen};

use crate::answer::OpFault;
use crate::edit::Edit;
use crate::op::Op;
use crate::operations::backfilling::backfilled_dag;
use crate::operations::clearing::{instances_cleared, run_cleared};
use crate::operations::dags::{got_dag, listed_dags, paused_dag};
use crate::operations::deleting::run_deleted;
use crate::operations::instances::{got_instance, listed_instances};
use crate::operations::marking::run_marked;
use crate::operations::named_dags::dags_for;
use crate::operations::pools::{prepare_pools, read_pools};
use crate::operations::runs::{got_run, listed_runs};
use crate::operations::tasks::listed_tasks;
use crate::operations::triggering::triggered_run;
use crate::operations::variables::{prepare_variables, read_variables};
use crate::prepared::Prepared;
use crate::product::Product;
use crate::row::row_text;
use af_names::Instant;
use af_policy::{Reader, View};
use af_sched::State;
use std::alloc::Global;

/// Works out what a permitted operation does for a reader, at a moment, and takes all the memory for it, that for the text of
/// its reply too. It changes nothing but that spare room may grow. The faults are those of `OpFault`, in its order;
/// `OutOfMemory` only where a growth was refused, and no other fault applies.
pub fn prepare<R: Reader>(
    alloc: Global,
    state: &mut State,
    op: &Op,
    reader: &R,
    now: Instant,
) -> Result<Prepared, OpFault>
    ensures told { MemoryLast OutOfMemory (effect_of (R.reads reader.now) state.old.rows op.now now) (seen (done_on state.old.rows) result) }
    ensures room { IfOk result (λ prepared. CanDo state.new prepared.edit) }
    ensures exact { IfOk result (λ prepared. IsExact state.old.rows prepared.edit) }
    ensures rows { state.new.rows ≡ state.old.rows }
{
    match op {
        Op::Version
        | Op::ListDags(_)
        | Op::GetDag(_)
        | Op::ListTasks(_)
        | Op::ListRuns(_, _)
        | Op::GetRun(_, _)
        | Op::ListInstances(_, _, _)
        | Op::GetInstance(_, _, _) => prepare_read(alloc, state, op, reader, now),
        Op::PauseDag(dag_id, input) => paused_dag(alloc, state, dag_id, input),
        Op::TriggerRun(dag_id, input) => triggered_run(alloc, state, dag_id, input, now),
        Op::MarkRun(dag_id, run_id, input) => run_marked(alloc, state, dag_id, run_id, input, now),
        Op::DeleteRun(dag_id, run_id) => run_deleted(state, dag_id, run_id),
        Op::ClearRun(dag_id, run_id, input) => run_cleared(alloc, state, dag_id, run_id, input),
        Op::ClearInstances(dag_id, input) => instances_cleared(alloc, state, dag_id, input),
        Op::BackfillDag(dag_id, input) => backfilled_dag(alloc, state, dag_id, input),
        Op::Pool(op) => prepare_pools(alloc, state, op),
        Op::Variable(op) => prepare_variables(alloc, state, op),
    }
}

/// Works out what a permitted operation that only reads tells a reader, and takes all the memory for it. The state is only looked
/// at. The faults are those of `prepare`.
pub(crate) fn prepare_read<R: Reader>(
    alloc: Global,
    state: &State,
    op: &Op,
    reader: &R,
    now: Instant,
) -> Result<Prepared, OpFault>
    requires { reads_only (endpoint_of op.now) ≡ true }
    ensures told { MemoryLast OutOfMemory (effect_of (R.reads reader.now) state.now.rows op.now now) (seen (done_on state.now.rows) result) }
    ensures room { IfOk result (λ prepared. CanDo state.now prepared.edit) }
    ensures exact { IfOk result (λ prepared. IsExact state.now.rows prepared.edit) }
{
    match op {
        Op::Version => {
            let body = row_text(alloc, &Product)?;
            Ok(Prepared::of(body, Edit::Nothing))
        }
        Op::ListDags(asked) => listed_dags(alloc, state, asked, reader),
        Op::GetDag(dag_id) => got_dag(alloc, state, dag_id),
        Op::ListTasks(dag_id) => listed_tasks(alloc, state, dag_id),
        Op::ListRuns(dag, asked) => listed_runs(alloc, state, dag.as_ref(), asked, reader),
        Op::GetRun(dag_id, run_id) => got_run(alloc, state, dag_id, run_id),
        Op::ListInstances(dag_id, run_id, asked) => {
            listed_instances(alloc, state, dag_id, run_id, asked)
        }
        Op::GetInstance(dag_id, run_id, task_id) => {
            got_instance(alloc, state, dag_id, run_id, task_id)
        }
        Op::Pool(op) => read_pools(alloc, state, op),
        Op::Variable(op) => read_variables(alloc, state, op),
        Op::PauseDag(_, _) | Op::TriggerRun(_, _) | Op::MarkRun(_, _, _) => unreachable!(),
        Op::DeleteRun(_, _) | Op::ClearRun(_, _, _) | Op::ClearInstances(_, _) => unreachable!(),
        Op::BackfillDag(_, _) => unreachable!(),
    }
}

/// What `prepare` does for a user whom a policy grants this.
pub(crate) fn prepare_for(
    alloc: Global,
    state: &mut State,
    op: &Op,
    view: &View<'_>,
    now: Instant,
) -> Result<Prepared, OpFault>
    ensures told { MemoryLast OutOfMemory (effect_of (readable_by (held view.now)) state.old.rows op.now now) (seen (done_on state.old.rows) result) }
    ensures room { IfOk result (λ prepared. CanDo state.new prepared.edit) }
    ensures exact { IfOk result (λ prepared. IsExact state.old.rows prepared.edit) }
    ensures rows { state.new.rows ≡ state.old.rows }
{
    if op.is_read() {
        return prepare_read_for(alloc, state, op, view, now);
    }
    prepare(alloc, state, op, view, now)
}

/// What `prepare_read` does for a user whom a policy grants this. Where the user does not read all DAGs, a listing of DAGs goes
/// over those that the view names.
pub(crate) fn prepare_read_for(
    alloc: Global,
    state: &State,
    op: &Op,
    view: &View<'_>,
    now: Instant,
) -> Result<Prepared, OpFault>
    requires { reads_only (endpoint_of op.now) ≡ true }
    ensures told { MemoryLast OutOfMemory (effect_of (readable_by (held view.now)) state.now.rows op.now now) (seen (done_on state.now.rows) result) }
    ensures room { IfOk result (λ prepared. CanDo state.now prepared.edit) }
    ensures exact { IfOk result (λ prepared. IsExact state.now.rows prepared.edit) }
{
    if let Op::ListDags(asked) = op {
        return dags_for(alloc, state, asked, view);
    }
    prepare_read(alloc, state, op, view, now)
}
