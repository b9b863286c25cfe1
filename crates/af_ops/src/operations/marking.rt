// The operation that marks a run.
ghost use Rattle.std.specs.Prelude.{◌≡◌, IfOk, if◌then◌else◌};
ghost use Rattle.af_base.specs.Readings.{seen};
ghost use Rattle.af_runs.specs.Marks.{is_marked};
ghost use Rattle.af_ops.specs.declared.answer.OpFault.TheVariants.{OutOfMemory};
ghost use Rattle.af_ops.specs.declared.edit.Edit.TheVariants.{Nothing, RunMarked};
ghost use Rattle.af_ops.specs.Effects.{run_marked};
ghost use Rattle.af_ops.specs.Prepared.{CanDo, IsExact, MemoryLast, done_on};

use crate::answer::OpFault;
use crate::body_fault::BodyFault;
use crate::edit::Edit;
use crate::operations::shared::{dag_or, mark_or, run_or};
use crate::prepared::Prepared;
use crate::row::row_text;
use crate::run_text::MarkedRow;
use af_names::{DagId, Instant, RunId};
use af_runs::{Mark, Run};
use af_sched::State;
use std::alloc::Global;

pub(crate) fn run_marked(
    alloc: Global,
    state: &State,
    dag_id: &DagId,
    run_id: &RunId,
    input: &Result<Mark, BodyFault>,
    now: Instant,
) -> Result<Prepared, OpFault>
    ensures told { MemoryLast OutOfMemory (run_marked state.now.rows dag_id.now run_id.now input.now now) (seen (done_on state.now.rows) result) }
    ensures room { IfOk result (λ prepared. CanDo state.now prepared.edit) }
    ensures exact { IfOk result (λ prepared. IsExact state.now.rows prepared.edit) }
{
    let mark = mark_or(input)?;
    dag_or(state, dag_id)?;
    let run = run_or(state, dag_id, run_id)?;
    let at = now;
    let body = row_text(alloc, &MarkedRow { run, mark, at })?;
    // No two runs have one number: the run of its number is the run of its ids.
    let _runs = state.runs();
    Ok(Prepared::of(body, mark_edit(run, mark, at)))
}

/// The edit that marks a run: nothing where it stands so already.
fn mark_edit(run: &Run, mark: Mark, at: Instant) -> Edit
    ensures { result ≡ (if is_marked mark run.now then Nothing else RunMarked run.now.number mark at) }
{
    if run.is_marked(mark) {
        Edit::Nothing
    } else {
        Edit::RunMarked(run.number, mark, at)
    }
}
