// The operation that deletes a run.
ghost use Rattle.std.specs.Prelude.{◌≡◌, ◌≢◌, Err, IfOk};
ghost use Rattle.af_base.specs.Readings.{seen};
ghost use Rattle.af_ops.specs.declared.answer.OpFault.TheVariants.{OutOfMemory};
ghost use Rattle.af_ops.specs.Effects.{run_deleted};
ghost use Rattle.af_ops.specs.Prepared.{CanDo, IsExact, MemoryLast, done_on};

use crate::answer::OpFault;
use crate::edit::Edit;
use crate::operations::shared::{dag_or, run_or};
use crate::prepared::Prepared;
use af_names::{DagId, RunId};
use af_sched::State;

/// It takes no memory.
pub(crate) fn run_deleted(
    state: &State,
    dag_id: &DagId,
    run_id: &RunId,
) -> Result<Prepared, OpFault>
    ensures told { MemoryLast OutOfMemory (run_deleted state.now.rows dag_id.now run_id.now) (seen (done_on state.now.rows) result) }
    ensures room { IfOk result (λ prepared. CanDo state.now prepared.edit) }
    ensures exact { IfOk result (λ prepared. IsExact state.now.rows prepared.edit) }
    ensures unasked { result ≢ Err OutOfMemory }
{
    dag_or(state, dag_id)?;
    let run = run_or(state, dag_id, run_id)?;
    // No two runs have one number: the run of its number is the run of its ids.
    let _runs = state.runs();
    Ok(Prepared::without_reply(Edit::RunRemoved(run.number)))
}
