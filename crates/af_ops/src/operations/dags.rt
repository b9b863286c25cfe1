// The operations on DAGs.
ghost use Rattle.std.specs.Prelude.{◌≡◌, IfOk, if◌then◌else◌, Some, None};
ghost use Rattle.serde_json.specs.Written.{compact_text};
ghost use Rattle.af_sched.specs.State.{StateRows, StateWithRoom, with_paused};
ghost use Rattle.af_ops.specs.declared.answer.OpFault.TheVariants.{OutOfMemory};
ghost use Rattle.af_ops.specs.Edits.{next_by};
ghost use Rattle.af_ops.specs.Effects.{dags_data, differs, got_dag, listed_dags, paused_dag};
ghost use Rattle.af_ops.specs.Prepared.{CanDo, IsExact, MemoryLast, done_on};
ghost use Rattle.af_base.specs.Readings.{seen};

use crate::answer::OpFault;
use crate::body_fault::BodyFault;
use crate::dag_text::PausedRow;
use crate::edit::Edit;
use crate::operations::shared::{cut, dag_or, page_text, rows_read, truth_or, window_or};
use crate::prepared::Prepared;
use crate::row::{listing_text, row_text};
use af_listing::Window;
use af_names::DagId;
use af_policy::{Parameter, Reader};
use af_sched::{DagRow, State};
use std::alloc::{AllocError, Global};

pub(crate) fn listed_dags<R: Reader>(
    alloc: Global,
    state: &State,
    asked: &Result<Window, Parameter>,
    reader: &R,
) -> Result<Prepared, OpFault>
    ensures told { MemoryLast OutOfMemory (listed_dags (R.reads reader.now).dags state.now.rows asked.now) (seen (done_on state.now.rows) result) }
    ensures room { IfOk result (λ prepared. CanDo state.now prepared.edit) }
    ensures exact { IfOk result (λ prepared. IsExact state.now.rows prepared.edit) }
{
    let window = window_or(asked)?;
    let body = dags_text(alloc, state.dags(), reader, window)?;
    Ok(Prepared::of(body, Edit::Nothing))
}

/// The text of a page of the DAGs that are read. Where all are, those of the page alone are looked at.
fn dags_text<R: Reader>(
    alloc: Global,
    dags: &[DagRow],
    reader: &R,
    window: Window,
) -> Result<Vec<u8>, AllocError>
    ensures { IfOk result (λ body. body.items ≡ compact_text (dags_data (R.reads reader.now).dags window dags.now)) }
{
    if reader.reads_all() {
        return page_text(alloc, "dags", dags, window);
    }
    chosen_text(alloc, dags, reader, window)
}

/// The text of a page of the DAGs that are read, each of which is looked at.
fn chosen_text<R: Reader>(
    alloc: Global,
    dags: &[DagRow],
    reader: &R,
    window: Window,
) -> Result<Vec<u8>, AllocError>
    ensures { IfOk result (λ body. body.items ≡ compact_text (dags_data (R.reads reader.now).dags window dags.now)) }
{
    let listed = rows_read(alloc, dags, reader)?;
    let shown = cut(listed.as_slice(), window);
    let body = listing_text(alloc, "dags", shown, listed.len())?;
    Ok(body)
}

pub(crate) fn got_dag(alloc: Global, state: &State, dag_id: &DagId) -> Result<Prepared, OpFault>
    ensures told { MemoryLast OutOfMemory (got_dag state.now.rows dag_id.now) (seen (done_on state.now.rows) result) }
    ensures room { IfOk result (λ prepared. CanDo state.now prepared.edit) }
    ensures exact { IfOk result (λ prepared. IsExact state.now.rows prepared.edit) }
{
    let row = dag_or(state, dag_id)?;
    let body = row_text(alloc, row)?;
    Ok(Prepared::of(body, Edit::Nothing))
}

pub(crate) fn paused_dag(
    alloc: Global,
    state: &State,
    dag_id: &DagId,
    input: &Result<bool, BodyFault>,
) -> Result<Prepared, OpFault>
    ensures told { MemoryLast OutOfMemory (paused_dag state.now.rows dag_id.now input.now) (seen (done_on state.now.rows) result) }
    ensures room { IfOk result (λ prepared. CanDo state.now prepared.edit) }
    ensures exact { IfOk result (λ prepared. IsExact state.now.rows prepared.edit) }
{
    let is_paused = truth_or(input)?;
    let row = dag_or(state, dag_id)?;
    let body = row_text(alloc, &PausedRow { row, is_paused })?;
    let edit = pause_edit(alloc, row, dag_id, is_paused)?;
    Ok(Prepared::of(body, edit))
}

/// The edit that pauses a DAG, or does not: nothing where it stands so already.
fn pause_edit(
    alloc: Global,
    row: &DagRow,
    dag_id: &DagId,
    is_paused: bool,
) -> Result<Edit, AllocError>
    ensures room { IfOk result (λ edit. (state : StateWithRoom) → CanDo state edit) }
    ensures next { IfOk result (λ edit. (state : StateRows) → next_by edit state ≡ (if differs row.now is_paused then Some (record state { dags = with_paused state.dags dag_id.now is_paused }) else None)) }
{
    if differs(row, is_paused) {
        let dag_id = dag_id.copied(alloc)?;
        Ok(Edit::DagPaused(dag_id, is_paused))
    } else {
        Ok(Edit::Nothing)
    }
}

pub(crate) fn differs(row: &DagRow, is_paused: bool) -> bool
    ensures { result ≡ differs row.now is_paused }
{
    if is_paused {
        !row.is_paused
    } else {
        row.is_paused
    }
}
