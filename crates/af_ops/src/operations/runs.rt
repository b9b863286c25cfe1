// The operations that tell runs.
ghost use Rattle.std.specs.Prelude.{◌≡◌, IfOk, map};
ghost use Rattle.std.specs.Option.{option_copied};
ghost use Rattle.serde_json.specs.Written.{compact_text};
ghost use Rattle.af_base.specs.Readings.{seen};
ghost use Rattle.af_policy.specs.Grants.{shows_runs};
ghost use Rattle.af_listing.specs.Pages.{cut};
ghost use Rattle.af_runs.specs.Runs.{runs_of};
ghost use Rattle.af_ops.specs.declared.answer.OpFault.TheVariants.{OutOfMemory};
ghost use Rattle.af_ops.specs.Effects.{all_runs, got_run, listed_runs, runs_data, runs_of_dag};
ghost use Rattle.af_ops.specs.Listings.{read_rows};
ghost use Rattle.af_ops.specs.Prepared.{CanDo, IsExact, MemoryLast, done_on};

use crate::answer::OpFault;
use crate::edit::Edit;
use crate::operations::shared::{cut, dag_or, page_text, run_or, window_or};
use crate::prepared::Prepared;
use crate::row::{listing_text, row_text};
use af_listing::Window;
use af_names::{DagId, RunId};
use af_policy::{Parameter, Reader};
use af_runs::Run;
use af_sched::State;
use std::alloc::{AllocError, Global};

pub(crate) fn listed_runs<R: Reader>(
    alloc: Global,
    state: &State,
    dag: Option<&DagId>,
    asked: &Result<Window, Parameter>,
    reader: &R,
) -> Result<Prepared, OpFault>
    ensures told { MemoryLast OutOfMemory (listed_runs (shows_runs (R.reads reader.now)) state.now.rows (option_copied dag.entry) asked.now) (seen (done_on state.now.rows) result) }
    ensures room { IfOk result (λ prepared. CanDo state.now prepared.edit) }
    ensures exact { IfOk result (λ prepared. IsExact state.now.rows prepared.edit) }
{
    match dag {
        Some(dag_id) => runs_of_dag(alloc, state, dag_id, asked),
        None => all_runs(alloc, state, asked, reader),
    }
}

/// The runs of all DAGs whose runs are shown.
fn all_runs<R: Reader>(
    alloc: Global,
    state: &State,
    asked: &Result<Window, Parameter>,
    reader: &R,
) -> Result<Prepared, OpFault>
    ensures told { MemoryLast OutOfMemory (all_runs (shows_runs (R.reads reader.now)) state.now.rows asked.now) (seen (done_on state.now.rows) result) }
    ensures room { IfOk result (λ prepared. CanDo state.now prepared.edit) }
    ensures exact { IfOk result (λ prepared. IsExact state.now.rows prepared.edit) }
{
    let window = window_or(asked)?;
    let body = all_runs_text(alloc, state.runs(), reader, window)?;
    Ok(Prepared::of(body, Edit::Nothing))
}

/// The runs of one DAG.
fn runs_of_dag(
    alloc: Global,
    state: &State,
    dag_id: &DagId,
    asked: &Result<Window, Parameter>,
) -> Result<Prepared, OpFault>
    ensures told { MemoryLast OutOfMemory (runs_of_dag state.now.rows dag_id.now asked.now) (seen (done_on state.now.rows) result) }
    ensures room { IfOk result (λ prepared. CanDo state.now prepared.edit) }
    ensures exact { IfOk result (λ prepared. IsExact state.now.rows prepared.edit) }
{
    let window = window_or(asked)?;
    dag_or(state, dag_id)?;
    let body = dag_runs_text(alloc, state, dag_id, window)?;
    Ok(Prepared::of(body, Edit::Nothing))
}

/// The text of a page of the runs that are shown. Where all are, those of the page alone are looked at.
fn all_runs_text<R: Reader>(
    alloc: Global,
    runs: &[Run],
    reader: &R,
    window: Window,
) -> Result<Vec<u8>, AllocError>
    ensures { IfOk result (λ body. body.items ≡ compact_text (runs_data window (read_rows (shows_runs (R.reads reader.now)) (λ run. run.dag_id) runs.now))) }
{
    if reader.reads_all() && reader.reads_all_runs() {
        return page_text(alloc, "dag_runs", runs, window);
    }
    let listed = runs_read(alloc, runs, reader)?;
    runs_text(alloc, listed.as_slice(), window)
}

/// The text of a page of these runs.
fn runs_text(alloc: Global, runs: &[&Run], window: Window) -> Result<Vec<u8>, AllocError>
    ensures { IfOk result (λ body. body.items ≡ compact_text (runs_data window (map (λ run. run.now) runs.now))) }
{
    let shown = cut(runs, window);
    let body = listing_text(alloc, "dag_runs", shown, runs.len())?;
    Ok(body)
}

/// The runs that are shown, borrowed, in their order. `AllocError` only where a growth was refused.
fn runs_read<'a, R: Reader>(
    alloc: Global,
    runs: &'a [Run],
    reader: &R,
) -> Result<Vec<&'a Run>, AllocError>
    ensures { IfOk result (λ listed. map (λ run. run.now) listed.items ≡ read_rows (shows_runs (R.reads reader.now)) (λ run. run.dag_id) runs.now) }
{
    runs.iter()
        .filter(|run| shows_runs(reader, &(*run).dag_id))
        .collect(alloc)
}

/// Whether a reader is shown the runs of a DAG: who reads the DAG and its runs.
fn shows_runs<R: Reader>(reader: &R, dag: &DagId) -> bool
    ensures { result ≡ shows_runs (R.reads reader.now) dag.now }
{
    reader.readable(dag) && reader.runs_readable(dag)
}

/// The text of a page of the runs of a DAG. The runs of other DAGs are not looked at.
fn dag_runs_text(
    alloc: Global,
    state: &State,
    dag_id: &DagId,
    window: Window,
) -> Result<Vec<u8>, AllocError>
    ensures { IfOk result (λ body. body.items ≡ compact_text (runs_data window (runs_of state.now.rows.runs dag_id.now))) }
{
    let shown = page_of_dag(alloc, state, dag_id, window)?;
    let total = state.count_of_dag(dag_id);
    let body = listing_text(alloc, "dag_runs", shown.as_slice(), total)?;
    Ok(body)
}

/// A page of the runs of a DAG, borrowed. `AllocError` only where a growth was refused.
fn page_of_dag<'a>(
    alloc: Global,
    state: &'a State,
    dag_id: &DagId,
    window: Window,
) -> Result<Vec<&'a Run>, AllocError>
    ensures { IfOk result (λ listed. map (λ run. run.now) listed.items ≡ cut window (runs_of state.now.rows.runs dag_id.now)) }
{
    state
        .runs_of_dag(dag_id, window.offset())
        .take(window.limit())
        .collect(alloc)
}

pub(crate) fn got_run(
    alloc: Global,
    state: &State,
    dag_id: &DagId,
    run_id: &RunId,
) -> Result<Prepared, OpFault>
    ensures told { MemoryLast OutOfMemory (got_run state.now.rows dag_id.now run_id.now) (seen (done_on state.now.rows) result) }
    ensures room { IfOk result (λ prepared. CanDo state.now prepared.edit) }
    ensures exact { IfOk result (λ prepared. IsExact state.now.rows prepared.edit) }
{
    dag_or(state, dag_id)?;
    let run = run_or(state, dag_id, run_id)?;
    let body = row_text(alloc, run)?;
    Ok(Prepared::of(body, Edit::Nothing))
}
