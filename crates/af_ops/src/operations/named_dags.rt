// The listing of the DAGs that a user reads.
ghost use Rattle.std.specs.Prelude.{◌≡◌, ◌++◌, [], IfOk, OnOk, map};
ghost use Rattle.std.specs.List.{cons_option, filter_map};
ghost use Rattle.std.specs.Option.{option_copied};
ghost use Rattle.serde_json.specs.Written.{compact_text};
ghost use Rattle.af_base.specs.Readings.{seen};
ghost use Rattle.af_role.specs.Pairs.{on_dag};
ghost use Rattle.af_role.specs.declared.action.Action.TheVariants.{Read};
ghost use Rattle.af_policy.specs.Grants.{reads_dag};
ghost use Rattle.af_policy.specs.Views.{held};
ghost use Rattle.af_sched.specs.State.{dag_of};
ghost use Rattle.af_ops.specs.declared.answer.OpFault.TheVariants.{OutOfMemory};
ghost use Rattle.af_ops.specs.Effects.{dags_data, listed_dags};
ghost use Rattle.af_ops.specs.Listings.{read_rows};
ghost use Rattle.af_ops.specs.Prepared.{CanDo, IsExact, MemoryLast, done_on};

use crate::answer::OpFault;
use crate::edit::Edit;
use crate::operations::shared::{cut, page_text, window_or};
use crate::prepared::Prepared;
use crate::row::listing_text;
use af_listing::Window;
use af_policy::{NamedDag, Parameter, Reader, View};
use af_sched::{DagRow, State};
use std::alloc::{AllocError, Global};

pub(crate) fn dags_for(
    alloc: Global,
    state: &State,
    asked: &Result<Window, Parameter>,
    view: &View<'_>,
) -> Result<Prepared, OpFault>
    ensures told { MemoryLast OutOfMemory (listed_dags (reads_dag (held view.now)) state.now.rows asked.now) (seen (done_on state.now.rows) result) }
    ensures room { IfOk result (λ prepared. CanDo state.now prepared.edit) }
    ensures exact { IfOk result (λ prepared. IsExact state.now.rows prepared.edit) }
{
    let window = window_or(asked)?;
    let body = text_for(alloc, state, view, window)?;
    Ok(Prepared::of(body, Edit::Nothing))
}

/// The text of a page of the DAGs that a user reads. Where all are read, those of the page alone are looked at, else those that
/// the view names.
fn text_for(
    alloc: Global,
    state: &State,
    view: &View<'_>,
    window: Window,
) -> Result<Vec<u8>, AllocError>
    ensures { IfOk result (λ body. body.items ≡ compact_text (dags_data (reads_dag (held view.now)) window state.now.rows.dags)) }
{
    if view.reads_all() {
        return page_text(alloc, "dags", state.dags(), window);
    }
    let listed = rows_named(alloc, state, view)?;
    let shown = cut(listed.as_slice(), window);
    let body = listing_text(alloc, "dags", shown, listed.len())?;
    Ok(body)
}

/// The DAGs that are there and that a view names, borrowed, by id. `AllocError` only where a growth was refused.
fn rows_named<'a>(
    alloc: Global,
    state: &'a State,
    view: &View<'_>,
) -> Result<Vec<&'a DagRow>, AllocError>
    ensures { IfOk result (λ listed. map (λ row. row.now) listed.items ≡ read_rows (λ dag. held view.now (on_dag Read dag)) (λ row. row.dag.dag_id) state.now.rows.dags) }
{
    let _dags = state.dags();
    let named = view.named(alloc)?;
    let listed = rows_of(alloc, state, named.rows())?;
    Ok(listed)
}

/// The DAGs of these ids, of those that are there, borrowed, in the order of the ids. `AllocError` only where a growth was refused.
fn rows_of<'a>(
    alloc: Global,
    state: &'a State,
    named: &[NamedDag<'_>],
) -> Result<Vec<&'a DagRow>, AllocError>
    ensures { IfOk result (λ listed. map (λ row. row.now) listed.items ≡ filter_map (dag_of state.now.rows.dags) named.now) }
{
    let mut listed = Vec::with_capacity(alloc, named.len())?;
    for dag in named {
        add_found(&mut listed, state.dag(dag.dag_id()))?;
    }
    Ok(listed)
}

/// Adds a row, if there is one.
fn add_found<'a>(listed: &mut Vec<&'a DagRow>, found: Option<&'a DagRow>) -> Result<(), AllocError>
    ensures { OnOk result (map (λ row. row.now) listed.new.items ≡ map (λ row. row.now) listed.old.items ++ cons_option (option_copied found.entry) []) }
{
    if let Some(row) = found {
        listed.push(row)?;
    }
    Ok(())
}
