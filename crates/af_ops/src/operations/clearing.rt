// The operations that clear instances.
ghost use Rattle.std.specs.Prelude.{◌≡◌, ◌||◌, IfOk, if◌then◌else◌, ⊤};
ghost use Rattle.std.specs.List.{position};
ghost use Rattle.std.specs.Option.{option_copied};
ghost use Rattle.serde_json.specs.Written.{compact_text};
ghost use Rattle.af_base.specs.Readings.{seen};
ghost use Rattle.af_runs.specs.Clears.{are_left_by, chosen_in};
ghost use Rattle.af_ops.specs.declared.answer.OpFault.TheVariants.{OutOfMemory};
ghost use Rattle.af_ops.specs.declared.edit.Edit.TheVariants.{InstancesCleared, Nothing};
ghost use Rattle.af_ops.specs.Effects.{all_tasks, cleared_list, cleared_told, clearing, filter_of, id_at, instances_cleared, is_unknown, known_run, known_tasks, one_run, run_cleared, selection_of};
ghost use Rattle.af_ops.specs.Prepared.{CanDo, IsExact, MemoryLast, done_on};

use crate::answer::OpFault;
use crate::body_fault::BodyFault;
use crate::clear::Clear;
use crate::cleared_text::ClearedRow;
use crate::edit::Edit;
use crate::operations::shared::{clear_or, dag_or, run_or, truth_or};
use crate::prepared::Prepared;
use crate::row::list_text;
use crate::task_text::id_at;
use af_graph::{Dag, TaskIds, TaskSpec};
use af_names::{DagId, RunId, TaskId};
use af_runs::{ChosenInstance, ChosenTasks, RunFilter, Selection};
use af_sched::State;
use std::alloc::{AllocError, Global};

pub(crate) fn run_cleared(
    alloc: Global,
    state: &State,
    dag_id: &DagId,
    run_id: &RunId,
    input: &Result<bool, BodyFault>,
) -> Result<Prepared, OpFault>
    ensures told { MemoryLast OutOfMemory (run_cleared state.now.rows dag_id.now run_id.now input.now) (seen (done_on state.now.rows) result) }
    ensures room { IfOk result (λ prepared. CanDo state.now prepared.edit) }
    ensures exact { IfOk result (λ prepared. IsExact state.now.rows prepared.edit) }
{
    let dry_run = truth_or(input)?;
    let row = dag_or(state, dag_id)?;
    run_or(state, dag_id, run_id)?;
    let filter = one_run(alloc, dag_id, run_id)?;
    let selection = all_tasks(alloc, &row.dag)?;
    let prepared = clearing(alloc, state, row.dag.tasks(), filter, selection, dry_run)?;
    Ok(prepared)
}

pub(crate) fn instances_cleared(
    alloc: Global,
    state: &State,
    dag_id: &DagId,
    input: &Result<Clear, BodyFault>,
) -> Result<Prepared, OpFault>
    ensures told { MemoryLast OutOfMemory (instances_cleared state.now.rows dag_id.now input.now) (seen (done_on state.now.rows) result) }
    ensures room { IfOk result (λ prepared. CanDo state.now prepared.edit) }
    ensures exact { IfOk result (λ prepared. IsExact state.now.rows prepared.edit) }
{
    let asked = clear_or(input)?;
    let row = dag_or(state, dag_id)?;
    known_run(state, dag_id, asked.dag_run_id.as_ref())?;
    known_tasks(&row.dag, asked.task_ids.as_ref())?;
    let filter = filter_of(alloc, dag_id, asked)?;
    let selection = selection_of(alloc, &row.dag, asked)?;
    let prepared = clearing(
        alloc,
        state,
        row.dag.tasks(),
        filter,
        selection,
        asked.dry_run,
    )?;
    Ok(prepared)
}

/// The chosen instances, cleared or only told.
fn clearing(
    alloc: Global,
    state: &State,
    tasks: &[TaskSpec],
    filter: RunFilter,
    selection: Selection,
    dry_run: bool,
) -> Result<Prepared, AllocError>
    ensures told { IfOk result (λ prepared. done_on state.now.rows prepared ≡ clearing state.now.rows tasks.now filter selection dry_run) }
    ensures room { IfOk result (λ prepared. CanDo state.now prepared.edit) }
    ensures exact { IfOk result (λ prepared. IsExact state.now.rows prepared.edit) }
{
    let body = cleared_text(alloc, state, tasks, &filter, &selection)?;
    Ok(Prepared::of(body, clear_edit(state, filter, selection, dry_run)))
}

/// The edit that clears the chosen instances: nothing where they are only told, or all stand so already.
fn clear_edit(state: &State, filter: RunFilter, selection: Selection, dry_run: bool) -> Edit
    ensures { result ≡ (if dry_run || are_left_by filter selection state.now.rows.runs then Nothing else InstancesCleared filter selection) }
{
    if dry_run || state.are_left_by(&filter, &selection) {
        Edit::Nothing
    } else {
        Edit::InstancesCleared(filter, selection)
    }
}

/// The text of the chosen instances.
fn cleared_text(
    alloc: Global,
    state: &State,
    tasks: &[TaskSpec],
    filter: &RunFilter,
    selection: &Selection,
) -> Result<Vec<u8>, AllocError>
    ensures { IfOk result (λ body. body.items ≡ compact_text (cleared_list tasks.now (chosen_in state.now.rows.runs filter.now selection.now))) }
{
    let chosen = state.chosen(alloc, filter, selection)?;
    let told = cleared_told(alloc, tasks, chosen.as_slice())?;
    let rows: Vec<&ClearedRow<'_>> = told.iter().collect(alloc)?;
    let body = list_text(alloc, "task_instances", rows.as_slice())?;
    Ok(body)
}

/// The chosen instances, each with the id of its task, borrowed. `AllocError` only where a growth was refused.
fn cleared_told<'a>(
    alloc: Global,
    tasks: &'a [TaskSpec],
    chosen: &[ChosenInstance<'a>],
) -> Result<Vec<ClearedRow<'a>>, AllocError>
    ensures { IfOk result (λ told. told.items ≡ cleared_told tasks.now chosen.now) }
{
    let mut all = Vec::with_capacity(alloc, chosen.len())?;
    for it in chosen {
        all.push(told(tasks, it))?;
    }
    Ok(all)
}

fn told<'a>(tasks: &'a [TaskSpec], it: &ChosenInstance<'a>) -> ClearedRow<'a>
    ensures { result ≡ record { run = it.now.run; task_id = id_at tasks.now it.now.place } }
{
    ClearedRow {
        run: it.run,
        task_id: id_at(tasks, it.place),
    }
}

/// One run of a DAG.
fn one_run(alloc: Global, dag_id: &DagId, run_id: &RunId) -> Result<RunFilter, AllocError>
    ensures { IfOk result (λ filter. filter ≡ one_run dag_id.now run_id.now) }
{
    Ok(RunFilter {
        dag_id: dag_id.copied(alloc)?,
        run_id: Some(run_id.copied(alloc)?),
        start_date: None,
        end_date: None,
    })
}

/// All instances of a DAG's runs.
fn all_tasks(alloc: Global, dag: &Dag) -> Result<Selection, AllocError>
    ensures { IfOk result (λ selection. selection ≡ all_tasks dag.now.tasks) }
{
    Ok(Selection {
        tasks: ChosenTasks::of(alloc, dag.tasks(), None)?,
        only_failed: false,
    })
}

/// The runs of a DAG that a body asks for.
fn filter_of(alloc: Global, dag_id: &DagId, asked: &Clear) -> Result<RunFilter, AllocError>
    ensures { IfOk result (λ filter. filter ≡ filter_of dag_id.now asked.now) }
{
    Ok(RunFilter {
        dag_id: dag_id.copied(alloc)?,
        run_id: copied_id(alloc, asked.dag_run_id.as_ref())?,
        start_date: asked.start_date,
        end_date: asked.end_date,
    })
}

/// The id again, where there is one.
fn copied_id(alloc: Global, run_id: Option<&RunId>) -> Result<Option<RunId>, AllocError>
    ensures { IfOk result (λ copy. copy ≡ option_copied run_id.entry) }
{
    match run_id {
        Some(run_id) => Ok(Some(run_id.copied(alloc)?)),
        None => Ok(None),
    }
}

/// The instances that a body asks for.
fn selection_of(alloc: Global, dag: &Dag, asked: &Clear) -> Result<Selection, AllocError>
    ensures { IfOk result (λ selection. selection ≡ selection_of dag.now.tasks asked.now) }
{
    Ok(Selection {
        tasks: ChosenTasks::of(alloc, dag.tasks(), asked.task_ids.as_ref())?,
        only_failed: asked.only_failed,
    })
}

/// Whether there is a run of an id, where one is asked for.
fn known_run(state: &State, dag_id: &DagId, run_id: Option<&RunId>) -> Result<(), OpFault>
    ensures { result ≡ known_run state.now.rows dag_id.now (option_copied run_id.entry) }
{
    match run_id {
        Some(run_id) => {
            run_or(state, dag_id, run_id)?;
            Ok(())
        }
        None => Ok(()),
    }
}

/// Whether each of these ids is a task's; the first that is none is told.
fn known_tasks(dag: &Dag, ids: Option<&TaskIds>) -> Result<(), OpFault>
    ensures { result ≡ known_tasks dag.now.tasks (option_copied ids.entry) }
{
    let Some(ids) = ids else {
        return Ok(());
    };
    match unknown_at(dag, ids.as_slice()) {
        Some(place) => Err(OpFault::NoSuchTaskAt(place)),
        None => Ok(()),
    }
}

/// The place of the first of these ids that is no task's.
fn unknown_at(dag: &Dag, ids: &[TaskId]) -> Option<usize>
    ensures { result ≡ position (is_unknown dag.now.tasks) ids.now }
{
    ids.iter().position(|id| is_unknown(dag, id))
}

fn is_unknown(dag: &Dag, id: &TaskId) -> bool
    ensures { result ≡ is_unknown dag.now.tasks id.now }
{
    dag.place_of(id).is_none()
}
