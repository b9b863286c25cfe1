ghost use Rattle.std.specs.Prelude.{◌≡◌, IfOk, None, Some, option_copied, slice_index_or, if◌then◌else◌};
ghost use Rattle.std.specs.List.{list_any};
ghost use Rattle.af_graph.specs.Graph.{same_name};
ghost use Rattle.af_runs.specs.Clears.{chosen_tasks, is_named};

use af_graph::{TaskIds, TaskSpec};
use af_names::TaskId;
use std::alloc::{AllocError, Global};
use std::marker::Model;

/// For each task of a DAG, in the order of the definition, its retries, where its instances are chosen. Contracts see that
/// list.
#[derive(Drop)]
pub struct ChosenTasks {
    items: Vec<Option<u32>>,
}

impl Model for ChosenTasks {
    ghost use Rattle.std.specs.Prelude.{List, Option, ℕ};

    ghost Value = { List (Option ℕ) };

    ghost view = { λ tasks. tasks.items.items };
}

impl ChosenTasks {
    /// Those of these tasks that have one of these ids; without ids, all. `AllocError` only where a growth was refused.
    pub fn of(
        alloc: Global,
        tasks: &[TaskSpec],
        ids: Option<&TaskIds>,
    ) -> Result<ChosenTasks, AllocError>
        ensures { IfOk result (λ chosen. chosen ≡ chosen_tasks (option_copied ids.entry) tasks.now) }
    {
        let items = tasks
            .iter()
            .map(|task| chosen_task(ids, task))
            .collect(alloc)?;
        Ok(ChosenTasks { items })
    }

    /// The retries of the task at a place, where its instances are chosen; none past the last.
    pub(crate) fn retries_at(&self, place: usize) -> Option<u32>
        ensures { result ≡ slice_index_or self.now place None }
    {
        match self.items.get(place) {
            Some(retries) => *retries,
            None => None,
        }
    }
}

/// The retries of a task, where it is one of those of these ids.
fn chosen_task(ids: Option<&TaskIds>, task: &TaskSpec) -> Option<u32>
    ensures { result ≡ (if is_named (option_copied ids.entry) task.now then Some task.now.retries else None) }
{
    if is_named(ids, task) {
        Some(task.retries)
    } else {
        None
    }
}

/// Whether a task is one of those of these ids; without ids each task is.
fn is_named(ids: Option<&TaskIds>, task: &TaskSpec) -> bool
    ensures { result ≡ is_named (option_copied ids.entry) task.now }
{
    match ids {
        Some(named) => has_id(named.as_slice(), task),
        None => true,
    }
}

/// Whether a task has one of these ids.
fn has_id(ids: &[TaskId], task: &TaskSpec) -> bool
    ensures { result ≡ list_any (λ id. same_name task.now.task_id id) ids.now }
{
    ids.iter().any(|id| task.task_id == *id)
}
