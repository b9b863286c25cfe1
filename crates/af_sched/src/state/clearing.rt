ghost use Rattle.std.specs.Prelude.{◌≡◌, ◌↔◌, IfOk, option_copied, true};
ghost use Rattle.af_runs.specs.Clears as clears;
ghost use Rattle.af_sched.specs.State.{tasks_of};

use crate::state::State;
use af_graph::TaskIds;
use af_names::DagId;
use af_runs::{ChosenInstance, ChosenTasks, RunFilter, Selection};
use std::alloc::{AllocError, Global};

impl State {
    /// Of the tasks of the DAG of this id, those that have one of these ids, or all where no ids are given. `AllocError` only
    /// where a growth was refused.
    pub fn chosen_tasks(
        &self,
        alloc: Global,
        dag_id: &DagId,
        ids: Option<&TaskIds>,
    ) -> Result<ChosenTasks, AllocError>
        ensures { IfOk result (λ chosen. chosen ≡ clears.chosen_tasks (option_copied ids.entry) (tasks_of self.now.rows.dags dag_id.now)) }
    {
        ChosenTasks::of(alloc, self.by_id().tasks_of(dag_id), ids)
    }

    /// Clears the chosen instances of the run of this number: each is without a state again, and has its task's retries as its
    /// tries after the next one; where one is chosen and the run has ended, the run is queued again. Where there is no such
    /// run nothing changes. It takes no memory.
    pub fn clear_run(&mut self, number: u64, selection: &Selection)
        ensures { self.new ≡ record self.old {
          rows = record self.old.rows { runs = clears.with_cleared_run self.old.rows.runs number selection.now };
        } }
    {
        self.runs.clear_run(number, selection);
    }

    /// Clears the chosen instances of the runs that the filter admits, as `clear_run` does. It takes no memory.
    pub fn clear_instances(&mut self, filter: &RunFilter, selection: &Selection)
        ensures { self.new ≡ record self.old {
          rows = record self.old.rows { runs = clears.with_cleared self.old.rows.runs filter.now selection.now };
        } }
    {
        self.runs.clear(filter, selection);
    }

    /// Whether clearing the chosen instances of the runs that the filter admits leaves all runs as they are.
    pub fn are_left_by(&self, filter: &RunFilter, selection: &Selection) -> bool
        ensures told { result ≡ clears.are_left_by filter.now selection.now self.now.rows.runs }
        ensures left { (result ≡ true) ↔ (clears.with_cleared self.now.rows.runs filter.now selection.now ≡ self.now.rows.runs) }
    {
        self.runs.are_left_by(filter, selection)
    }

    /// The chosen instances of the runs that the filter admits, in the order of run numbers, then of the definition: those that
    /// a clear touches. `AllocError` only where a growth was refused.
    pub fn chosen<'a>(
        &'a self,
        alloc: Global,
        filter: &RunFilter,
        selection: &Selection,
    ) -> Result<Vec<ChosenInstance<'a>>, AllocError>
        ensures { IfOk result (λ all. all.items ≡ clears.chosen_in self.now.rows.runs filter.now selection.now) }
    {
        self.runs.chosen(alloc, filter, selection)
    }
}
