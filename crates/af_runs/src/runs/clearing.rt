ghost use Rattle.std.specs.Prelude.{◌≡◌, ◌↔◌, ◌<◌, ◌++◌, ◌||◌, [], IfOk, OnOk, Some, length, not, slice_index_or, slice_set, true, if◌then◌else◌};
ghost use Rattle.af_runs.specs.Clears.{admits, are_left_by, chosen_in, chosen_of, is_left_by, run_after, with_cleared, with_cleared_run};

use crate::chosen_instance::ChosenInstance;
use crate::run::{Run, list_chosen};
use crate::run_filter::RunFilter;
use crate::runs::Runs;
use crate::selection::Selection;
use af_names::RunId;
use std::alloc::{AllocError, Global};

impl Runs {
    /// Clears the chosen instances of the run of this number, as `Run::clear` does. Where there is no such run nothing changes.
    /// It takes no memory.
    pub fn clear_run(&mut self, number: u64, selection: &Selection)
        ensures { self.new ≡ record self.old { rows = with_cleared_run self.old.rows number selection.now } }
    {
        if let Some(row) = self.place_of(number) {
            self.rows[row].clear(selection);
            self.index.keep_numbers(&self.rows[row]);
        }
    }

    /// Clears the chosen instances of the runs that the filter admits, as `Run::clear` does. It takes no memory.
    pub fn clear(&mut self, filter: &RunFilter, selection: &Selection)
        ensures { self.new ≡ record self.old { rows = with_cleared self.old.rows filter.now selection.now } }
    {
        clear_all(self, filter, selection);
    }

    /// Whether clearing the chosen instances of the runs that the filter admits leaves all runs as they are.
    pub fn are_left_by(&self, filter: &RunFilter, selection: &Selection) -> bool
        ensures told { result ≡ are_left_by filter.now selection.now self.now.rows }
        ensures left { (result ≡ true) ↔ (with_cleared self.now.rows filter.now selection.now ≡ self.now.rows) }
    {
        are_left(self, filter, selection)
    }

    /// The chosen instances of the runs that the filter admits, in the order of run numbers, then of the definition.
    /// `AllocError` only where a growth was refused.
    pub fn chosen<'a>(
        &'a self,
        alloc: Global,
        filter: &RunFilter,
        selection: &Selection,
    ) -> Result<Vec<ChosenInstance<'a>>, AllocError>
        ensures { IfOk result (λ all. all.items ≡ chosen_in self.now.rows filter.now selection.now) }
    {
        chosen_in(alloc, self, filter, selection)
    }

    /// Clears the chosen instances of the run at a place, where the filter admits it.
    fn clear_at(&mut self, place: usize, filter: &RunFilter, selection: &Selection)
        requires { place < length self.old.rows }
        ensures { (d : Run) → self.new ≡ record self.old {
          rows = slice_set self.old.rows place (run_after filter.now selection.now (slice_index_or self.old.rows place d));
        } }
    {
        if filter.admits(&self.rows[place]) {
            self.rows[place].clear(selection);
            self.index.keep_numbers(&self.rows[place]);
        }
    }
}

/// Clears the chosen instances of those of these runs that the filter admits.
fn clear_all(runs: &mut Runs, filter: &RunFilter, selection: &Selection)
    ensures { runs.new ≡ record runs.old { rows = with_cleared runs.old.rows filter.now selection.now } }
{
    match &filter.run_id {
        Some(run_id) => clear_one(runs, run_id, filter, selection),
        None => clear_each(runs, filter, selection),
    }
}

/// Clears the chosen instances of the run of this id, which alone the filter may admit.
fn clear_one(runs: &mut Runs, run_id: &RunId, filter: &RunFilter, selection: &Selection)
    requires { filter.now.run_id ≡ Some run_id.now }
    ensures { runs.new ≡ record runs.old { rows = with_cleared runs.old.rows filter.now selection.now } }
{
    if let Some(place) = runs.place_of_run(&filter.dag_id, run_id) {
        runs.clear_at(place, filter, selection);
    }
}

/// Clears the chosen instances of those of these runs that the filter admits. It goes over the runs of the filter's DAG.
fn clear_each(runs: &mut Runs, filter: &RunFilter, selection: &Selection)
    ensures { runs.new ≡ record runs.old { rows = with_cleared runs.old.rows filter.now selection.now } }
{
    let count = runs.count_of(&filter.dag_id);
    for nth in 0..count {
        if let Some(place) = runs.place_of_nth(&filter.dag_id, nth) {
            runs.clear_at(place, filter, selection);
        }
    }
}

/// Whether clearing the chosen instances of those of these runs that the filter admits leaves all as they are.
fn are_left(runs: &Runs, filter: &RunFilter, selection: &Selection) -> bool
    ensures { result ≡ are_left_by filter.now selection.now runs.now.rows }
{
    match &filter.run_id {
        Some(run_id) => is_one_left(runs, run_id, filter, selection),
        None => is_each_left(runs, filter, selection),
    }
}

/// Whether clearing the chosen instances of the run of this id, which alone the filter may admit, leaves it as it is.
fn is_one_left(runs: &Runs, run_id: &RunId, filter: &RunFilter, selection: &Selection) -> bool
    requires { filter.now.run_id ≡ Some run_id.now }
    ensures { result ≡ are_left_by filter.now selection.now runs.now.rows }
{
    match runs.place_of_run(&filter.dag_id, run_id) {
        Some(place) => is_left(&runs.rows()[place], filter, selection),
        None => true,
    }
}

/// Whether clearing the chosen instances of those of these runs that the filter admits leaves all as they are. It goes over
/// the runs of the filter's DAG.
fn is_each_left(runs: &Runs, filter: &RunFilter, selection: &Selection) -> bool
    ensures { result ≡ are_left_by filter.now selection.now runs.now.rows }
{
    for run in runs.of_dag(&filter.dag_id, 0) {
        if !is_left(run, filter, selection) {
            return false;
        }
    }
    true
}

/// Whether clearing its chosen instances, where the filter admits it, leaves a run as it is.
fn is_left(run: &Run, filter: &RunFilter, selection: &Selection) -> bool
    ensures { result ≡ (not (admits filter.now run.now) || is_left_by selection.now run.now) }
{
    !filter.admits(run) || run.is_left_by(selection)
}

/// The chosen instances of those of these runs that the filter admits. `AllocError` only where a growth was refused.
fn chosen_in<'a>(
    alloc: Global,
    runs: &'a Runs,
    filter: &RunFilter,
    selection: &Selection,
) -> Result<Vec<ChosenInstance<'a>>, AllocError>
    ensures { IfOk result (λ all. all.items ≡ chosen_in runs.now.rows filter.now selection.now) }
{
    match &filter.run_id {
        Some(run_id) => chosen_in_one(alloc, runs, run_id, filter, selection),
        None => chosen_in_each(alloc, runs, filter, selection),
    }
}

/// The chosen instances of the run of this id, which alone the filter may admit. `AllocError` only where a growth was refused.
fn chosen_in_one<'a>(
    alloc: Global,
    runs: &'a Runs,
    run_id: &RunId,
    filter: &RunFilter,
    selection: &Selection,
) -> Result<Vec<ChosenInstance<'a>>, AllocError>
    requires { filter.now.run_id ≡ Some run_id.now }
    ensures { IfOk result (λ all. all.items ≡ chosen_in runs.now.rows filter.now selection.now) }
{
    let mut all = Vec::new(alloc);
    if let Some(place) = runs.place_of_run(&filter.dag_id, run_id) {
        list_admitted(filter, &runs.rows()[place], selection, &mut all)?;
    }
    Ok(all)
}

/// The chosen instances of those of these runs that the filter admits. It goes over the runs of the filter's DAG.
/// `AllocError` only where a growth was refused.
fn chosen_in_each<'a>(
    alloc: Global,
    runs: &'a Runs,
    filter: &RunFilter,
    selection: &Selection,
) -> Result<Vec<ChosenInstance<'a>>, AllocError>
    ensures { IfOk result (λ all. all.items ≡ chosen_in runs.now.rows filter.now selection.now) }
{
    let mut all = Vec::new(alloc);
    for run in runs.of_dag(&filter.dag_id, 0) {
        list_admitted(filter, run, selection, &mut all)?;
    }
    Ok(all)
}

/// Puts the chosen instances of a run after others, where the filter admits it. `AllocError` only where a growth was refused.
fn list_admitted<'a>(
    filter: &RunFilter,
    run: &'a Run,
    selection: &Selection,
    all: &mut Vec<ChosenInstance<'a>>,
) -> Result<(), AllocError>
    ensures { OnOk result (all.new.items ≡ all.old.items ++ (if admits filter.now run.now then chosen_of selection.now run.now else [])) }
{
    if filter.admits(run) {
        list_chosen(run, selection, all)?;
    }
    Ok(())
}
