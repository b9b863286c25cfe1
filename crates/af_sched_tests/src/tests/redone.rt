use crate::tests::dags::task_ids;
use crate::tests::openings::{add_run_of_g, instances, moment};
use crate::tests::seen::first_instance_is;
use crate::tests::steps::Step;
use af_graph::{TaskIds, TaskState};
use af_names::DagId;
use af_runs::{ChosenTasks, Instance, RunFilter, Selection};
use af_sched::{Claim, State};
use std::alloc::Global;
use std::test::Fail;

const UNTRIED: &[TaskState] = &[TaskState::NoStatus];

/// Whether a step by which what was done is done again, marked or taken out goes as it says.
pub fn redone(alloc: Global, state: &mut State, step: Step) -> Result<bool, Fail> {
    match step {
        Step::Tries(micros, try_number) => tries(alloc, state, micros, try_number),
        Step::Marks(number, mark, micros) => {
            state.mark_run(number, mark, moment(micros)?);
            Ok(true)
        }
        Step::Removes(number) => {
            state.remove_run(number);
            Ok(true)
        }
        Step::AddsRun(number) => adds_run(alloc, state, number),
        Step::IsCleared(try_number, max_tries) => {
            Ok(first_instance_is(state, cleared(try_number, max_tries)))
        }
        _ => cleared_or_chosen(alloc, state, step),
    }
}

/// Whether a run that is added gets this number.
fn adds_run(alloc: Global, state: &mut State, number: u64) -> Result<bool, Fail> {
    let untried = instances(alloc, UNTRIED)?;
    Ok(add_run_of_g(alloc, state, "r", 0, untried)? == number)
}

/// Whether a step that clears instances, or asks which a clear would touch, goes as it says.
fn cleared_or_chosen(alloc: Global, state: &mut State, step: Step) -> Result<bool, Fail> {
    match step {
        Step::Clears(only_failed) => clears(alloc, state, only_failed),
        Step::ClearsRun(number, only_failed) => clears_run(alloc, state, number, only_failed),
        Step::Alone(only_failed) => is_t_alone(alloc, state, only_failed),
        Step::Left(only_failed, wanted) => Ok(are_left(alloc, state, only_failed)? == wanted),
        _ => Ok(false),
    }
}

/// Clears task t of the runs of DAG g, or where it failed alone.
fn clears(alloc: Global, state: &mut State, only_failed: bool) -> Result<bool, Fail> {
    let filter = of_g(alloc)?;
    clear(alloc, state, &filter, only_failed)?;
    Ok(true)
}

/// Clears task t of these runs, or where it failed alone.
fn clear(
    alloc: Global,
    state: &mut State,
    filter: &RunFilter,
    only_failed: bool,
) -> Result<(), Fail> {
    let selection = of_t(alloc, state, only_failed)?;
    state.clear_instances(filter, &selection);
    Ok(())
}

/// Clears task t of the run of this number, or where it failed alone.
fn clears_run(
    alloc: Global,
    state: &mut State,
    number: u64,
    only_failed: bool,
) -> Result<bool, Fail> {
    let selection = of_t(alloc, state, only_failed)?;
    state.clear_run(number, &selection);
    Ok(true)
}

/// Whether the runs of DAG g are left as they are by a clear.
fn are_left(alloc: Global, state: &State, only_failed: bool) -> Result<bool, Fail> {
    let filter = of_g(alloc)?;
    are_left_of(alloc, state, &filter, only_failed)
}

/// Whether these runs are left as they are by a clear.
fn are_left_of(
    alloc: Global,
    state: &State,
    filter: &RunFilter,
    only_failed: bool,
) -> Result<bool, Fail> {
    let selection = of_t(alloc, state, only_failed)?;
    Ok(state.are_left_by(filter, &selection))
}

/// Ticks at a moment and claims at the next: whether that is this try of run 1.
fn tries(alloc: Global, state: &mut State, micros: u64, try_number: u32) -> Result<bool, Fail> {
    let changed = state.tick(alloc, moment(micros)?)?;
    let is_claimed = claims_try(alloc, state, micros.saturating_add(1), try_number)?;
    Ok(changed && is_claimed)
}

/// Claims at a moment: whether that is this try of run 1.
fn claims_try(
    alloc: Global,
    state: &mut State,
    micros: u64,
    try_number: u32,
) -> Result<bool, Fail> {
    let claim = state.claim(alloc, moment(micros)?)?;
    Ok(is_try(claim.as_ref(), try_number))
}

/// Whether a claim is of this try of run 1.
fn is_try(claim: Option<&Claim>, try_number: u32) -> bool {
    match claim {
        Some(claim) => claim.try_number == try_number && claim.run_number == 1,
        None => false,
    }
}

/// Whether of the instances the first of run 1 is chosen alone.
fn is_t_alone(alloc: Global, state: &State, only_failed: bool) -> Result<bool, Fail> {
    let filter = of_g(alloc)?;
    is_alone(alloc, state, &filter, only_failed)
}

/// Whether of the instances of these runs the first of run 1 is chosen alone.
fn is_alone(
    alloc: Global,
    state: &State,
    filter: &RunFilter,
    only_failed: bool,
) -> Result<bool, Fail> {
    let selection = of_t(alloc, state, only_failed)?;
    is_chosen_alone(alloc, state, filter, &selection)
}

/// Whether of the instances that are selected the first of run 1 is chosen alone.
fn is_chosen_alone(
    alloc: Global,
    state: &State,
    filter: &RunFilter,
    selection: &Selection,
) -> Result<bool, Fail> {
    let chosen = state.chosen(alloc, filter, selection)?;
    Ok(match chosen.as_slice() {
        [row] => row.run.number == 1 && row.place == 0,
        _ => false,
    })
}

/// All runs of DAG g.
fn of_g(alloc: Global) -> Result<RunFilter, Fail> {
    Ok(RunFilter {
        dag_id: DagId::parse(alloc, "g")?,
        run_id: None,
        start_date: None,
        end_date: None,
    })
}

/// The instances of task t, or those that failed alone.
fn of_t(alloc: Global, state: &State, only_failed: bool) -> Result<Selection, Fail> {
    let ids = task_ids(alloc, &["t"])?;
    let tasks = chosen(alloc, state, &ids)?;
    Ok(Selection { tasks, only_failed })
}

/// These tasks of DAG g.
fn chosen(alloc: Global, state: &State, ids: &TaskIds) -> Result<ChosenTasks, Fail> {
    let dag_id = DagId::parse(alloc, "g")?;
    Ok(state.chosen_tasks(alloc, &dag_id, Some(ids))?)
}

/// An instance without a state, tried so often, that may be tried so often.
pub fn cleared(try_number: u32, max_tries: u64) -> Instance {
    Instance {
        state: TaskState::NoStatus,
        try_number,
        max_tries,
        start_date: None,
        end_date: None,
        retry_at: None,
    }
}
