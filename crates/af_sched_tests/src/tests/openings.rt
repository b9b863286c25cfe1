use crate::tests::dags::{ONE_TASK, dag, dag_of_one, pooled_tasks, scheduled, tasks};
use af_graph::{TaskSpec, TaskState};
use af_names::{DagId, Instant, PoolName, Preset, RunId};
use af_runs::{Instance, Instances, Interval, NewRun, RunType};
use af_sched::State;
use std::alloc::Global;
use std::test::Fail;

pub fn moment(micros: u64) -> Result<Instant, Fail> {
    Ok(Instant::of_micros(micros).ok_or("past the end")?)
}

pub fn at(text: &str) -> Result<Instant, Fail> {
    Ok(Instant::read(text).ok().ok_or("no moment")?)
}

/// An instance in this state, tried so often, with one retry.
fn tried(state: TaskState, try_number: u32) -> Instance {
    Instance {
        state,
        try_number,
        max_tries: 1,
        start_date: None,
        end_date: None,
        retry_at: None,
    }
}

pub fn instances(alloc: Global, states: &[TaskState]) -> Result<Instances, Fail> {
    let items = states.iter().map(|state| tried(*state, 0)).collect(alloc)?;
    Ok(Instances::of(items))
}

/// One instance.
pub fn only(alloc: Global, instance: Instance) -> Result<Instances, Fail> {
    Ok(Instances::of(vec![in alloc; instance]?))
}

/// A new run that is asked for by hand, of these ids, this date, at which its interval begins and ends, and these instances.
pub fn manual_run(dag_id: DagId, run_id: RunId, date: Instant, instances: Instances) -> NewRun {
    NewRun {
        dag_id,
        run_id,
        logical_date: date,
        interval: Interval {
            start: date,
            end: date,
        },
        run_type: RunType::Manual,
        instances,
    }
}

/// The same, where the ids are read of these texts.
pub fn new_run(
    alloc: Global,
    dag_id: &str,
    run_id: &str,
    date: Instant,
    instances: Instances,
) -> Result<NewRun, Fail> {
    let dag_id = DagId::parse(alloc, dag_id)?;
    let run_id = RunId::parse(alloc, run_id)?;
    Ok(manual_run(dag_id, run_id, date, instances))
}

/// Adds a run with one instance for each task of its DAG.
pub fn add_run(state: &mut State, new: NewRun) -> Result<u64, Fail> {
    let Some(row) = state.dag(&new.dag_id) else {
        return Err(Fail::from("no DAG"));
    };
    if row.dag.tasks().len() != new.instances.as_slice().len() {
        return Err(Fail::from("not one instance a task"));
    }
    Ok(state.add_run(new)?)
}

/// Adds a new run of DAG g of this id and this date in microseconds.
pub fn add_run_of_g(
    alloc: Global,
    state: &mut State,
    run_id: &str,
    date: u64,
    instances: Instances,
) -> Result<u64, Fail> {
    let date = moment(date)?;
    add_run(state, new_run(alloc, "g", run_id, date, instances)?)
}

/// Adds a pool of this name and so many slots.
pub fn add_pool(alloc: Global, state: &mut State, name: &str, slots: u64) -> Result<(), Fail> {
    state.add_pool(PoolName::parse(alloc, name)?, slots)?;
    Ok(())
}

/// Adds a DAG g of these tasks without a schedule.
pub fn add_g(
    alloc: Global,
    state: &mut State,
    tasks: Vec<TaskSpec>,
    is_paused: bool,
) -> Result<(), Fail> {
    state.add_dag(dag(alloc, "g", tasks, is_paused)?)?;
    Ok(())
}

/// Adds a new run r of DAG g, whose instances are in these states.
pub fn add_r(alloc: Global, state: &mut State, states: &[TaskState]) -> Result<(), Fail> {
    let _number = add_run_of_g(alloc, state, "r", 0, instances(alloc, states)?)?;
    Ok(())
}

/// Adds a pool p of so many slots, a DAG g of these tasks of that pool without a schedule, and a new run r of it, whose
/// instances are in these states.
pub fn add_pooled(
    alloc: Global,
    state: &mut State,
    slots: u64,
    rows: &[(&str, u64, i32)],
    is_paused: bool,
    states: &[TaskState],
) -> Result<(), Fail> {
    add_pool(alloc, state, "p", slots)?;
    add_g(alloc, state, pooled_tasks(alloc, rows)?, is_paused)?;
    add_r(alloc, state, states)
}

/// Adds a new run r of DAG g, whose only instance is in this state, tried so often.
fn add_tried_run(
    alloc: Global,
    state: &mut State,
    instance: TaskState,
    try_number: u32,
) -> Result<(), Fail> {
    let only = only(alloc, tried(instance, try_number))?;
    let _number = add_run_of_g(alloc, state, "r", 0, only)?;
    Ok(())
}

/// Adds a pool p of two slots, a paused DAG g of one task, and a new run r of it, whose instance is in this state, tried so
/// often.
pub fn add_tried(
    alloc: Global,
    state: &mut State,
    instance: TaskState,
    try_number: u32,
) -> Result<(), Fail> {
    add_pool(alloc, state, "p", 2)?;
    add_g(alloc, state, tasks(alloc, ONE_TASK)?, true)?;
    add_tried_run(alloc, state, instance, try_number)
}

/// Adds a DAG s of one task, with these points from this moment on.
pub fn add_scheduled(
    alloc: Global,
    state: &mut State,
    preset: Preset,
    start: &str,
    catchup: bool,
    is_paused: bool,
) -> Result<(), Fail> {
    state.add_dag(scheduled(alloc, preset, start, catchup, is_paused)?)?;
    Ok(())
}

/// Adds a DAG of one task without a schedule.
pub fn add_dag_of_one(
    alloc: Global,
    state: &mut State,
    dag_id: &str,
    weight: i32,
    is_paused: bool,
) -> Result<(), Fail> {
    state.add_dag(dag_of_one(alloc, dag_id, weight, is_paused)?)?;
    Ok(())
}

/// Adds a run of one instance in this state, of these ids and this date in microseconds.
pub fn add_run_of_one(
    alloc: Global,
    state: &mut State,
    dag_id: &str,
    run_id: &str,
    date: u64,
    instance: TaskState,
) -> Result<u64, Fail> {
    let date = moment(date)?;
    let only = instances(alloc, &[instance])?;
    add_run(state, new_run(alloc, dag_id, run_id, date, only)?)
}

/// Adds runs of one instance in this state: the ids of each, and its date in microseconds.
pub fn add_runs_of_one(
    alloc: Global,
    state: &mut State,
    runs: &[(&str, &str, u64)],
    instance: TaskState,
) -> Result<(), Fail> {
    for (dag_id, run_id, date) in runs {
        let _number = add_run_of_one(alloc, state, dag_id, run_id, *date, instance)?;
    }
    Ok(())
}
