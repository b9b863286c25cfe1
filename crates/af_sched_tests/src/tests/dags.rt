use crate::tests::openings::at;
use af_graph::{Dag, DagSpec, Points, Rule, Schedule, TaskIds, TaskSpec, TaskSpecs};
use af_names::{DagId, PoolName, Preset, TaskId};
use af_sched::DagRow;
use std::alloc::Global;
use std::test::Fail;

/// The pool that is always there.
pub const DEFAULT_POOL: &str = "default_pool";

/// The ids of tasks, in this order.
pub fn task_ids(alloc: Global, texts: &[&str]) -> Result<TaskIds, Fail> {
    let mut ids = Vec::new(alloc);
    push_ids(alloc, &mut ids, texts)?;
    Ok(TaskIds::of(ids))
}

/// Appends the ids of tasks.
fn push_ids(alloc: Global, ids: &mut Vec<TaskId>, texts: &[&str]) -> Result<(), Fail> {
    for text in texts {
        ids.push(TaskId::parse(alloc, text)?)?;
    }
    Ok(())
}

/// A task of one slot of this pool.
pub fn task(
    alloc: Global,
    task_id: &str,
    upstream: &[&str],
    pool: &str,
    rule: Rule,
) -> Result<TaskSpec, Fail> {
    Ok(TaskSpec {
        task_id: TaskId::parse(alloc, task_id)?,
        upstream: task_ids(alloc, upstream)?,
        pool: PoolName::parse(alloc, pool)?,
        pool_slots: 1,
        priority_weight: 1,
        retries: 1,
        retry_delay: 300,
        trigger_rule: rule,
    })
}

/// A task of pool p, of so many slots and this weight.
fn pooled(alloc: Global, task_id: &str, slots: u64, weight: i32) -> Result<TaskSpec, Fail> {
    let mut spec = task(alloc, task_id, &[], "p", Rule::AllSuccess)?;
    spec.pool_slots = slots;
    spec.priority_weight = weight;
    Ok(spec)
}

/// A task of one slot of the default pool.
pub fn of_default(alloc: Global, task_id: &str, upstream: &[&str]) -> Result<TaskSpec, Fail> {
    task(alloc, task_id, upstream, DEFAULT_POOL, Rule::AllSuccess)
}

/// Tasks of one slot of the default pool: an id each, and those upstream of it.
pub fn tasks(alloc: Global, rows: &[(&str, &[&str])]) -> Result<Vec<TaskSpec>, Fail> {
    let mut tasks = Vec::new(alloc);
    push_tasks(alloc, &mut tasks, rows)?;
    Ok(tasks)
}

/// Appends tasks of one slot of the default pool: an id each, and those upstream of it.
pub fn push_tasks(
    alloc: Global,
    tasks: &mut Vec<TaskSpec>,
    rows: &[(&str, &[&str])],
) -> Result<(), Fail> {
    for (task_id, upstream) in rows {
        tasks.push(of_default(alloc, task_id, upstream)?)?;
    }
    Ok(())
}

/// Tasks of pool p: an id each, slots and a weight.
pub fn pooled_tasks(alloc: Global, rows: &[(&str, u64, i32)]) -> Result<Vec<TaskSpec>, Fail> {
    let mut tasks = Vec::new(alloc);
    push_pooled(alloc, &mut tasks, rows)?;
    Ok(tasks)
}

/// Appends tasks of pool p: an id each, slots and a weight.
fn push_pooled(
    alloc: Global,
    tasks: &mut Vec<TaskSpec>,
    rows: &[(&str, u64, i32)],
) -> Result<(), Fail> {
    for (task_id, slots, weight) in rows {
        tasks.push(pooled(alloc, task_id, *slots, *weight)?)?;
    }
    Ok(())
}

/// One task t of the default pool.
pub const ONE_TASK: &[(&str, &[&str])] = &[("t", &[])];

/// A DAG with this schedule, of which so many runs may be running, its row opened.
pub fn row(
    alloc: Global,
    dag_id: &str,
    tasks: Vec<TaskSpec>,
    schedule: Option<Schedule>,
    catchup: bool,
    most: u32,
    is_paused: bool,
) -> Result<DagRow, Fail> {
    let spec = DagSpec {
        dag_id: DagId::parse(alloc, dag_id)?,
        tasks: TaskSpecs::of(tasks),
        schedule,
        catchup,
        max_active_runs: most,
    };
    Ok(DagRow::opened(Dag::new(alloc, spec)?, is_paused))
}

/// A DAG of these tasks without a schedule, of which two runs may be running.
pub fn dag(
    alloc: Global,
    dag_id: &str,
    tasks: Vec<TaskSpec>,
    is_paused: bool,
) -> Result<DagRow, Fail> {
    row(alloc, dag_id, tasks, None, true, 2, is_paused)
}

/// A DAG s of one task, with these points from this moment on, of which two runs may be running.
pub fn scheduled(
    alloc: Global,
    preset: Preset,
    start: &str,
    catchup: bool,
    is_paused: bool,
) -> Result<DagRow, Fail> {
    let schedule = Schedule {
        points: Points::Preset(preset),
        start_date: at(start)?,
    };
    let only = tasks(alloc, ONE_TASK)?;
    row(alloc, "s", only, Some(schedule), catchup, 2, is_paused)
}

/// A DAG of one task of this weight, without a schedule.
pub fn dag_of_one(
    alloc: Global,
    dag_id: &str,
    weight: i32,
    is_paused: bool,
) -> Result<DagRow, Fail> {
    let mut only = of_default(alloc, "t", &[])?;
    only.priority_weight = weight;
    dag(alloc, dag_id, vec![in alloc; only]?, is_paused)
}
