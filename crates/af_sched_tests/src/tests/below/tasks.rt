//! Tasks, and DAGs of them. What should not fail is expected to succeed, with words for it: so no function has a way out before
//! its end, at which what it owns would be dropped anew.
use af_graph::{Dag, DagSpec, Rule, TaskIds, TaskSpec, TaskSpecs};
use af_names::{DagId, PoolName, TaskId};
use std::alloc::Global;
use std::process::Abort;

/// The ids of tasks, in this order.
pub fn task_ids(rt: &impl Abort, alloc: Global, texts: &[&str]) -> TaskIds {
    let mut ids = Vec::new(alloc);
    for text in texts {
        let id = TaskId::parse(alloc, text).expect(rt, "the id of a task");
        ids.push(id).expect(rt, "room for the id of a task");
    }
    TaskIds::of(ids)
}

/// A task of one slot of this pool, after those and without retries.
pub fn task_after(
    rt: &impl Abort,
    alloc: Global,
    task_id: &str,
    upstream: TaskIds,
    pool: &str,
) -> TaskSpec {
    let task_id = TaskId::parse(alloc, task_id).expect(rt, "the id of a task");
    let pool = PoolName::parse(alloc, pool).expect(rt, "the name of a pool");
    TaskSpec {
        task_id,
        upstream,
        pool,
        pool_slots: 1,
        priority_weight: 1,
        retries: 0,
        retry_delay: 300,
        trigger_rule: Rule::AllSuccess,
    }
}

/// The same, after none.
pub fn task(rt: &impl Abort, alloc: Global, task_id: &str, pool: &str) -> TaskSpec {
    task_after(rt, alloc, task_id, TaskIds::of(Vec::new(alloc)), pool)
}

/// A definition of these tasks, without a schedule.
pub fn definition(rt: &impl Abort, alloc: Global, dag_id: &str, tasks: Vec<TaskSpec>) -> DagSpec {
    DagSpec {
        dag_id: DagId::parse(alloc, dag_id).expect(rt, "the id of a DAG"),
        tasks: TaskSpecs::of(tasks),
        schedule: None,
        catchup: true,
        max_active_runs: 16,
    }
}

/// A DAG of these tasks, without a schedule.
pub fn dag(rt: &impl Abort, alloc: Global, dag_id: &str, tasks: Vec<TaskSpec>) -> Dag {
    Dag::new(alloc, definition(rt, alloc, dag_id, tasks)).expect(rt, "a DAG")
}
