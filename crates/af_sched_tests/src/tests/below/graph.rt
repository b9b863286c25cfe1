mod faults;
mod neighbours;
mod rules;
mod schedules;
mod texts;

use crate::tests::below::tasks::{task_after, task_ids};
use af_graph::{TaskIds, TaskSpec};
use std::alloc::Global;
use std::process::Abort;

/// A task after those, of so many slots.
fn task(rt: &impl Abort, alloc: Global, id: &str, upstream: TaskIds, slots: u64) -> TaskSpec {
    let mut task = task_after(rt, alloc, id, upstream, "default_pool");
    task.pool_slots = slots;
    task
}

/// Tasks, each after those, of so many slots.
fn tasks(rt: &impl Abort, alloc: Global, rows: &[(&str, &[&str])], slots: u64) -> Vec<TaskSpec> {
    let mut tasks = Vec::new(alloc);
    for (id, upstream) in rows {
        let task = task(rt, alloc, id, task_ids(rt, alloc, upstream), slots);
        tasks.push(task).expect(rt, "room for a task");
    }
    tasks
}
