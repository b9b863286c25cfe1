use super::making::UNTRIED;
use crate::tests::asserts::holds;
use crate::tests::below::tasks;
use af_graph::{Dag, TaskSpec};
use af_runs::{Instance, new_instances};
use std::alloc::Global;
use std::process::Abort;

/// A task of so many retries.
pub fn task(rt: &impl Abort, alloc: Global, task_id: &str, retries: u32) -> TaskSpec {
    let mut task = tasks::task(rt, alloc, task_id, "default_pool");
    task.retries = retries;
    task
}

#[test]
fn each_task_has_an_instance(rt: HostRuntime) {
    let dag = dag_of_two(&rt, rt.alloc());
    have_instances(&rt, rt.alloc(), &dag);
    drop(dag);
}

/// Ends the test where a DAG of two tasks does not give an instance of each.
fn have_instances(rt: &impl Abort, alloc: Global, dag: &Dag) {
    let instances = new_instances(alloc, dag).expect(rt, "an instance of each task");
    let patient = Instance {
        max_tries: 3,
        ..UNTRIED
    };
    let wanted = [UNTRIED, patient];
    holds(rt, instances.as_slice() == wanted.as_slice(), "in order");
    holds(rt, instances.into_vec().len() == 2, "given back");
}

/// Tasks x of one retry and y of three.
pub fn two_tasks(rt: &impl Abort, alloc: Global) -> Vec<TaskSpec> {
    let first = task(rt, alloc, "x", 1);
    let second = task(rt, alloc, "y", 3);
    vec![in alloc; first, second].expect(rt, "two tasks")
}

/// DAG a of these two.
fn dag_of_two(rt: &impl Abort, alloc: Global) -> Dag {
    tasks::dag(rt, alloc, "a", two_tasks(rt, alloc))
}
