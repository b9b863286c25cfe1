use super::tasks;
use crate::tests::asserts::holds;
use crate::tests::below::tasks::dag;
use af_graph::Dag;
use af_names::TaskId;
use std::alloc::Global;
use std::process::Abort;

const DIAMOND: &[(&str, &[&str])] = &[
    ("join", &["right", "left", "right"]),
    ("right", &["start"]),
    ("left", &["start"]),
    ("start", &[]),
];

/// The DAG whose tasks are a diamond.
fn diamond(rt: &impl Abort, alloc: Global) -> Dag {
    dag(rt, alloc, "d", tasks(rt, alloc, DIAMOND, 1))
}

/// Ends the test where the neighbours of tasks of a diamond are not told.
fn has_neighbours(rt: &impl Abort, dag: &Dag) {
    assert!(rt; dag.tasks().len() == 4, "four tasks");
    holds(rt, dag.upstream(0) == [1, 2].as_slice(), "upstream of join");
    holds(
        rt,
        dag.downstream(3) == [1, 2].as_slice(),
        "downstream of start",
    );
    holds(rt, dag.downstream(0).is_empty(), "downstream of join");
}

/// A copy of a diamond.
fn copied(rt: &impl Abort, alloc: Global) -> Dag {
    let diamond = diamond(rt, alloc);
    let copy = diamond.copied(alloc).expect(rt, "a copy of a diamond");
    drop(diamond);
    copy
}

/// Ends the test where the order of the tasks of a diamond is not told, or the place of one is not.
fn has_order(rt: &impl Abort, alloc: Global, dag: &Dag) {
    let left = TaskId::parse(alloc, "left").expect(rt, "the id of a task");
    let is_third = dag.place_of(&left) == Some(2);
    drop(left);
    let is_earliest = dag.order() == [3, 1, 2, 0].as_slice();
    holds(rt, is_earliest, "the earliest that may be taken");
    holds(rt, is_third, "the place of left");
}

#[test]
fn neighbours_and_order_of_a_diamond(rt: HostRuntime) {
    let diamond = diamond(&rt, rt.alloc());
    has_neighbours(&rt, &diamond);
    has_order(&rt, rt.alloc(), &diamond);
    drop(diamond);
}

#[test]
fn order_of_the_copy_of_a_diamond(rt: HostRuntime) {
    let copy = copied(&rt, rt.alloc());
    has_order(&rt, rt.alloc(), &copy);
    drop(copy);
}
