use super::{task, tasks};
use crate::tests::asserts::{has_memory, holds, row_holds};
use crate::tests::below::tasks::{definition, task_ids};
use af_graph::{Dag, DagFault, TaskIds, TaskSpec};
use std::alloc::Global;
use std::process::Abort;

/// What is told of a definition of these tasks, if it is no DAG. Out of memory ends the test.
fn told(rt: &impl Abort, alloc: Global, tasks: Vec<TaskSpec>) -> Option<DagFault> {
    match Dag::new(alloc, definition(rt, alloc, "d", tasks)) {
        Ok(dag) => {
            drop(dag);
            None
        }
        Err(fault) => {
            let has_room = !matches!(&fault, DagFault::OutOfMemory);
            has_memory(rt, has_room, "a definition");
            Some(fault)
        }
    }
}

/// The kind of what is told, and the id of the task that it names.
fn shown<'a>(told: &'a Option<DagFault>) -> (&'static str, &'a str) {
    let Some(fault) = told else {
        return ("fine", "");
    };
    match fault {
        DagFault::NoTask => ("none", ""),
        DagFault::TooMany => ("many", ""),
        DagFault::Duplicate(id) => ("duplicate", id.as_str()),
        DagFault::UnknownUpstream(id) => ("unknown", id.as_str()),
        DagFault::Cycle(id) => ("cycle", id.as_str()),
        DagFault::BadSlots(id) => ("slots", id.as_str()),
        DagFault::OutOfMemory => ("memory", ""),
    }
}

/// Tasks, each after those, of so many slots, and what is told of them.
type Row = (
    &'static [(&'static str, &'static [&'static str])],
    u64,
    (&'static str, &'static str),
);

const FAULTS: &[Row] = &[
    (&[], 1, ("none", "")),
    (&[("x", &["y"]), ("y", &["x"])], 1, ("cycle", "x")),
    (
        &[
            ("free", &[]),
            ("below", &["itself"]),
            ("itself", &["itself", "free"]),
        ],
        0,
        ("cycle", "below"),
    ),
    (
        &[("a", &["nobody"]), ("b", &[]), ("a", &[])],
        0,
        ("duplicate", "a"),
    ),
    (
        &[("a", &["a"]), ("b", &["a", "nobody"])],
        0,
        ("unknown", "b"),
    ),
    (&[("a", &[])], 0, ("slots", "a")),
    (&[("a", &[])], 1, ("fine", "")),
    (&[("a", &[])], 1_000_000, ("fine", "")),
    (&[("a", &[])], 1_000_001, ("slots", "a")),
];

/// Whether that is told of the tasks of a row.
fn is_told(rt: &impl Abort, alloc: Global, row: &Row) -> bool {
    let fault = told(rt, alloc, tasks(rt, alloc, row.0, row.1));
    let is_told = shown(&fault) == row.2;
    drop(fault);
    is_told
}

#[test]
fn the_first_fault_is_told(rt: HostRuntime) {
    for (place, row) in FAULTS.iter().enumerate() {
        let is_told = is_told(&rt, rt.alloc(), row);
        row_holds(&rt, is_told, place);
    }
}

/// The text of the id of the task at this place: t and its number.
fn id_of(rt: &impl Abort, alloc: Global, place: usize) -> String {
    format!(in alloc; "t{place}").expect(rt, "the text of an id")
}

/// The task at this place, after those.
fn numbered(rt: &impl Abort, alloc: Global, place: usize, before: TaskIds) -> TaskSpec {
    let id = id_of(rt, alloc, place);
    let task = task(rt, alloc, id.as_str(), before, 1);
    drop(id);
    task
}

/// The id of the task at the place before this one, if there is one.
fn before(rt: &impl Abort, alloc: Global, place: usize) -> TaskIds {
    if place == 0 {
        return TaskIds::of(Vec::new(alloc));
    }
    let id = id_of(rt, alloc, place - 1);
    let ids = task_ids(rt, alloc, &[id.as_str()]);
    drop(id);
    ids
}

/// So many tasks, each after the one before it.
fn chain(rt: &impl Abort, alloc: Global, count: usize) -> Vec<TaskSpec> {
    let mut tasks = Vec::new(alloc);
    for place in 0..count {
        let task = numbered(rt, alloc, place, before(rt, alloc, place));
        tasks.push(task).expect(rt, "room for a task");
    }
    tasks
}

/// Whether this is told of so many tasks, each after the one before it.
fn is_told_of(rt: &impl Abort, alloc: Global, count: usize, wanted: &Option<DagFault>) -> bool {
    let fault = told(rt, alloc, chain(rt, alloc, count));
    let is_told = fault == *wanted;
    drop(fault);
    is_told
}

#[test]
fn the_most_tasks(rt: HostRuntime) {
    let of_512 = is_told_of(&rt, rt.alloc(), 512, &None);
    holds(&rt, of_512, "a chain of 512");
    let of_513 = is_told_of(&rt, rt.alloc(), 513, &Some(DagFault::TooMany));
    holds(&rt, of_513, "a chain of 513");
}
