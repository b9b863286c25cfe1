use super::super::making::moment;
use super::super::tasks::task;
use crate::tests::openings::manual_run;
use af_graph::TaskState;
use af_names::{DagId, RunId};
use af_runs::{ChosenTasks, Instance, Instances, Mark, NewRun, RunState, Runs, Selection};
use std::alloc::Global;
use std::process::Abort;

/// The id of the run of a key.
pub fn run_id(rt: &impl Abort, alloc: Global, key: u32) -> RunId {
    let text = format!(in alloc; "manual__{key}").expect(rt, "the text of an id");
    let id = RunId::parse(alloc, text.as_str()).expect(rt, "the id of a run");
    drop(text);
    id
}

fn instance(held: bool) -> Instance {
    Instance {
        state: if held {
            TaskState::Queued
        } else {
            TaskState::NoStatus
        },
        try_number: 0,
        max_tries: 0,
        start_date: None,
        end_date: None,
        retry_at: None,
    }
}

/// A new run of this DAG and a key.
pub fn new_run(rt: &impl Abort, alloc: Global, dag_id: &DagId, key: u32) -> NewRun {
    let items = vec![in alloc; instance(false)].expect(rt, "one instance");
    let dag_id = dag_id.copied(alloc).expect(rt, "the id of a DAG again");
    let run_id = run_id(rt, alloc, key);
    manual_run(dag_id, run_id, moment(key), Instances::of(items))
}

/// All instances of a run of one task.
pub fn all(rt: &impl Abort, alloc: Global) -> Selection {
    let specs = vec![in alloc; task(rt, alloc, "x", 0)].expect(rt, "one task");
    let tasks = ChosenTasks::of(alloc, specs.as_slice(), None).expect(rt, "each task");
    drop(specs);
    Selection {
        tasks,
        only_failed: false,
    }
}

/// Clears all of the run of a number.
fn clear_run(rt: &impl Abort, alloc: Global, runs: &mut Runs, number: u64) {
    let all = all(rt, alloc);
    runs.clear_run(number, &all);
    drop(all);
}

/// The mark that an act is, if it is one.
fn mark_of(act: u64) -> Option<Mark> {
    match act {
        8 => Some(Mark::Success),
        9 => Some(Mark::Failed),
        10 => Some(Mark::Queued),
        _ => None,
    }
}

/// Takes a run out, ends it, or queues or settles its instance, if an act is that.
fn set(runs: &mut Runs, act: u64, number: u64) {
    match act {
        0 => runs.remove(number),
        1 => runs.set_state(number, RunState::Success, None, None),
        2 => runs.set_instance(number, 0, instance(true)),
        3 => runs.set_instance(number, 0, instance(false)),
        _ => {}
    }
}

pub fn act_on_runs(rt: &impl Abort, alloc: Global, runs: &mut Runs, act: u64, number: u64) {
    if let Some(mark) = mark_of(act) {
        runs.mark(number, mark, moment(9));
        return;
    }
    match act {
        4 => runs.reserve(3).expect(rt, "room for three"),
        11 => clear_run(rt, alloc, runs, number),
        _ => set(runs, act, number),
    }
}
