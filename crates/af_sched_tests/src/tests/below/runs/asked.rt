use super::making::maybe;
use super::tasks::two_tasks;
use crate::tests::below::tasks::task_ids;
use af_graph::TaskSpec;
use af_names::{DagId, RunId};
use af_runs::{ChosenTasks, RunFilter, Selection};
use std::alloc::Global;
use std::process::Abort;

/// The ids of tasks that are asked for.
#[derive(Clone, Copy)]
pub enum Ids {
    /// Each task.
    Any,
    These(&'static [&'static str]),
}

/// What is asked for: task ids, only failed ones, a run id and the bounds of the logical date.
#[derive(Clone, Copy)]
pub struct Asked {
    pub ids: Ids,
    pub only_failed: bool,
    pub run_id: Option<&'static str>,
    pub start_date: Option<u32>,
    pub end_date: Option<u32>,
}

/// All instances of DAG a.
pub const ALL: Asked = Asked {
    ids: Ids::Any,
    only_failed: false,
    run_id: None,
    start_date: None,
    end_date: None,
};

/// All that failed.
pub const FAILED: Asked = Asked {
    only_failed: true,
    ..ALL
};

fn maybe_run(rt: &impl Abort, alloc: Global, run_id: Option<&str>) -> Option<RunId> {
    match run_id {
        Some(text) => Some(RunId::parse(alloc, text).expect(rt, "the id of a run")),
        None => None,
    }
}

/// The runs that are asked for.
pub fn filter_of(rt: &impl Abort, alloc: Global, asked: &Asked) -> RunFilter {
    RunFilter {
        dag_id: DagId::parse(alloc, "a").expect(rt, "the id of a DAG"),
        run_id: maybe_run(rt, alloc, asked.run_id),
        start_date: maybe(asked.start_date),
        end_date: maybe(asked.end_date),
    }
}

/// Those of these tasks that are asked for.
fn chosen_of(rt: &impl Abort, alloc: Global, tasks: &[TaskSpec], ids: Ids) -> ChosenTasks {
    match ids {
        Ids::These(texts) => {
            let ids = task_ids(rt, alloc, texts);
            ChosenTasks::of(alloc, tasks, Some(&ids)).expect(rt, "some tasks")
        }
        Ids::Any => ChosenTasks::of(alloc, tasks, None).expect(rt, "each task"),
    }
}

/// The selection, where task x has one retry and y has three.
pub fn selection_of(rt: &impl Abort, alloc: Global, asked: &Asked) -> Selection {
    let specs = two_tasks(rt, alloc);
    let tasks = chosen_of(rt, alloc, specs.as_slice(), asked.ids);
    drop(specs);
    Selection {
        tasks,
        only_failed: asked.only_failed,
    }
}
