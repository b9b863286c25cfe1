// A DAG of the configuration: how it is run, and its tasks.
ghost use Rattle.std.specs.Prelude.{◌≡◌, []};
ghost use Rattle.af_base.specs.JsonValue.{view};
ghost use Rattle.af_graph.specs.Definition.{checked};
ghost use Rattle.af_pool.specs.Pools.{ArePools};
ghost use Rattle.af_base.specs.Readings.{OrMemory, Makes};
ghost use Rattle.af_server.specs.declared.reason.Reason.{Reason};
ghost use Rattle.af_server.specs.DagRows.{dag_in, dag_taken, graph_or, placed_dag, settings_in, spec_of};

use super::draft::StateDraft;
use super::schedules::read_schedule;
use super::tasks::{Tasks, read_tasks};
use crate::members::{name, number_or, optional_list, truth_or};
use crate::reason::Reason;
use af_base::Json;
use af_graph::{Dag, DagSpec, Schedule, TaskSpec, TaskSpecs};
use af_names::DagId;
use af_pool::Pool;
use af_sched::{DagRow, Script};
use std::alloc::Global;
use std::marker::Model;

/// The least and the most runs that are running at once.
const RUNS: (u32, u32) = (1, 1_000);

/// How a DAG is run.
#[derive(Clone, Copy)]
struct Settings {
    schedule: Option<Schedule>,
    catchup: bool,
    max_active_runs: u32,
    is_paused: bool,
}

/// A DAG, and the scripts of its tasks.
#[derive(Drop)]
struct ReadDag {
    row: DagRow,
    scripts: Vec<Script>,
}

impl Model for ReadDag {
    ghost use Rattle.af_server.specs.DagRows.{DagRead};

    ghost Value = { DagRead };

    ghost view = { λ read. record { row = read.row; scripts = read.scripts.items } };
}

/// Adds the DAG of a row, and the scripts of its tasks.
pub fn add_dag(alloc: Global, draft: &mut StateDraft, row: &Json<'_>) -> Result<(), Reason>
    ensures { Makes Reason.Memory (dag_taken draft.old (view row.now)) draft.new result }
{
    let dag = read_dag(alloc, draft.state.pools(), row)?;
    place_dag(draft, dag)
}

fn place_dag(draft: &mut StateDraft, read: ReadDag) -> Result<(), Reason>
    ensures { Makes Reason.Memory (placed_dag draft.old read) draft.new result }
{
    let ReadDag { row, mut scripts } = read;
    draft.state.add_dag(row)?;
    draft.scripts.append(&mut scripts)?;
    Ok(())
}

/// Reads a DAG whose tasks name these pools.
fn read_dag(alloc: Global, pools: &[Pool], row: &Json<'_>) -> Result<ReadDag, Reason>
    requires { ArePools pools.now }
    ensures { OrMemory Reason.Memory (dag_in pools.now (view row.now)) result }
{
    let dag_id: DagId = name(alloc, row, "dag_id")?;
    let settings = read_settings(row)?;
    let read = read_tasks(alloc, pools, &dag_id, optional_list(row, "tasks")?)?;
    let Tasks { tasks, scripts } = read;
    let dag = graph(alloc, dag_id, settings, tasks)?;
    Ok(ReadDag {
        row: DagRow::opened(dag, settings.is_paused),
        scripts,
    })
}

/// The DAG of these tasks.
fn graph(
    alloc: Global,
    dag_id: DagId,
    settings: Settings,
    tasks: Vec<TaskSpec>,
) -> Result<Dag, Reason>
    ensures { OrMemory Reason.Memory (graph_or (checked (spec_of dag_id settings record { tasks = tasks.items; scripts = [] }))) result }
{
    let spec = DagSpec {
        dag_id,
        tasks: TaskSpecs::of(tasks),
        schedule: settings.schedule,
        catchup: settings.catchup,
        max_active_runs: settings.max_active_runs,
    };
    Ok(Dag::new(alloc, spec)?)
}

/// Reads how a DAG is run.
fn read_settings(row: &Json<'_>) -> Result<Settings, Reason>
    ensures { result ≡ settings_in (view row.now) }
{
    let schedule = read_schedule(row)?;
    let catchup = truth_or(row, "catchup", true)?;
    let max_active_runs = number_or(row, "max_active_runs", RUNS, 16)?;
    let is_paused = truth_or(row, "is_paused", false)?;
    Ok(Settings {
        schedule,
        catchup,
        max_active_runs,
        is_paused,
    })
}
