//! What a world, a plane and a server for one thread open with. Who owns a state or a policy lends it, or hands it to `drop`, which is
//! proved once, where something else cannot be made.
use crate::tests::plane::users::{Users, policy};
use af_graph::{Dag, DagSpec, Points, Rule, Schedule, TaskIds, TaskSpec, TaskSpecs};
use af_names::{DagId, Instant, PoolName, Preset, TaskId};
use af_policy::Policy;
use af_sched::{DagRow, State};
use std::alloc::Global;
use std::test::Fail;

fn task(alloc: Global) -> Result<TaskSpec, Fail> {
    let task_id = TaskId::parse(alloc, "t")?;
    let pool = PoolName::parse(alloc, "default_pool")?;
    Ok(TaskSpec {
        task_id,
        upstream: TaskIds::of(Vec::new(alloc)),
        pool,
        pool_slots: 1,
        priority_weight: 1,
        retries: 0,
        retry_delay: 300,
        trigger_rule: Rule::AllSuccess,
    })
}

fn tasks(alloc: Global) -> Result<TaskSpecs, Fail> {
    let task = task(alloc)?;
    let tasks = vec![in alloc; task]?;
    Ok(TaskSpecs::of(tasks))
}

/// When a DAG is due, and whether for all points that have passed.
#[derive(Clone, Copy)]
pub struct Due {
    pub points: Points,
    pub from: &'static str,
    pub catchup: bool,
}

/// Each month, for all points that have passed.
pub const MONTHLY: Due = Due {
    points: Points::Preset(Preset::Monthly),
    from: "2024-01-31T00:00:00Z",
    catchup: true,
};

/// Each day of 2024 and after, for the last point that has passed alone.
const DAILY: Due = Due {
    points: Points::Preset(Preset::Daily),
    from: "2024-01-01T00:00:00Z",
    catchup: false,
};

fn schedule(due: Due) -> Result<Schedule, Fail> {
    Ok(Schedule {
        points: due.points,
        start_date: Instant::read(due.from)?,
    })
}

/// Which DAGs there are.
#[derive(Clone, Copy)]
pub enum Dags {
    /// a, which is paused, b and c.
    Three,
    /// b, and one that is due so.
    AndDue(Due),
    /// The three, and d, which is due each day.
    AndDaily,
}

fn dag_spec(
    alloc: Global,
    id: &str,
    schedule: Option<Schedule>,
    catchup: bool,
) -> Result<DagSpec, Fail> {
    let dag_id = DagId::parse(alloc, id)?;
    Ok(DagSpec {
        dag_id,
        tasks: tasks(alloc)?,
        schedule,
        catchup,
        max_active_runs: 16,
    })
}

/// A DAG of one task.
fn dag(alloc: Global, id: &str, schedule: Option<Schedule>, catchup: bool) -> Result<Dag, Fail> {
    let spec = dag_spec(alloc, id, schedule, catchup)?;
    Ok(Dag::new(alloc, spec)?)
}

/// Adds a DAG of one task, without a schedule.
fn add(alloc: Global, state: &mut State, id: &str, is_paused: bool) -> Result<(), Fail> {
    let row = DagRow::opened(dag(alloc, id, None, true)?, is_paused);
    Ok(state.add_dag(row)?)
}

/// Adds a DAG of one task that is due so.
fn add_due(alloc: Global, state: &mut State, id: &str, due: Due) -> Result<(), Fail> {
    let schedule = schedule(due)?;
    let row = DagRow::opened(dag(alloc, id, Some(schedule), due.catchup)?, false);
    Ok(state.add_dag(row)?)
}

/// The id of a DAG, and whether it is paused.
type Row = (&'static str, bool);

const THREE: &[Row] = &[("a", true), ("b", false), ("c", false)];

const ONLY_B: &[Row] = &[("b", false)];

fn add_rows(alloc: Global, state: &mut State, rows: &[Row]) -> Result<(), Fail> {
    for (id, is_paused) in rows {
        add(alloc, state, id, *is_paused)?;
    }
    Ok(())
}

/// Adds DAGs without a schedule, and one that is due so.
fn add_all(alloc: Global, state: &mut State, rows: &[Row], id: &str, due: Due) -> Result<(), Fail> {
    add_rows(alloc, state, rows)?;
    add_due(alloc, state, id, due)
}

fn fill(alloc: Global, state: &mut State, dags: Dags) -> Result<(), Fail> {
    match dags {
        Dags::Three => add_rows(alloc, state, THREE),
        Dags::AndDue(due) => add_all(alloc, state, ONLY_B, "due", due),
        Dags::AndDaily => add_all(alloc, state, THREE, "d", DAILY),
    }
}

/// A state of these DAGs.
pub fn state(alloc: Global, dags: Dags) -> Result<State, Fail> {
    let mut state = State::new(alloc)?;
    match fill(alloc, &mut state, dags) {
        Ok(()) => Ok(state),
        Err(fault) => {
            drop(state);
            Err(fault)
        }
    }
}

/// A policy of these users, and a state of these DAGs.
pub fn opened(alloc: Global, users: Users, dags: Dags) -> Result<(Policy, State), Fail> {
    let policy = policy(alloc, users)?;
    match state(alloc, dags) {
        Ok(state) => Ok((policy, state)),
        Err(fault) => {
            drop(policy);
            Err(fault)
        }
    }
}
