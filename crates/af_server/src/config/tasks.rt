// The tasks of a DAG of the configuration, with the scripts of those that have one.
ghost use Rattle.std.specs.Prelude.{◌≡◌, map, codes};
ghost use Rattle.af_base.specs.JsonValue.{view};
ghost use Rattle.serde_json.specs.Find.{as_number};
ghost use Rattle.af_pool.specs.Pools.{ArePools};
ghost use Rattle.af_base.specs.Readings.{OrMemory, Makes, member_of, seen};
ghost use Rattle.af_server.specs.declared.reason.Reason.{Reason};
ghost use Rattle.af_server.specs.Tasks.{numbers_in, pool_text_in, slots_of, slots_or, task_in, task_pool_in, task_taken, tasks_in};

use super::rules::read_rule;
use super::scripts::add_script;
use super::upstream::read_upstream;
use crate::members::{name, number_or, optional_list, signed_or};
use crate::reason::Reason;
use af_base::{Json, is_there, member, optional_text};
use af_graph::TaskSpec;
use af_names::{DagId, PoolName};
use af_pool::{DEFAULT_POOL, Pool};
use af_sched::Script;
use std::alloc::Global;
use std::marker::Model;

/// The most retries.
const RETRIES: u32 = 1_000;

/// The longest delay before a retry: a year of 365 days, in seconds.
const DELAY: u32 = 31_536_000;

/// The tasks of a DAG that were read so far, with the scripts of those that have one.
#[derive(Drop)]
pub struct Tasks {
    pub tasks: Vec<TaskSpec>,
    pub scripts: Vec<Script>,
}

impl Model for Tasks {
    ghost use Rattle.af_server.specs.Tasks.{TasksRead};

    ghost Value = { TasksRead };

    ghost view = { λ read. record { tasks = read.tasks.items; scripts = read.scripts.items } };
}

/// The numbers of a task.
#[derive(Clone, Copy)]
struct Numbers {
    pool_slots: u64,
    priority_weight: i32,
    retries: u32,
    retry_delay: u32,
}

/// Reads the tasks of a DAG, in their order. Each names one of these pools.
pub fn read_tasks(
    alloc: Global,
    pools: &[Pool],
    dag_id: &DagId,
    rows: &[Json<'_>],
) -> Result<Tasks, Reason>
    requires { ArePools pools.now }
    ensures { OrMemory Reason.Memory (tasks_in pools.now dag_id.now (map view rows.now)) result }
{
    let mut read = Tasks {
        tasks: Vec::with_capacity(alloc, rows.len())?,
        scripts: Vec::new(alloc),
    };
    for row in rows {
        add_task(alloc, pools, dag_id, &mut read, row)?;
    }
    Ok(read)
}

fn add_task(
    alloc: Global,
    pools: &[Pool],
    dag_id: &DagId,
    read: &mut Tasks,
    row: &Json<'_>,
) -> Result<(), Reason>
    requires { ArePools pools.now }
    ensures { Makes Reason.Memory (task_taken pools.now dag_id.now read.old (view row.now)) read.new result }
{
    let task = read_task(alloc, pools, row)?;
    add_script(alloc, dag_id, &task.task_id, &mut read.scripts, row)?;
    read.tasks.push(task)?;
    Ok(())
}

/// Reads a task.
fn read_task(alloc: Global, pools: &[Pool], row: &Json<'_>) -> Result<TaskSpec, Reason>
    requires { ArePools pools.now }
    ensures { OrMemory Reason.Memory (task_in pools.now (view row.now)) result }
{
    let task_id = name(alloc, row, "task_id")?;
    let upstream = read_upstream(alloc, row)?;
    let pool = read_pool(alloc, pools, row)?;
    let numbers = read_numbers(row)?;
    let trigger_rule = read_rule(row)?;
    Ok(TaskSpec {
        task_id,
        upstream,
        pool,
        pool_slots: numbers.pool_slots,
        priority_weight: numbers.priority_weight,
        retries: numbers.retries,
        retry_delay: numbers.retry_delay,
        trigger_rule,
    })
}

/// The pool that a task names, which is one of these; the default one where it names none.
fn read_pool(alloc: Global, pools: &[Pool], row: &Json<'_>) -> Result<PoolName, Reason>
    requires { ArePools pools.now }
    ensures { OrMemory Reason.Memory (task_pool_in pools.now (view row.now)) result }
{
    let text = pool_text(row)?;
    let name = PoolName::parse(alloc, text)?;
    if is_there(pools, name.as_str()) {
        Ok(name)
    } else {
        Err(Reason::Pool)
    }
}

fn pool_text<'a>(row: &Json<'a>) -> Result<&'a str, Reason>
    ensures { seen (λ text. text.now) result ≡ pool_text_in (view row.now) }
{
    match optional_text(row, "pool", Reason::Shape)? {
        Some(text) => Ok(text),
        None => Ok(DEFAULT_POOL),
    }
}

/// Reads the numbers of a task.
fn read_numbers(row: &Json<'_>) -> Result<Numbers, Reason>
    ensures { result ≡ numbers_in (view row.now) }
{
    let pool_slots = slots_or_one(row)?;
    let priority_weight = signed_or(row, "priority_weight", 1)?;
    let retries = number_or(row, "retries", (0, RETRIES), 0)?;
    let retry_delay = number_or(row, "retry_delay", (0, DELAY), 300)?;
    Ok(Numbers {
        pool_slots,
        priority_weight,
        retries,
        retry_delay,
    })
}

fn slots_or_one(row: &Json<'_>) -> Result<u64, Reason>
    ensures { result ≡ slots_or (member_of (codes "pool_slots") (view row.now)) }
{
    match member(row, "pool_slots") {
        None => Ok(1),
        Some(value) => slots_of(value),
    }
}

/// An integer of 64 bits, one below 0 taken as 0.
fn slots_of(value: &Json<'_>) -> Result<u64, Reason>
    ensures { result ≡ slots_of (as_number (view value.now)) }
{
    match value.as_u64() {
        Some(slots) => Ok(slots),
        None if value.is_i64() => Ok(0),
        None => Err(Reason::Shape),
    }
}
