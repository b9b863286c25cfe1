mod held;
mod kept;

use crate::tests::asserts::{has_memory, holds, is_right};
use crate::tests::below::tasks::{dag, task};
use crate::tests::pools::are_pools;
use af_graph::Dag;
use af_names::PoolName;
use af_pool::{PoolFault, Pools};
use std::alloc::Global;
use std::process::Abort;

/// A pool is added or gets other slots, with so many slots, or is removed while there are DAGs or while there are none.
#[derive(Clone, Copy)]
enum Step {
    Add(u64),
    Set(u64),
    Remove,
    RemoveAmongDags,
}

use Step::{Add, Remove, RemoveAmongDags, Set};

/// A step on the pool of a name, and what it answers.
type Row<'a> = (Step, &'a str, Result<(), PoolFault>);

/// What a step on the pool of a name answers.
fn answer(pools: &mut Pools, name: PoolName, step: Step, dags: &[Dag]) -> Result<(), PoolFault> {
    match step {
        Add(slots) => pools.add(name, slots),
        Set(slots) => pools.set_slots(&name, slots),
        Remove => pools.remove::<Dag>(&name, &[]),
        RemoveAmongDags => pools.remove(&name, dags),
    }
}

/// The name of a pool.
fn name_of(rt: &impl Abort, alloc: Global, text: &str) -> PoolName {
    PoolName::parse(alloc, text).expect(rt, "the name of a pool")
}

/// Takes the steps, and ends the test where one answers otherwise.
fn play(rt: &impl Abort, alloc: Global, pools: &mut Pools, dags: &[Dag], steps: &[Row<'_>]) {
    for (place, (step, name, wanted)) in steps.iter().enumerate() {
        let told = answer(pools, name_of(rt, alloc, name), *step, dags);
        has_memory(rt, told != Err(PoolFault::OutOfMemory), name);
        is_right(rt, told == *wanted, name, place);
    }
}

/// Ends the test where the rows are not these.
fn have_rows(rt: &impl Abort, pools: &Pools, wanted: &[(&str, u32)], what: &str) {
    let are_pools = are_pools(pools.rows(), wanted);
    holds(rt, are_pools, what);
}

const ADDED: &[Row<'static>] = &[
    (Add(2), "p", Ok(())),
    (Add(0), "Zed", Ok(())),
    (Add(1_000_000), "d", Ok(())),
];

const REFUSED: &[Row<'static>] = &[
    (Add(3), "p", Err(PoolFault::Exists)),
    (Add(1_000_001), "p", Err(PoolFault::BadSlots)),
    (Set(1), "absent", Err(PoolFault::NoSuchPool)),
    (Set(1_000_001), "p", Err(PoolFault::BadSlots)),
    (Remove, "default_pool", Err(PoolFault::DefaultPool)),
    (Remove, "absent", Err(PoolFault::NoSuchPool)),
];

const CHANGED: &[Row<'static>] = &[
    (Set(7), "p", Ok(())),
    (Set(1), "default_pool", Ok(())),
    (Remove, "d", Ok(())),
];

const FIRST: &[(&str, u32)] = &[("default_pool", 128)];

const ALL: &[(&str, u32)] = &[
    ("Zed", 0),
    ("d", 1_000_000),
    ("default_pool", 128),
    ("p", 2),
];

const LEFT: &[(&str, u32)] = &[("Zed", 0), ("default_pool", 1), ("p", 7)];

/// Steps, and the rows after the last of them.
const STAGES: &[(&[Row<'static>], &[(&str, u32)])] = &[
    (&[], FIRST),
    (ADDED, ALL),
    (REFUSED, ALL),
    (CHANGED, LEFT),
];

/// The slots of the pool of a name, if it is there.
fn slots_of(pools: &Pools, name: &PoolName) -> Option<u32> {
    match pools.get(name) {
        Some(pool) => Some(pool.slots),
        None => None,
    }
}

/// Names, and the slots of those pools that are there.
const FOUND: &[(&str, Option<u32>)] = &[("p", Some(7)), ("Zed", Some(0)), ("absent", None)];

/// Whether it is told rightly whether the pool of a name is there, and whether these are its slots.
fn is_found(
    rt: &impl Abort,
    alloc: Global,
    pools: &Pools,
    text: &str,
    slots: Option<u32>,
) -> (bool, bool) {
    let name = name_of(rt, alloc, text);
    let is_there = pools.has(&name) == slots.is_some();
    let has_slots = slots_of(pools, &name) == slots;
    drop(name);
    (is_there, has_slots)
}

/// Ends the test where a pool is not found as it should be.
fn are_found(rt: &impl Abort, alloc: Global, pools: &Pools) {
    for (name, slots) in FOUND {
        let (is_there, has_slots) = is_found(rt, alloc, pools, name, *slots);
        holds(rt, is_there, name);
        holds(rt, has_slots, name);
    }
}

/// What is told where the rows after the steps are others.
const AFTER: &str = "the rows after the steps";

/// Ends the test where one of the stages does not go as it says.
fn go(rt: &impl Abort, alloc: Global, pools: &mut Pools) {
    for (steps, rows) in STAGES {
        play(rt, alloc, pools, &[], steps);
        have_rows(rt, pools, rows, AFTER);
    }
}

/// New pools, of which the default pool is one.
fn new_pools(rt: &impl Abort, alloc: Global) -> Pools {
    Pools::new(alloc).expect(rt, "new pools")
}

#[test]
fn rows_go_by_name_and_a_fault_leaves_them(rt: HostRuntime) {
    let mut pools = new_pools(&rt, rt.alloc());
    go(&rt, rt.alloc(), &mut pools);
    are_found(&rt, rt.alloc(), &pools);
    drop(pools);
}

const IN_RESERVE: &[Row<'static>] = &[
    (Add(1), "q", Ok(())),
    (Add(2), "p", Ok(())),
    (Add(3), "r", Ok(())),
];

const FOUR: &[(&str, u32)] = &[("default_pool", 128), ("p", 2), ("q", 1), ("r", 3)];

/// Reserves two rows of new pools; ends the test where the rows are not as before, or there is no room for two.
fn reserve_two(rt: &impl Abort, pools: &mut Pools) {
    pools.reserve(2).expect(rt, "two rows are reserved");
    have_rows(rt, pools, FIRST, "as before");
    holds(rt, pools.spare() >= 2, "room for two");
}

#[test]
fn reserved_rows_are_there(rt: HostRuntime) {
    let mut pools = new_pools(&rt, rt.alloc());
    reserve_two(&rt, &mut pools);
    play(&rt, rt.alloc(), &mut pools, &[], IN_RESERVE);
    have_rows(&rt, &pools, FOUR, AFTER);
    drop(pools);
}

/// Adds a pool of this name and so many slots.
fn add(rt: &impl Abort, alloc: Global, pools: &mut Pools, name: &str, slots: u64) {
    let told = pools.add(name_of(rt, alloc, name), slots);
    told.expect(rt, "a pool is added");
}

/// The default pool, and p of so many slots.
fn with_p(rt: &impl Abort, alloc: Global, slots: u64) -> Pools {
    let mut pools = new_pools(rt, alloc);
    add(rt, alloc, &mut pools, "p", slots);
    pools
}

const AMONG_DAGS: &[Row<'static>] = &[
    (Add(2), "p", Ok(())),
    (Add(2), "q", Ok(())),
    (RemoveAmongDags, "p", Err(PoolFault::InUse)),
    (Remove, "p", Ok(())),
    (RemoveAmongDags, "q", Ok(())),
];

/// A DAG of two tasks, x in the default pool and y in p.
fn dag_of_two(rt: &impl Abort, alloc: Global) -> Dag {
    let first = task(rt, alloc, "x", "default_pool");
    let second = task(rt, alloc, "y", "p");
    let tasks = vec![in alloc; first, second].expect(rt, "two tasks");
    dag(rt, alloc, "a", tasks)
}

/// Ends the test where of new pools one that a task of these DAGs names does not stay.
fn named_stays(rt: &impl Abort, alloc: Global, dags: &[Dag]) {
    let mut pools = new_pools(rt, alloc);
    play(rt, alloc, &mut pools, dags, AMONG_DAGS);
    have_rows(rt, &pools, FIRST, AFTER);
    drop(pools);
}

#[test]
fn a_pool_that_a_task_names_stays(rt: HostRuntime) {
    let dags = [dag_of_two(&rt, rt.alloc())];
    named_stays(&rt, rt.alloc(), &dags);
    drop(dags);
}
