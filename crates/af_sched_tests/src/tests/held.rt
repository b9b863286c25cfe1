use crate::tests::asserts::holds;
use crate::tests::fresh::with_new_state;
use crate::tests::openings::{add_dag_of_one, add_pool, add_pooled, add_run_of_one, moment};
use af_graph::TaskState;
use af_names::PoolName;
use af_runs::Mark;
use af_sched::{Held, State};
use std::alloc::Global;
use std::process::Abort;
use std::test::Fail;

/// The states of four instances of pool p, of three slots and of one each.
const STATES: &[TaskState] = &[
    TaskState::Queued,
    TaskState::Running,
    TaskState::Running,
    TaskState::Success,
];

/// How many pools are asked for, after how many, and what is held of them.
const PAGES: &[(usize, usize, &[Held])] = &[
    (10, 0, &[OF_THE_DEFAULT, OF_P, NOTHING]),
    (2, 0, &[OF_THE_DEFAULT, OF_P]),
    (1, 1, &[OF_P]),
    (10, 2, &[NOTHING]),
    (10, 3, &[]),
    (0, 0, &[]),
];

const NOTHING: Held = Held {
    queued: 0,
    running: 0,
};

const OF_P: Held = Held {
    queued: 3,
    running: 2,
};

const OF_THE_DEFAULT: Held = Held {
    queued: 1,
    running: 0,
};

const TASKS: &[(&str, u64, i32)] = &[("a", 3, 1), ("b", 1, 1), ("c", 1, 1), ("d", 1, 1)];

/// Adds two instances of the default pool, of which one is of a run that has ended.
fn add_two(alloc: Global, state: &mut State) -> Result<(), Fail> {
    add_dag_of_one(alloc, state, "h", 1, false)?;
    let _queued = add_run_of_one(alloc, state, "h", "a", 0, TaskState::Queued)?;
    let ended = add_run_of_one(alloc, state, "h", "b", 1, TaskState::Queued)?;
    state.mark_run(ended, Mark::Success, moment(2)?);
    Ok(())
}

/// Adds four instances of pool p, two of the default pool, of which one is of a run that has ended, and none of pool q.
fn add_six(alloc: Global, state: &mut State) -> Result<(), Fail> {
    add_pooled(alloc, state, 9, TASKS, false, STATES)?;
    add_pool(alloc, state, "q", 1)?;
    add_two(alloc, state)
}

#[test]
fn what_instances_hold_of_a_pool_is_told(rt: HostRuntime) -> Result<(), Fail> {
    with_new_state(&rt, each_is_told)
}

/// Pools, and what is held of each.
const HELD: &[(&str, Held)] = &[
    ("p", OF_P),
    ("default_pool", OF_THE_DEFAULT),
    ("q", NOTHING),
    ("x", NOTHING),
];

/// Ends the test where it is not told what six instances, added to a new state, hold of each pool.
fn each_is_told(rt: &impl Abort, alloc: Global, state: &mut State) -> Result<(), Fail> {
    add_six(alloc, state)?;
    for (name, wanted) in HELD {
        let told = held_of(alloc, state, name)?;
        holds(rt, told == *wanted, name);
    }
    Ok(())
}

/// What is held of the pool of this name.
fn held_of(alloc: Global, state: &State, name: &str) -> Result<Held, Fail> {
    Ok(state.held(&PoolName::parse(alloc, name)?))
}

#[test]
fn what_instances_hold_of_a_page_is_told(rt: HostRuntime) -> Result<(), Fail> {
    with_new_state(&rt, pages_are_told)
}

/// Ends the test where it is not told what six instances, added to a new state, hold of each page of pools.
fn pages_are_told(rt: &impl Abort, alloc: Global, state: &mut State) -> Result<(), Fail> {
    add_six(alloc, state)?;
    for (limit, offset, wanted) in PAGES {
        let is_told = is_page(alloc, state, *limit, *offset, wanted)?;
        holds(rt, is_told, "the page");
    }
    Ok(())
}

/// Whether this is held of so many pools, after so many.
fn is_page(
    alloc: Global,
    state: &State,
    limit: usize,
    offset: usize,
    wanted: &[Held],
) -> Result<bool, Fail> {
    let told = state.each_held(alloc, limit, offset)?;
    Ok(told.as_slice() == wanted)
}
