use crate::tests::asserts::holds;
use crate::tests::fresh::with_new_state;
use crate::tests::openings::{add_pool, add_pooled};
use af_graph::TaskState;
use af_names::PoolName;
use af_pool::{Pool, PoolFault};
use af_sched::State;
use std::alloc::Global;
use std::process::Abort;
use std::test::Fail;

const UNTRIED: &[TaskState] = &[TaskState::NoStatus];

/// Pools that are removed, one after the other, and the faults that are told.
const REMOVED: &[(&str, Option<PoolFault>)] = &[
    ("x", Some(PoolFault::NoSuchPool)),
    ("default_pool", Some(PoolFault::DefaultPool)),
    ("p", Some(PoolFault::InUse)),
    ("q", None),
    ("q", Some(PoolFault::NoSuchPool)),
];

const LEFT: &[(&str, u32)] = &[("default_pool", 128), ("p", 2)];

/// Pools and slots, why such a pool is not added, and why it does not get these slots.
const FAULTS: &[(&str, u64, Option<PoolFault>, Option<PoolFault>)] = &[
    ("p", 1_000_001, BAD, BAD),
    ("x", 1_000_001, BAD, BAD),
    ("p", 1, Some(PoolFault::Exists), None),
    ("x", 1, None, Some(PoolFault::NoSuchPool)),
];

const BAD: Option<PoolFault> = Some(PoolFault::BadSlots);

/// Adds to the default pool p of two slots, which the only task names, and q, which no task names.
fn add_two_pools(alloc: Global, state: &mut State) -> Result<(), Fail> {
    add_pooled(alloc, state, 2, &[("t", 1, 1)], false, UNTRIED)?;
    state.reserve_pools(1)?;
    add_pool(alloc, state, "q", 7)
}

/// Whether the pools have these names and slots.
pub fn are_pools(rows: &[Pool], wanted: &[(&str, u32)]) -> bool {
    for (row, (name, slots)) in rows.iter().zip(wanted) {
        if row.name.as_str() != *name || row.slots != *slots {
            return false;
        }
    }
    rows.len() == wanted.len()
}

/// Removes a pool: what is told beforehand, and then.
fn removed(
    alloc: Global,
    state: &mut State,
    name: &str,
) -> Result<(Option<PoolFault>, Option<PoolFault>), Fail> {
    let pool = PoolName::parse(alloc, name)?;
    let before = state.remove_pool_fault(&pool);
    Ok((before, state.remove_pool(&pool).err()))
}

/// Ends the test where the removal of a pool is not foretold and told as it should be.
fn are_removed(rt: &impl Abort, alloc: Global, state: &mut State) -> Result<(), Fail> {
    for (name, wanted) in REMOVED {
        let (before, then) = removed(alloc, state, name)?;
        holds(rt, before == *wanted, name);
        holds(rt, then == *wanted, name);
    }
    Ok(())
}

#[test]
fn a_pool_that_is_needed_stays(rt: HostRuntime) -> Result<(), Fail> {
    with_new_state(&rt, needed_stays)
}

/// Ends the test where of the pools of a new state not those that are needed are left.
fn needed_stays(rt: &impl Abort, alloc: Global, state: &mut State) -> Result<(), Fail> {
    add_two_pools(alloc, state)?;
    are_removed(rt, alloc, state)?;
    let are_left = are_pools(state.pools(), LEFT);
    holds(rt, are_left, "the pools that are left");
    Ok(())
}

/// The faults that are foretold of a pool of this name and so many slots: where it is added, and where it gets these.
fn foretold(
    alloc: Global,
    state: &State,
    name: &str,
    slots: u64,
) -> Result<(Option<PoolFault>, Option<PoolFault>), Fail> {
    let pool = PoolName::parse(alloc, name)?;
    Ok((
        state.add_pool_fault(&pool, slots),
        state.set_slots_fault(&pool, slots),
    ))
}

#[test]
fn faults_of_pools_are_told_beforehand(rt: HostRuntime) -> Result<(), Fail> {
    with_new_state(&rt, are_foretold)
}

/// Ends the test where faults of the pools of a new state are not told beforehand.
fn are_foretold(rt: &impl Abort, alloc: Global, state: &mut State) -> Result<(), Fail> {
    add_two_pools(alloc, state)?;
    for (name, slots, adding, setting) in FAULTS {
        let (added, set) = foretold(alloc, state, name, *slots)?;
        holds(rt, added == *adding, name);
        holds(rt, set == *setting, name);
    }
    Ok(())
}

#[test]
fn a_pool_is_looked_up(rt: HostRuntime) -> Result<(), Fail> {
    with_new_state(&rt, are_looked_up)
}

/// Ends the test where the pools of a new state are not found.
fn are_looked_up(rt: &impl Abort, alloc: Global, state: &mut State) -> Result<(), Fail> {
    add_two_pools(alloc, state)?;
    for (name, wanted) in LOOKED_UP {
        let told = slots_of(alloc, state, name)?;
        holds(rt, told == *wanted, name);
    }
    Ok(())
}

/// Pools, and the slots that are found.
const LOOKED_UP: &[(&str, Option<u32>)] = &[("q", Some(7)), ("p", Some(2)), ("x", None)];

/// The slots of the pool of this name.
pub fn slots_of(alloc: Global, state: &State, name: &str) -> Result<Option<u32>, Fail> {
    let name = PoolName::parse(alloc, name)?;
    match state.pool(&name) {
        Some(pool) => Ok(Some(pool.slots)),
        None => Ok(None),
    }
}
