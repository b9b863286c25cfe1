use super::{name_of, with_p};
use crate::tests::asserts::row_holds;
use af_graph::TaskState;
use af_names::PoolName;
use af_pool::{Occupant, Pools};
use std::alloc::Global;
use std::process::Abort;

fn occupant<'a>(pool: &'a PoolName, slots: u64, state: TaskState) -> Occupant<'a> {
    Occupant { pool, slots, state }
}

/// Four instances in a pool, the first of three slots, the others of one.
fn occupants<'a>(pool: &'a PoolName, states: [TaskState; 4]) -> [Occupant<'a>; 4] {
    let [first, second, third, fourth] = states;
    [
        occupant(pool, 3, first),
        occupant(pool, 1, second),
        occupant(pool, 1, third),
        occupant(pool, 1, fourth),
    ]
}

const UNTRIED: [TaskState; 4] = [
    TaskState::NoStatus,
    TaskState::NoStatus,
    TaskState::NoStatus,
    TaskState::NoStatus,
];

const TWO_QUEUED: [TaskState; 4] = [
    TaskState::Scheduled,
    TaskState::Queued,
    TaskState::Queued,
    TaskState::Scheduled,
];

const ONE_OF_EACH: [TaskState; 4] = [
    TaskState::Scheduled,
    TaskState::Running,
    TaskState::Queued,
    TaskState::Scheduled,
];

const ONE_RUNNING: [TaskState; 4] = [
    TaskState::Scheduled,
    TaskState::Success,
    TaskState::Running,
    TaskState::Scheduled,
];

const NONE_HELD: [TaskState; 4] = [
    TaskState::Scheduled,
    TaskState::Success,
    TaskState::Success,
    TaskState::Scheduled,
];

const ALL_HELD: [TaskState; 4] = [
    TaskState::Queued,
    TaskState::Queued,
    TaskState::Running,
    TaskState::Running,
];

/// The pool asked for, the slots of p, the states, and what is occupied, queued, running and open.
type Row = (&'static str, u64, [TaskState; 4], [u64; 4]);

const HELD: &[Row] = &[
    ("p", 2, UNTRIED, [0, 0, 0, 2]),
    ("p", 2, TWO_QUEUED, [2, 2, 0, 0]),
    ("p", 1, ONE_OF_EACH, [2, 1, 1, 0]),
    ("p", 1, ONE_RUNNING, [1, 0, 1, 0]),
    ("p", 1, NONE_HELD, [0, 0, 0, 1]),
    ("absent", 1, ALL_HELD, [0, 0, 0, 0]),
];

/// What instances in these states hold of the pool of a name.
fn held(pools: &Pools, name: &PoolName, states: [TaskState; 4]) -> [u64; 4] {
    let them = occupants(name, states);
    [
        pools.occupied(name, &them),
        pools.queued(name, &them),
        pools.running(name, &them),
        pools.open(name, &them),
    ]
}

/// Gives p so many slots.
fn set_p(rt: &impl Abort, alloc: Global, pools: &mut Pools, slots: u64) {
    let name = name_of(rt, alloc, "p");
    let told = pools.set_slots(&name, slots);
    drop(name);
    told.expect(rt, "the slots of p");
}

/// Whether it is told what instances hold, where p has the slots of a row.
fn is_held(rt: &impl Abort, alloc: Global, pools: &mut Pools, row: &Row) -> bool {
    set_p(rt, alloc, pools, row.1);
    let name = name_of(rt, alloc, row.0);
    let is_held = held(pools, &name, row.2) == row.3;
    drop(name);
    is_held
}

/// Ends the test where it is not told what the instances of each row hold.
fn are_held(rt: &impl Abort, alloc: Global, pools: &mut Pools) {
    for (place, row) in HELD.iter().enumerate() {
        let is_held = is_held(rt, alloc, pools, row);
        row_holds(rt, is_held, place);
    }
}

#[test]
fn queued_and_running_instances_hold_slots(rt: HostRuntime) {
    let mut pools = with_p(&rt, rt.alloc(), 2);
    are_held(&rt, rt.alloc(), &mut pools);
    drop(pools);
}
