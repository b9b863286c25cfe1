use super::{add, have_rows, name_of, with_p};
use crate::tests::asserts::holds;
use af_names::PoolName;
use af_pool::{NamesPools, PoolFault, Pools};
use std::alloc::Global;
use std::process::Abort;

/// A row that names one pool.
#[derive(Drop)]
struct OnePool {
    pool: PoolName,
}

impl NamesPools for OnePool {
    ghost use Rattle.std.specs.Prelude.{[], ◌∷◌};

    ghost pools = { λ row. row.pool ∷ [] };

    fn names_pool(&self, name: &PoolName) -> bool {
        self.pool == *name
    }
}

/// The default pool, p and q.
fn with_p_and_q(rt: &impl Abort, alloc: Global) -> Pools {
    let mut pools = with_p(rt, alloc, 2);
    add(rt, alloc, &mut pools, "q", 2);
    pools
}

/// Ends the test where the removal of a pool among these rows is not told as it should be.
fn are_removed(rt: &impl Abort, alloc: Global, pools: &mut Pools, rows: &[OnePool]) {
    for (name, wanted) in REMOVED {
        let (before, told) = removed(rt, alloc, pools, name, rows);
        holds(rt, before == wanted.err(), name);
        holds(rt, told == *wanted, name);
    }
}

#[test]
fn rows_of_any_kind_keep_the_pools_that_they_name(rt: HostRuntime) {
    let rows = two_rows(&rt, rt.alloc());
    named_are_kept(&rt, rt.alloc(), rows.as_slice());
    drop(rows);
}

/// Ends the test where of the default pool, p and q not those that these rows name are kept.
fn named_are_kept(rt: &impl Abort, alloc: Global, rows: &[OnePool]) {
    let mut pools = with_p_and_q(rt, alloc);
    are_removed(rt, alloc, &mut pools, rows);
    have_rows(rt, &pools, NAMED, "those that are named");
    drop(pools);
}

const NAMED: &[(&str, u32)] = &[("default_pool", 128), ("p", 2)];

/// Pools that are removed among rows that name the default pool and p.
const REMOVED: &[(&str, Result<(), PoolFault>)] = &[
    ("absent", Err(PoolFault::NoSuchPool)),
    ("default_pool", Err(PoolFault::DefaultPool)),
    ("p", Err(PoolFault::InUse)),
    ("q", Ok(())),
    ("q", Err(PoolFault::NoSuchPool)),
];

/// A row that names the pool of this name.
fn row(rt: &impl Abort, alloc: Global, pool: &str) -> OnePool {
    OnePool {
        pool: name_of(rt, alloc, pool),
    }
}

/// Rows that name the default pool and p.
fn two_rows(rt: &impl Abort, alloc: Global) -> Vec<OnePool> {
    let first = row(rt, alloc, "default_pool");
    let second = row(rt, alloc, "p");
    vec![in alloc; first, second].expect(rt, "two rows")
}

/// Removes the pool of a name: the fault that is foretold, and what is told.
fn removed(
    rt: &impl Abort,
    alloc: Global,
    pools: &mut Pools,
    text: &str,
    rows: &[OnePool],
) -> (Option<PoolFault>, Result<(), PoolFault>) {
    let name = name_of(rt, alloc, text);
    let before = pools.remove_fault(&name, rows);
    let told = pools.remove(&name, rows);
    drop(name);
    (before, told)
}
