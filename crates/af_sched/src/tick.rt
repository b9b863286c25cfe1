ghost use Rattle.std.specs.Prelude.{◌≡◌, ◌++◌, All, IfOk, OnOk, length, map};
ghost use Rattle.std.specs.List.Sorted.{IsStrictlySortedBy};
ghost use Rattle.std.specs.Ordering.{nat_cmp};
ghost use Rattle.af_runs.specs.Busy.{busy_of};
ghost use Rattle.af_sched.specs.Moves.{MovesOn};
ghost use Rattle.af_sched.specs.State.{IsWhole};

use crate::busy::busy_of;
use crate::dags::Dags;
use af_names::Instant;
use af_pool::Pools;
use af_runs::{Run, Runs};
use std::alloc::{AllocError, Global};

mod create;
mod due;
mod finish;
mod queue;
mod settle;
mod start;

pub(crate) use create::{add_all, create_all, runs_for};
use finish::finish_all;
use queue::queue_all;
use settle::settle_all;
use start::start_all;

/// The busy ones of these runs, and the added ones, after the second to the fifth phase of a tick. `AllocError` only where a
/// growth was refused.
pub(crate) fn moved_on(
    alloc: Global,
    dags: &Dags<'_>,
    pools: &Pools,
    at: Instant,
    runs: &Runs,
    added: Vec<Run>,
) -> Result<(Vec<Run>, Vec<Run>), AllocError>
    requires whole { All (IsWhole dags.now) (runs.now.rows ++ added.items) }
    requires in_order { IsStrictlySortedBy nat_cmp (map (λ run. run.number) (runs.now.rows ++ added.items)) }
    ensures runs { IfOk result (λ moved. MovesOn at dags.now pools.now.rows (busy_of runs.now.rows ++ added.items) (moved.0.items ++ moved.1.items)) }
    ensures count { IfOk result (λ moved. length moved.0.items ≡ length (busy_of runs.now.rows)) }
{
    let mut added = added;
    let mut work = busy_of(alloc, runs, added.len())?;
    let count = work.len();
    work.append(&mut added)?;
    move_on(alloc, dags, pools, at, work.as_mut_slice())?;
    let added = work.split_off(count)?;
    Ok((work, added))
}

/// The second to the fifth phase of a tick, on these runs. `AllocError` only where a growth was refused; some of the phases
/// may have been done then.
fn move_on(
    alloc: Global,
    dags: &Dags<'_>,
    pools: &Pools,
    at: Instant,
    runs: &mut [Run],
) -> Result<(), AllocError>
    requires whole { All (IsWhole dags.now) runs.old }
    requires in_order { IsStrictlySortedBy nat_cmp (map (λ run. run.number) runs.old) }
    ensures { OnOk result (MovesOn at dags.now pools.now.rows runs.old runs.new) }
{
    start_all(alloc, dags, at, runs)?;
    settle_all(dags, at, runs);
    queue_all(alloc, dags, pools, runs)?;
    finish_all(dags, at, runs);
    Ok(())
}
