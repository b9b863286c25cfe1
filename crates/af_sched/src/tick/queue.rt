ghost use Rattle.std.specs.Prelude.{◌≡◌, ◌==◌, if◌then◌else◌, ◌<◌, ◌-◌, ◌^◌, ◌⊎◌, OnOk, OnErr, MatchOption, map, min, IfOk, filter, sum_by, length, slice_index_or, true, false};
ghost use Rattle.std.specs.List.{enumerate_from};
ghost use Rattle.std.specs.List.Sorted.{IsStrictlySortedBy, IsPermutation, IsSorted};
ghost use Rattle.std.specs.Ordering.{nat_cmp};
ghost use Rattle.af_runs.specs.Places.{StandsAt, StandsNowhere};
ghost use Rattle.af_graph.specs.Graph.{same_name};
ghost use Rattle.af_pool.specs.Occupants.{occupies};
ghost use Rattle.af_sched.specs.Choosing.{with_seat, AreCandidates, Chooses, held_of, is_among, pooled_cmp};
ghost use Rattle.af_sched.specs.Queue.{QueuesRuns, queued_instance, IsQueueing, may_queue, occupant_of};
ghost use Rattle.af_sched.specs.Placed.{Placed};

use crate::dags::Dags;
use crate::placed::{PlacedInstance, placed_in};
use crate::seat::Seat;
use af_graph::TaskState;
use af_names::PoolName;
use af_pool::Pools;
use af_runs::{Instance, Instances, Run};
use std::alloc::{AllocError, Global};

/// The fourth phase of a tick, on these runs, whose numbers rise: scheduled instances of running runs of unpaused DAGs are
/// queued, by falling weight, then by run number, then by place, where their pools have room for them. `AllocError` only
/// where a growth was refused; then the runs are as before.
pub(crate) fn queue_all(
    alloc: Global,
    dags: &Dags<'_>,
    pools: &Pools,
    runs: &mut [Run],
) -> Result<(), AllocError>
    requires { IsStrictlySortedBy nat_cmp (map (λ run. run.number) runs.old) }
    ensures ok { OnOk result (QueuesRuns dags.now pools.now.rows runs.old runs.new) }
    ensures err { OnErr result (runs.new ≡ runs.old) }
{
    let seats = chosen(alloc, dags, pools, runs)?;
    for seat in seats.as_slice() {
        queue_at(runs, *seat);
    }
    Ok(())
}

/// Queues the instance of a seat, where it is there.
fn queue_at(runs: &mut [Run], seat: Seat)
    requires { IsStrictlySortedBy nat_cmp (map (λ run. run.number) runs.old) }
    ensures { runs.new ≡ map (with_seat seat) runs.old }
{
    if let Some(row) = row_of(runs, seat.number) {
        queue_place(&mut runs[row].instances, seat.place);
    }
}

/// Where the run of this number stands.
fn row_of(runs: &[Run], number: u64) -> Option<usize>
    requires { IsStrictlySortedBy nat_cmp (map (λ run. run.number) runs.now) }
    ensures { MatchOption result (StandsNowhere runs.now number) (StandsAt runs.now number) }
{
    runs.binary_search_by_key(&number, |run| run.number).ok()
}

/// Queues the instance at a place, where there is one.
fn queue_place(instances: &mut Instances, place: usize)
    ensures { instances.new ≡ map (λ row. if place == row.0 then queued_instance row.1 else row.1) (enumerate_from 0 instances.old) }
{
    if place >= instances.as_slice().len() {
        return;
    }
    let instance = instances.as_slice()[place];
    let queued = Instance {
        state: TaskState::Queued,
        ..instance
    };
    instances.set(place, queued);
}

/// Which instances of these runs are queued. `AllocError` only where a growth was refused. The instances are sorted once,
/// and all are gone over once for each pool of a scheduled one.
fn chosen(
    alloc: Global,
    dags: &Dags<'_>,
    pools: &Pools,
    runs: &[Run],
) -> Result<Vec<Seat>, AllocError>
    requires { IsStrictlySortedBy nat_cmp (map (λ run. run.number) runs.now) }
    ensures { IfOk result (λ seats. IsQueueing dags.now runs.now pools.now.rows (is_among seats.items)) }
{
    let all = placed_in(alloc, dags, runs)?;
    let mut candidates = scheduled(alloc, dags, all.as_slice())?;
    sort_pooled(&mut candidates);
    choose(alloc, pools, all.as_slice(), candidates.as_slice())
}

/// Those of these instances that may be queued.
fn scheduled<'a>(
    alloc: Global,
    dags: &Dags<'_>,
    all: &[PlacedInstance<'a>],
) -> Result<Vec<PlacedInstance<'a>>, AllocError>
    ensures { IfOk result (λ candidates. candidates.items ≡ filter (may_queue dags.now) all.now) }
{
    all.iter()
        .filter(|placed| placed.may_queue(dags))
        .map(|placed| placed.again())
        .collect(alloc)
}

/// Puts the candidates in order: by the name of the pool, then as they are queued.
fn sort_pooled(candidates: &mut Vec<PlacedInstance<'_>>)
    ensures permutation { IsPermutation candidates.old.items candidates.new.items }
    ensures sorted { IsSorted pooled_cmp candidates.new.items }
{
    candidates.sort_unstable_by(|one: &PlacedInstance<'_>, other: &PlacedInstance<'_>| {
        one.cmp_pooled(other)
    });
}

/// Of these candidates, in their order, the seats of those that find room.
fn choose(
    alloc: Global,
    pools: &Pools,
    all: &[PlacedInstance<'_>],
    candidates: &[PlacedInstance<'_>],
) -> Result<Vec<Seat>, AllocError>
    requires { AreCandidates all.now candidates.now }
    ensures { IfOk result (λ seats. Chooses pools.now.rows all.now candidates.now seats.items) }
{
    let mut seats = Vec::new(alloc);
    let mut held = 0;
    for place in 0..candidates.len() {
        let next = &candidates[place];
        held = held_before(all, candidates, place, held);
        let needed = held.saturating_add(next.task.pool_slots);
        if needed <= u64::from(pools.slots(&next.task.pool)) {
            seats.push(next.seat())?;
            held = needed;
        }
    }
    Ok(seats)
}

/// What is held of the pool of the candidate at a place, from what was held of that of the one before it.
fn held_before(
    all: &[PlacedInstance<'_>],
    candidates: &[PlacedInstance<'_>],
    place: usize,
    held: u64,
) -> u64
    requires { place < length candidates.now }
    ensures same { (d : Placed) → 0 < place → same_name (slice_index_or candidates.now (place - 1) d).task.pool (slice_index_or candidates.now place d).task.pool ≡ true → result ≡ held }
    ensures other { (d : Placed) → (place ≡ 0) ⊎ (same_name (slice_index_or candidates.now (place - 1) d).task.pool (slice_index_or candidates.now place d).task.pool ≡ false) → result ≡ min (held_of all.now (slice_index_or candidates.now place d).task.pool) (2 ^ 64 - 1) }
{
    let next = &candidates[place];
    if place > 0 {
        let before = &candidates[place - 1];
        if before.task.pool == next.task.pool {
            return held;
        }
    }
    held_of(all, &next.task.pool)
}

/// The slots of a pool that these instances hold, or the largest `u64` where they are more.
fn held_of(all: &[PlacedInstance<'_>], pool: &PoolName) -> u64
    ensures { result ≡ min (held_of all.now pool.now) (2 ^ 64 - 1) }
{
    u64::try_from(slots_held(all, pool)).unwrap_or(u64::MAX)
}

/// The slots of a pool that these instances hold.
fn slots_held(all: &[PlacedInstance<'_>], pool: &PoolName) -> u128
    ensures { result ≡ sum_by (λ placed. placed.task.pool_slots) (filter (λ placed. occupies pool.now (occupant_of placed)) all.now) }
{
    all.iter()
        .filter(|placed| placed.holds(pool))
        .map(|placed| u128::from(placed.task.pool_slots))
        .sum()
}
