ghost use Rattle.std.specs.Prelude.{◌≡◌, ◌∷◌, [], IfOk, length};
ghost use Rattle.af_base.specs.Ordered.{AreInOrder};
ghost use Rattle.af_pool.specs.Occupants.{holds_slots};
ghost use Rattle.af_pool.specs.Pools.{name_of};
ghost use Rattle.af_sched.specs.Counting.{CountsMore, counts_of, with_slots};
ghost use Rattle.af_sched.specs.Placed.{placed_in, placed_of};

use crate::dags::Dags;
use crate::held::Held;
use crate::placed::PlacedInstance;
use af_base::place_in;
use af_graph::{TaskSpec, TaskState};
use af_pool::Pool;
use af_runs::{Run, Runs};
use std::alloc::{AllocError, Global};

/// What the instances of these runs hold of each of these pools. `AllocError` only where a growth was refused. It goes over
/// the runs that hold slots once, and finds the pool of each queued or running instance by binary search.
pub(crate) fn counts_of(
    alloc: Global,
    dags: &Dags<'_>,
    runs: &Runs,
    pools: &[Pool],
) -> Result<Vec<Held>, AllocError>
    requires { AreInOrder name_of pools.now }
    ensures { IfOk result (λ counts. counts.items ≡ counts_of (placed_in dags.now runs.now.rows) pools.now) }
{
    let mut counts = no_counts(alloc, pools)?;
    count_runs(dags, runs, pools, counts.as_mut_slice());
    Ok(counts)
}

/// For each of these pools, that nothing is held of it. `AllocError` only where a growth was refused.
fn no_counts(alloc: Global, pools: &[Pool]) -> Result<Vec<Held>, AllocError>
    ensures { IfOk result (λ counts. counts.items ≡ counts_of [] pools.now) }
{
    pools.iter().map(|_pool| Held::NONE).collect(alloc)
}

/// Counts the instances of these runs, where none was counted. It goes over the runs that hold slots alone.
pub(crate) fn count_runs(dags: &Dags<'_>, runs: &Runs, pools: &[Pool], counts: &mut [Held])
    requires in_order { AreInOrder name_of pools.now }
    requires none { counts.old ≡ counts_of [] pools.now }
    ensures { counts.new ≡ counts_of (placed_in dags.now runs.now.rows) pools.now }
{
    for run in runs.holders() {
        count_run(dags.tasks_of(&run.dag_id), run, pools, counts);
    }
}

/// Counts the instances of a run of these tasks.
fn count_run(tasks: &[TaskSpec], run: &Run, pools: &[Pool], counts: &mut [Held])
    requires in_order { AreInOrder name_of pools.now }
    requires long { length counts.old ≡ length pools.now }
    ensures counts { CountsMore (placed_of tasks.now run.now) pools.now counts.old counts.new }
    ensures long { length counts.new ≡ length pools.now }
{
    let instances = run.instances.as_slice();
    for place in 0..tasks.len().min(instances.len()) {
        let placed = PlacedInstance {
            run,
            place,
            task: &tasks[place],
            instance: &instances[place],
        };
        count(&placed, pools, counts);
    }
}

/// Counts an instance, of whatever pool of these.
fn count(placed: &PlacedInstance<'_>, pools: &[Pool], counts: &mut [Held])
    requires in_order { AreInOrder name_of pools.now }
    requires long { length counts.old ≡ length pools.now }
    ensures counts { CountsMore (placed.now ∷ []) pools.now counts.old counts.new }
    ensures long { length counts.new ≡ length pools.now }
{
    let state = placed.instance.state;
    if !holds_slots(state) {
        return;
    }
    if let Ok(place) = place_in(pools, placed.task.pool.as_str()) {
        counts[place] = with_slots(counts[place], state, placed.task.pool_slots);
    }
}

/// Whether an instance in this state holds slots.
fn holds_slots(state: TaskState) -> bool
    ensures { result ≡ holds_slots state }
{
    matches!(state, TaskState::Queued | TaskState::Running)
}

/// What is held, once an instance in this state holds so many slots too.
fn with_slots(held: Held, state: TaskState, slots: u64) -> Held
    ensures { result ≡ with_slots state slots held }
{
    match state {
        TaskState::Queued => Held {
            queued: held.queued.saturating_add(slots),
            ..held
        },
        TaskState::Running => Held {
            running: held.running.saturating_add(slots),
            ..held
        },
        _ => held,
    }
}
