ghost use Rattle.std.specs.Prelude.{◌≡◌, ◌++◌, IfOk, OnOk, true};
ghost use Rattle.af_pool.specs.Occupants.{occupies};
ghost use Rattle.af_sched.specs.Claims.{is_claimable, claimed_instance};
ghost use Rattle.af_sched.specs.Choosing.{pooled_cmp};
ghost use Rattle.af_sched.specs.Placed.{comes_before, placed_cmp, placed_of, placed_in};
ghost use Rattle.af_sched.specs.Queue.{may_queue, occupant_of};

use crate::dags::Dags;
use crate::seat::Seat;
use af_graph::{TaskSpec, TaskState};
use af_names::{Instant, PoolName};
use af_runs::{Instance, Run, RunState};
use std::alloc::{AllocError, Global};
use std::cmp::Ordering;
use std::marker::Model;

/// An instance of a run, its place there, and the task that stands at that place of the definition.
#[derive(Drop)]
pub(crate) struct PlacedInstance<'a> {
    pub run: &'a Run,
    pub place: usize,
    pub task: &'a TaskSpec,
    pub instance: &'a Instance,
}

impl<'a> Model for PlacedInstance<'a> {
    ghost use Rattle.af_sched.specs.Placed.{Placed};

    ghost Value = { Placed };

    ghost view = { λ placed. record {
      run = placed.run.now;
      place = placed.place;
      task = placed.task.now;
      instance = placed.instance.now;
    } };
}

impl<'a> PlacedInstance<'a> {
    /// Whether it comes before another: by falling weight, then by run number, then by place.
    pub(crate) fn comes_before(&self, other: &PlacedInstance<'a>) -> bool
        ensures { result ≡ comes_before self.now other.now }
    {
        self.cmp_placed(other).is_lt()
    }

    /// How it stands to another: by falling weight, then by run number, then by place.
    fn cmp_placed(&self, other: &PlacedInstance<'a>) -> Ordering
        ensures { result ≡ placed_cmp self.now other.now }
    {
        let by_weight = other.task.priority_weight.cmp(&self.task.priority_weight);
        let by_number = self.run.number.cmp(&other.run.number);
        let by_place = self.place.cmp(&other.place);
        by_weight.then(by_number.then(by_place))
    }

    /// How it stands to another: by the name of its pool, then as they are queued.
    pub(crate) fn cmp_pooled(&self, other: &PlacedInstance<'a>) -> Ordering
        ensures { result ≡ pooled_cmp self.now other.now }
    {
        let by_pool = self.task.pool.cmp(&other.task.pool);
        by_pool.then(self.cmp_placed(other))
    }

    /// Whether it may be queued: it is scheduled, and its run is running, of a DAG that is not paused.
    pub(crate) fn may_queue(&self, dags: &Dags<'_>) -> bool
        ensures { result ≡ may_queue dags.now self.now }
    {
        if self.instance.state != TaskState::Scheduled || self.run.state != RunState::Running {
            return false;
        }
        match dags.get(&self.run.dag_id) {
            Some(row) => !row.is_paused,
            None => false,
        }
    }

    /// Whether it holds slots of the pool of this name.
    pub(crate) fn holds(&self, pool: &PoolName) -> bool
        ensures { result ≡ occupies pool.now (occupant_of self.now) }
    {
        self.task.pool == *pool
            && matches!(self.instance.state, TaskState::Queued | TaskState::Running)
    }

    /// The same instance again.
    pub(crate) fn again(&self) -> PlacedInstance<'a>
        ensures { result ≡ self.now }
    {
        PlacedInstance {
            run: self.run,
            place: self.place,
            task: self.task,
            instance: self.instance,
        }
    }

    /// Where it stands.
    pub(crate) fn seat(&self) -> Seat
        ensures { result ≡ record { number = self.now.run.number; place = self.now.place } }
    {
        Seat {
            number: self.run.number,
            place: self.place,
        }
    }

    /// Whether it may be claimed: it is queued, and a number is left for one more try.
    pub(crate) fn is_claimable(&self) -> bool
        ensures { result ≡ is_claimable self.now }
    {
        self.instance.state == TaskState::Queued && self.instance.try_number < u32::MAX
    }

    /// The instance once it is claimed at a moment.
    pub(crate) fn claimed(&self, at: Instant) -> Instance
        requires { is_claimable self.now ≡ true }
        ensures { result ≡ claimed_instance at self.now.instance }
    {
        Instance {
            state: TaskState::Running,
            try_number: self.instance.try_number + 1,
            max_tries: self.instance.max_tries,
            start_date: Some(at),
            end_date: None,
            retry_at: self.instance.retry_at,
        }
    }
}

/// The instances of these runs, in the order of runs and places. `AllocError` only where a growth was refused.
pub(crate) fn placed_in<'a>(
    alloc: Global,
    dags: &Dags<'a>,
    runs: &'a [Run],
) -> Result<Vec<PlacedInstance<'a>>, AllocError>
    ensures { IfOk result (λ all. all.items ≡ placed_in dags.now runs.now) }
{
    let mut all = Vec::with_capacity(alloc, runs.len())?;
    for run in runs {
        place_run(dags.tasks_of(&run.dag_id), run, &mut all)?;
    }
    Ok(all)
}

/// Appends the instances of a run of these tasks.
fn place_run<'a>(
    tasks: &'a [TaskSpec],
    run: &'a Run,
    all: &mut Vec<PlacedInstance<'a>>,
) -> Result<(), AllocError>
    ensures { OnOk result (all.new.items ≡ all.old.items ++ placed_of tasks.now run.now) }
{
    let instances = run.instances.as_slice();
    for place in 0..tasks.len().min(instances.len()) {
        all.push(PlacedInstance {
            run,
            place,
            task: &tasks[place],
            instance: &instances[place],
        })?;
    }
    Ok(())
}
