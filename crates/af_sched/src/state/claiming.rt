ghost use Rattle.std.specs.Prelude.{◌≡◌, ◌<◌, IfOk, IfSome, None, Ok, OnErr, MatchOption, length, option_copied, slice_index_or, true};
ghost use Rattle.af_sched.specs.Claims.{is_claimable, Claims, ClaimsNone, IsNextClaim, claim_of};
ghost use Rattle.af_sched.specs.Placed.{IsFirstOf, NonePasses, Placed, placed_of, placed_in};
ghost use Rattle.af_sched.specs.State.{tasks_of};
ghost use Rattle.af_sched.specs.Steps.{Continues, first_with, has_queued};
ghost use Rattle.af_sched.specs.Weights.{IsAsHeavy, StandsBefore};

use crate::claim::Claim;
use crate::dags::Dags;
use crate::placed::PlacedInstance;
use crate::state::State;
use af_graph::{TaskSpec, TaskState};
use af_names::Instant;
use af_runs::{Run, Runs};
use std::alloc::{AllocError, Global};

impl State {
    /// Claims the first queued instance, of all runs, by falling weight, then by run number, then by place: it is
    /// running from this moment on. None where none is queued, memory or not; one that was tried 4,294,967,295 times is
    /// passed over. `AllocError` only where a growth was refused; then the state is as before.
    pub fn claim(&mut self, alloc: Global, at: Instant) -> Result<Option<Claim>, AllocError>
        ensures ok { IfOk result (λ claim. MatchOption claim (ClaimsNone self.old.rows self.new.rows) (Claims at self.old.rows self.new.rows)) }
        ensures none { NonePasses is_claimable (placed_in self.old.rows.dags self.old.rows.runs) → result ≡ Ok None }
        ensures err { OnErr result (self.new ≡ self.old) }
        ensures spare_runs { self.new.spare_runs ≡ self.old.spare_runs }
        ensures spare_pools { self.new.spare_pools ≡ self.old.spare_pools }
        ensures spare_variables { self.new.spare_variables ≡ self.old.spare_variables }
    {
        let Some(first) = first_claimable(&self.by_id(), &self.runs) else {
            return Ok(None);
        };
        let claim = claim_of(alloc, &first)?;
        let place = first.place;
        let instance = first.claimed(at);
        self.runs.set_instance(claim.run_number, place, instance);
        Ok(Some(claim))
    }

    /// What `claim` would tell, at any moment. `AllocError` only where a growth was refused, so never where none is queued.
    pub fn next_claim(&self, alloc: Global) -> Result<Option<Claim>, AllocError>
        ensures ok { IfOk result (IsNextClaim self.now.rows) }
        ensures none { NonePasses is_claimable (placed_in self.now.rows.dags self.now.rows.runs) → result ≡ Ok None }
    {
        match first_claimable(&self.by_id(), &self.runs) {
            Some(first) => Ok(Some(claim_of(alloc, &first)?)),
            None => Ok(None),
        }
    }
}

/// Of the instances that may be claimed, the first in the order. Only runs that hold slots have any, and they come by
/// number: none comes before one that is as heavy as any task.
fn first_claimable<'a>(dags: &Dags<'a>, runs: &'a Runs) -> Option<PlacedInstance<'a>>
    ensures { IsFirstOf is_claimable (placed_in dags.now runs.now.rows) result }
{
    // Numbers rise.
    let _rows = runs.rows();
    let mut first = None;
    for run in runs.holders() {
        first = first_after(first, dags, run);
        if is_as_heavy(first.as_ref(), dags.heaviest()) {
            return first;
        }
    }
    first
}

/// Whether there is an instance, of a task at least as heavy as this.
fn is_as_heavy(first: Option<&PlacedInstance<'_>>, weight: i32) -> bool
    ensures { result ≡ true → IsAsHeavy weight (option_copied first.entry) }
{
    match first {
        Some(first) => first.task.priority_weight >= weight,
        None => false,
    }
}

/// Whether there is an instance, of a task at least as heavy as this one.
fn is_no_lighter(first: Option<&PlacedInstance<'_>>, task: &TaskSpec) -> bool
    ensures { result ≡ true → IsAsHeavy task.now.priority_weight (option_copied first.entry) }
{
    match first {
        Some(first) => first.task.priority_weight >= task.priority_weight,
        None => false,
    }
}

/// The first in the order, once the instances of this run have been seen too, where that so far is of an earlier run. The DAG
/// is looked up where one is queued.
fn first_after<'a>(
    so_far: Option<PlacedInstance<'a>>,
    dags: &Dags<'a>,
    run: &'a Run,
) -> Option<PlacedInstance<'a>>
    requires { IfSome so_far (StandsBefore run.now.number 0) }
    ensures { Continues is_claimable (placed_of (tasks_of dags.now run.now.dag_id) run.now) so_far.entry result }
{
    if !has_queued(run) {
        return so_far;
    }
    first_after_run(so_far, dags.tasks_of(&run.dag_id), run)
}

/// Whether an instance of a run is queued.
fn has_queued(run: &Run) -> bool
    ensures { result ≡ has_queued run.now }
{
    run.instances
        .as_slice()
        .iter()
        .any(|instance| instance.state == TaskState::Queued)
}

/// The first in the order, once the instances of this run of these tasks have been seen too, where that so far is of an
/// earlier run.
fn first_after_run<'a>(
    so_far: Option<PlacedInstance<'a>>,
    tasks: &'a [TaskSpec],
    run: &'a Run,
) -> Option<PlacedInstance<'a>>
    requires { IfSome so_far (StandsBefore run.now.number 0) }
    ensures { Continues is_claimable (placed_of tasks.now run.now) so_far.entry result }
{
    let instances = run.instances.as_slice();
    let mut first = so_far;
    for place in 0..tasks.len().min(instances.len()) {
        first = first_at(first, tasks, run, place);
    }
    first
}

/// The first in the order, once the instance at a place of this run of these tasks has been seen too, where that so far stands
/// before it: no instance of a task that is no heavier comes before that one, so it is not looked at.
fn first_at<'a>(
    first: Option<PlacedInstance<'a>>,
    tasks: &'a [TaskSpec],
    run: &'a Run,
    place: usize,
) -> Option<PlacedInstance<'a>>
    requires task { place < length tasks.now }
    requires instance { place < length run.now.instances }
    requires before { IfSome first (StandsBefore run.now.number place) }
    ensures { (d : Placed) → result ≡ first_with is_claimable first.entry (slice_index_or (placed_of tasks.now run.now) place d) }
{
    let task = &tasks[place];
    if is_no_lighter(first.as_ref(), task) {
        return first;
    }
    let next = PlacedInstance {
        run,
        place,
        task,
        instance: &run.instances.as_slice()[place],
    };
    first_with(first, next)
}

/// The first in the order, once this instance has been seen too.
fn first_with<'a>(
    first: Option<PlacedInstance<'a>>,
    next: PlacedInstance<'a>,
) -> Option<PlacedInstance<'a>>
    ensures { result ≡ first_with is_claimable first.entry next.entry }
{
    if !next.is_claimable() {
        return first;
    }
    match first {
        Some(first) if !next.comes_before(&first) => Some(first),
        _ => Some(next),
    }
}

/// What the executor is told of an instance that it claims. `AllocError` only where a growth was refused.
fn claim_of(alloc: Global, placed: &PlacedInstance<'_>) -> Result<Claim, AllocError>
    requires { is_claimable placed.now ≡ true }
    ensures { IfOk result (λ claim. claim ≡ claim_of placed.now) }
{
    let dag_id = placed.run.dag_id.copied(alloc)?;
    let run_id = placed.run.run_id.copied(alloc)?;
    let task_id = placed.task.task_id.copied(alloc)?;
    Ok(Claim {
        run_number: placed.run.number,
        dag_id,
        run_id,
        task_id,
        try_number: placed.instance.try_number + 1,
    })
}
