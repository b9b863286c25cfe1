ghost use Rattle.std.specs.Prelude.{◌≡◌, ◌<◌, ◌≤◌, ◌+◌, length, map, All};
ghost use Rattle.std.specs.List.{AllZip};
ghost use Rattle.af_graph.specs.TriggerRules.{counts_of};
ghost use Rattle.af_sched.specs.Settle.{state_at, verdict_at, settled_instance, decided_instance, retried_instance, SettlesInstances, SettlesIfLive};
ghost use Rattle.af_sched.specs.Steps.{SetsSettled};
ghost use Rattle.af_sched.specs.State.{IsWhole};

use crate::dags::Dags;
use af_graph::{Counts, Dag, TaskState, Verdict};
use af_names::Instant;
use af_runs::{Instance, Instances, Run, RunState};

/// The third phase of a tick, on these runs: the instances of running runs of unpaused DAGs are settled.
pub(crate) fn settle_all(dags: &Dags<'_>, at: Instant, runs: &mut [Run])
    requires { All (IsWhole dags.now) runs.old }
    ensures { AllZip (SettlesIfLive at dags.now) runs.old runs.new }
{
    for run in runs.iter_mut() {
        settle_run(dags, at, run);
    }
}

/// Settles the instances of a run where it is running and its DAG is not paused.
fn settle_run(dags: &Dags<'_>, at: Instant, run: &mut Run)
    requires { IsWhole dags.now run.old }
    ensures { SettlesIfLive at dags.now run.old run.new }
{
    if run.state != RunState::Running {
        return;
    }
    if let Some(row) = dags.get(&run.dag_id) {
        if !row.is_paused {
            settle(&row.dag, at, &mut run.instances);
        }
    }
}

/// Settles the instances of a run of this DAG at a moment: in the order of the graph each becomes what its rule decides.
fn settle(dag: &Dag, at: Instant, instances: &mut Instances)
    requires { length instances.old ≡ length dag.now.tasks }
    ensures { SettlesInstances at dag.now.tasks instances.old instances.new }
{
    let order = dag.order();
    for place in order {
        settle_at(dag, usize::from(*place), at, instances);
    }
}

/// Settles the instance at one place, by the states that those upstream of it have.
fn settle_at(dag: &Dag, place: usize, at: Instant, instances: &mut Instances)
    requires place { place < length dag.now.tasks }
    requires count { length instances.old ≡ length dag.now.tasks }
    ensures { SetsSettled at dag.now.tasks place instances.old instances.new }
{
    let instance = instances.as_slice()[place];
    let settled = match instance.state {
        TaskState::NoStatus => decided(instance, verdict_at(dag, place, instances.as_slice()), at),
        TaskState::UpForRetry => retried(instance, at),
        _ => return,
    };
    instances.set(place, settled);
}

/// What the rule of the task at a place decides on the states of the instances upstream of it.
fn verdict_at(dag: &Dag, place: usize, instances: &[Instance]) -> Verdict
    requires { place < length dag.now.tasks }
    ensures { result ≡ verdict_at dag.now.tasks instances.now place }
{
    let upstream = dag.upstream(place);
    if upstream.is_empty() {
        return Verdict::Ready;
    }
    counts_of(upstream, instances).decide(dag.rule_of(place))
}

/// How many of the instances at these places have each of the four finished states.
fn counts_of(places: &[u16], instances: &[Instance]) -> Counts
    ensures counts { result ≡ counts_of (map (state_at instances.now) places.now) }
    ensures within { result.success + result.failed + result.upstream_failed + result.skipped ≤ result.all }
{
    let mut counts = Counts {
        all: places.len(),
        success: 0,
        failed: 0,
        upstream_failed: 0,
        skipped: 0,
    };
    for place in places {
        match state_at(instances, usize::from(*place)) {
            TaskState::Success => counts.success += 1,
            TaskState::Failed => counts.failed += 1,
            TaskState::UpstreamFailed => counts.upstream_failed += 1,
            TaskState::Skipped => counts.skipped += 1,
            _ => {}
        }
    }
    counts
}

/// The state of the instance at a place; `NoStatus` past the last.
pub(crate) fn state_at(instances: &[Instance], place: usize) -> TaskState
    ensures { result ≡ state_at instances.now place }
{
    instances
        .get(place)
        .map_or(TaskState::NoStatus, |instance| instance.state)
}

/// An instance without a state, once its rule has decided at a moment.
fn decided(instance: Instance, verdict: Verdict, at: Instant) -> Instance
    ensures { result ≡ decided_instance at verdict instance }
{
    match verdict {
        Verdict::Ready => Instance {
            state: TaskState::Scheduled,
            ..instance
        },
        Verdict::UpstreamFailed => Instance {
            state: TaskState::UpstreamFailed,
            end_date: Some(at),
            ..instance
        },
        Verdict::Skipped => Instance {
            state: TaskState::Skipped,
            end_date: Some(at),
            ..instance
        },
        Verdict::Wait => instance,
    }
}

/// An instance that waits for its next try, at a moment: scheduled where the try's moment has come.
fn retried(instance: Instance, at: Instant) -> Instance
    ensures { result ≡ retried_instance at instance }
{
    match instance.retry_at {
        Some(moment) if moment <= at => Instance {
            state: TaskState::Scheduled,
            retry_at: None,
            ..instance
        },
        _ => instance,
    }
}
