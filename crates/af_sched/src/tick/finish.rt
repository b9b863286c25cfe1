ghost use Rattle.std.specs.Prelude.{◌≡◌, ◌<◌, ◌&&◌, All, length, map};
ghost use Rattle.af_sched.specs.Finish.{all_finished, end_state, ends, finished_run, has_failed, is_leaf, some_leaf_failed};
ghost use Rattle.af_sched.specs.Settle.{state_at};
ghost use Rattle.af_sched.specs.State.{IsWhole, tasks_of};

use crate::dags::Dags;
use crate::tick::settle::state_at;
use af_graph::{Dag, TaskState};
use af_names::Instant;
use af_runs::{Instance, OptionalInstant, Run, RunState};

/// The fifth phase of a tick, on these runs: those that are running and whose instances have all finished end.
pub(crate) fn finish_all(dags: &Dags<'_>, at: Instant, runs: &mut [Run])
    requires { All (IsWhole dags.now) runs.old }
    ensures { runs.new ≡ map (λ run. finished_run at (tasks_of dags.now run.dag_id) run) runs.old }
{
    for run in runs.iter_mut() {
        finish_run(dags, at, run);
    }
}

/// Ends a run where it is running and its instances have all finished.
fn finish_run(dags: &Dags<'_>, at: Instant, run: &mut Run)
    requires { IsWhole dags.now run.old }
    ensures { run.new ≡ finished_run at (tasks_of dags.now run.old.dag_id) run.old }
{
    if run.state == RunState::Running {
        if let Some(row) = dags.get(&run.dag_id) {
            finish(&row.dag, at, run);
        }
    }
}

/// Ends a run of this DAG at a moment where it is running and its instances have all finished.
fn finish(dag: &Dag, at: Instant, run: &mut Run)
    ensures { run.new ≡ finished_run at dag.now.tasks run.old }
{
    if ends(run) {
        run.state = end_state(dag, run.instances.as_slice());
        run.end_date = OptionalInstant::from(Some(at));
    }
}

/// Whether a run ends: it is running, and its instances have all finished.
fn ends(run: &Run) -> bool
    ensures { result ≡ ends run.now }
{
    run.state == RunState::Running && all_finished(run.instances.as_slice())
}

fn all_finished(instances: &[Instance]) -> bool
    ensures { result ≡ all_finished instances.now }
{
    instances
        .iter()
        .all(|instance| instance.state.is_finished())
}

/// How a run with these instances ends.
fn end_state(dag: &Dag, instances: &[Instance]) -> RunState
    ensures { result ≡ end_state dag.now.tasks instances.now }
{
    if some_leaf_failed(dag, instances) {
        RunState::Failed
    } else {
        RunState::Success
    }
}

/// Whether a task without downstream is failed or upstream_failed.
fn some_leaf_failed(dag: &Dag, instances: &[Instance]) -> bool
    ensures { result ≡ some_leaf_failed dag.now.tasks instances.now }
{
    for place in 0..dag.tasks().len() {
        if is_failed_leaf(dag, instances, place) {
            return true;
        }
    }
    false
}

/// Whether the task at a place is without downstream, and failed or upstream_failed.
fn is_failed_leaf(dag: &Dag, instances: &[Instance], place: usize) -> bool
    requires { place < length dag.now.tasks }
    ensures { result ≡ (is_leaf dag.now.tasks place && has_failed (state_at instances.now place)) }
{
    dag.downstream(place).is_empty() && has_failed(state_at(instances, place))
}

/// Whether an instance in this state has failed, or never ran since something above it failed.
fn has_failed(state: TaskState) -> bool
    ensures { result ≡ has_failed state }
{
    match state {
        TaskState::Failed | TaskState::UpstreamFailed => true,
        _ => false,
    }
}
