ghost use Rattle.std.specs.Prelude.{◌≡◌, Err, Some, IfSome, IsNone, IsOk, OnOk, OnErr, find};
ghost use Rattle.af_sched.specs.Placed.{placed_of, placed_in};
ghost use Rattle.af_sched.specs.Reports.{fault_at, is_claimed, report_fault, reported, reported_instance, failed_instance};

use crate::claim::Claim;
use crate::dags::Dags;
use crate::outcome::Outcome;
use crate::placed::PlacedInstance;
use crate::report_fault::ReportFault;
use crate::state::State;
use af_graph::{TaskSpec, TaskState};
use af_names::Instant;
use af_runs::{Instance, Run, Runs};

impl State {
    /// Takes the outcome of a claimed try: success and skipped end the instance at this moment; failed ends it too,
    /// where no try is left or the moment of the next one, `retry_delay` seconds later, is past the end of 9998, and else
    /// it is up for retry until then. The instance is found by the number of the run and the id of the task. Where
    /// several faults apply, the first of `ReportFault` is told; a fault leaves the state as it was.
    pub fn report(
        &mut self,
        claim: &Claim,
        outcome: Outcome,
        at: Instant,
    ) -> Result<(), ReportFault>
        ensures refused { IfSome (report_fault self.old.rows claim.now) (λ fault. result ≡ Err fault) }
        ensures accepted { IsNone (report_fault self.old.rows claim.now) → IsOk result }
        ensures ok { OnOk result (self.new ≡ record self.old { rows = reported at outcome self.old.rows claim.now }) }
        ensures err { OnErr result (self.new ≡ self.old) }
    {
        let Some(placed) = instance_of(&self.by_id(), &self.runs, claim) else {
            return Err(ReportFault::NoSuchInstance);
        };
        if let Some(fault) = fault_at(claim, &placed) {
            return Err(fault);
        }
        let (number, place) = (placed.run.number, placed.place);
        let instance = reported(*placed.instance, outcome, placed.task, at);
        self.runs.set_instance(number, place, instance);
        Ok(())
    }

    /// Why `report` would not take the outcome of a claimed try: the first of `ReportFault` that applies.
    pub fn report_fault(&self, claim: &Claim) -> Option<ReportFault>
        ensures { result ≡ report_fault self.now.rows claim.now }
    {
        match instance_of(&self.by_id(), &self.runs, claim) {
            Some(placed) => fault_at(claim, &placed),
            None => Some(ReportFault::NoSuchInstance),
        }
    }
}

/// The instance that a claim names: by the number of its run and the id of its task.
fn instance_of<'a>(dags: &Dags<'a>, runs: &'a Runs, claim: &Claim) -> Option<PlacedInstance<'a>>
    ensures { result ≡ find (is_claimed claim.now) (placed_in dags.now runs.now.rows) }
{
    // No two runs have one number.
    let _rows = runs.rows();
    let run = runs.get(claim.run_number)?;
    instance_in_run(dags.tasks_of(&run.dag_id), run, claim)
}

/// The instance of a run that a claim names.
fn instance_in_run<'a>(
    tasks: &'a [TaskSpec],
    run: &'a Run,
    claim: &Claim,
) -> Option<PlacedInstance<'a>>
    ensures { result ≡ find (is_claimed claim.now) (placed_of tasks.now run.now) }
{
    let instances = run.instances.as_slice();
    for place in 0..tasks.len().min(instances.len()) {
        let placed = PlacedInstance {
            run,
            place,
            task: &tasks[place],
            instance: &instances[place],
        };
        if is_claimed(claim, &placed) {
            return Some(placed);
        }
    }
    None
}

/// Whether an instance is the one that a claim names.
fn is_claimed(claim: &Claim, placed: &PlacedInstance<'_>) -> bool
    ensures { result ≡ is_claimed claim.now placed.now }
{
    placed.run.number == claim.run_number && placed.task.task_id == claim.task_id
}

/// Why a report on this instance is not taken.
fn fault_at(claim: &Claim, placed: &PlacedInstance<'_>) -> Option<ReportFault>
    ensures { result ≡ fault_at claim.now placed.now }
{
    if placed.instance.state != TaskState::Running {
        Some(ReportFault::NotRunning)
    } else if placed.instance.try_number != claim.try_number {
        Some(ReportFault::WrongTry)
    } else {
        None
    }
}

/// An instance of a task after the report of an outcome.
fn reported(instance: Instance, outcome: Outcome, task: &TaskSpec, at: Instant) -> Instance
    ensures { result ≡ reported_instance at outcome task.now instance }
{
    match outcome {
        Outcome::Success => ended(instance, TaskState::Success, at),
        Outcome::Skipped => ended(instance, TaskState::Skipped, at),
        Outcome::Failed => failed(instance, task, at),
    }
}

/// An instance of a task that has failed: it is tried again where a try is left and its moment is an instant.
fn failed(instance: Instance, task: &TaskSpec, at: Instant) -> Instance
    ensures { result ≡ failed_instance at task.now instance }
{
    match at.plus_seconds(task.retry_delay) {
        Some(moment) if u64::from(instance.try_number) <= instance.max_tries => Instance {
            state: TaskState::UpForRetry,
            end_date: Some(at),
            retry_at: Some(moment),
            ..instance
        },
        _ => ended(instance, TaskState::Failed, at),
    }
}

/// An instance that ends in this state.
fn ended(instance: Instance, state: TaskState, at: Instant) -> Instance
    ensures { result ≡ record instance { state = state; end_date = Some at } }
{
    Instance {
        state,
        end_date: Some(at),
        ..instance
    }
}
