ghost use Rattle.std.specs.Prelude.{◌≡◌, ◌≢◌, ◌+◌, ◌<◌, ◌≤◌, Err, Some, IfOk, IfErr, IfSome, IsNone, OnOk, OnErr, false, is_ok, if◌then◌else◌};
ghost use Rattle.std.specs.Option.{option_map_or};
ghost use Rattle.af_pool.specs.Pools as pools;
ghost use Rattle.af_runs.specs.Runs as runs;
ghost use Rattle.af_sched.specs.Additions.{AddsRun, IsOkOrOutOfMemory, IsWholeNew};
ghost use Rattle.af_sched.specs.State.{CanAdd, dag_fault, has_no_step, have_pools, with_dag};

use crate::add_dag_fault::AddDagFault;
use crate::dag_row::DagRow;
use crate::state::State;
use af_graph::{Points, Schedule, TaskSpec};
use af_names::{DagId, Instant, PoolName, RunId};
use af_pool::{PoolFault, Pools};
use af_runs::{NewRun, RunFault};

/// The most DAGs that there are.
const MOST_DAGS: usize = 1_024;

impl State {
    /// Adds a DAG. Its faults are those of `AddDagFault`, the first that applies, and `OutOfMemory`, only where a growth
    /// was refused. A fault leaves the state as it was.
    pub fn add_dag(&mut self, row: DagRow) -> Result<(), AddDagFault>
        ensures refused { IfSome (dag_fault self.old.rows row) (λ fault. result ≡ Err fault) }
        ensures accepted { IsNone (dag_fault self.old.rows row) → IsOkOrOutOfMemory result }
        ensures ok { OnOk result (self.new ≡ record self.old {
          rows = record self.old.rows { dags = with_dag self.old.rows.dags row };
        }) }
        ensures err { OnErr result (self.new ≡ self.old) }
    {
        let place = self.place_to_add(&row)?;
        self.dags.insert(place, row)?;
        Ok(())
    }

    /// Where the row of a DAG that may be added goes.
    fn place_to_add(&self, row: &DagRow) -> Result<usize, AddDagFault>
        ensures ok { IfOk result (CanAdd self.now.rows row.now) }
        ensures err { IfErr result (λ fault. dag_fault self.now.rows row.now ≡ Some fault) }
    {
        let dag = row.dag.definition();
        if dag.max_active_runs == 0 {
            return Err(AddDagFault::NoActiveRuns);
        }
        if has_no_step(dag.schedule) {
            return Err(AddDagFault::NoStep);
        }
        if !have_pools(&self.pools, row.dag.tasks()) {
            return Err(AddDagFault::NoSuchPool);
        }
        match self.by_id().place_of(&dag.dag_id) {
            Ok(_) => Err(AddDagFault::Exists),
            Err(_) if self.dags().len() >= MOST_DAGS => Err(AddDagFault::Full),
            Err(place) => Ok(place),
        }
    }

    /// Why a run of these ids and this logical date would not be added, memory aside: the fault of `Runs::add_fault`.
    pub fn run_fault(
        &self,
        dag_id: &DagId,
        run_id: &RunId,
        logical_date: Instant,
    ) -> Option<RunFault>
        ensures { result ≡ runs.add_fault self.now.rows.runs self.now.rows.next_run dag_id.now run_id.now logical_date }
    {
        self.runs.add_fault(dag_id, run_id, logical_date)
    }

    /// Adds a run, queued, and tells its number. Its faults are those of `Runs::add_run`; a fault leaves the rows as they
    /// were, and `OutOfMemory` comes only where a growth was refused, never where memory is reserved.
    pub fn add_run(&mut self, new: NewRun) -> Result<u64, RunFault>
        requires { IsWholeNew self.old.rows new }
        ensures refused { IfSome (runs.add_fault self.old.rows.runs self.old.rows.next_run new.dag_id new.run_id new.logical_date) (λ fault. result ≡ Err fault) }
        ensures accepted { IsNone (runs.add_fault self.old.rows.runs self.old.rows.next_run new.dag_id new.run_id new.logical_date) → runs.IsOkOrOutOfMemory result }
        ensures ok { IfOk result (AddsRun self.old.rows self.new.rows new) }
        ensures err { OnErr result (self.new.rows ≡ self.old.rows) }
        ensures roomy { 0 < self.old.spare_runs → result ≢ Err RunFault.OutOfMemory }
        ensures spare { self.old.spare_runs ≤ self.new.spare_runs + (if is_ok result then 1 else 0) }
        ensures spare_pools { self.new.spare_pools ≡ self.old.spare_pools }
        ensures spare_variables { self.new.spare_variables ≡ self.old.spare_variables }
    {
        self.runs.add_run(new)
    }

    /// Adds a pool. Its faults are those of `Pools::add`; a fault leaves the rows as they were, and `OutOfMemory` comes
    /// only where a growth was refused, never where memory is reserved.
    pub fn add_pool(&mut self, name: PoolName, slots: u64) -> Result<(), PoolFault>
        ensures refused { IfSome (pools.add_fault self.old.rows.pools name slots) (λ fault. result ≡ Err fault) }
        ensures accepted { IsNone (pools.add_fault self.old.rows.pools name slots) → pools.IsOkOrOutOfMemory result }
        ensures ok { OnOk result (self.new.rows ≡ record self.old.rows {
          pools = pools.with_pool self.old.rows.pools record { name = name; slots = slots };
        }) }
        ensures err { OnErr result (self.new.rows ≡ self.old.rows) }
        ensures roomy { 0 < self.old.spare_pools → result ≢ Err PoolFault.OutOfMemory }
        ensures spare { self.old.spare_pools ≤ self.new.spare_pools + (if is_ok result then 1 else 0) }
        ensures spare_runs { self.new.spare_runs ≡ self.old.spare_runs }
        ensures spare_variables { self.new.spare_variables ≡ self.old.spare_variables }
    {
        self.pools.add(name, slots)
    }
}

/// Whether a schedule has no step: it is of 0 seconds.
fn has_no_step(schedule: Option<Schedule>) -> bool
    ensures { result ≡ option_map_or (λ schedule. has_no_step schedule.points) schedule false }
{
    match schedule {
        Some(schedule) => schedule.points == Points::Seconds(0),
        None => false,
    }
}

/// Whether there is a pool of the name that each of these tasks gives.
fn have_pools(pools: &Pools, tasks: &[TaskSpec]) -> bool
    ensures { result ≡ have_pools pools.now.rows tasks.now }
{
    tasks.iter().all(|task| pools.has(&task.pool))
}
