ghost use Rattle.std.specs.Prelude.{◌≡◌, ◌≢◌, ◌+◌, ◌++◌, ◌<◌, ◌≤◌, ◌^◌, Err, IfOk, IfSome, IsNone, IsOk, None, OnOk, OnErr, is_ok, length, nat_le, if◌then◌else◌};
ghost use Rattle.af_runs.specs.Runs.{AreRuns, Adds, SameRuns, IsOkOrOutOfMemory, add_fault, has_room, refusal, is_full};

use crate::new_run::NewRun;
use crate::run::Run;
use crate::run_fault::RunFault;
use crate::runs::{MORE_RUNS, MOST_RUNS, Runs};
use af_names::{DagId, Instant, RunId};
use std::alloc::AllocError;

impl Runs {
    /// Reserves memory for that many more runs. `AllocError` only where a growth was refused, so never where there is
    /// room already; then as before.
    pub fn reserve(&mut self, additional: usize) -> Result<(), AllocError>
        ensures ok { OnOk result (additional ≤ self.new.spare) }
        ensures roomy { additional ≤ self.old.spare → IsOk result }
        ensures err { OnErr result (self.new.spare ≡ self.old.spare) }
        ensures rows { SameRuns self.old self.new }
        ensures spare { self.old.spare ≤ self.new.spare }
    {
        self.index.list_rest(self.rows.as_slice());
        if additional <= self.spare {
            return Ok(());
        }
        self.index.reserve(additional)?;
        self.rows.reserve(additional)?;
        self.spare = additional;
        Ok(())
    }

    /// Lists by DAG the runs that were added since memory was last reserved, as far as there is memory for it. The runs are
    /// the same to every caller, but those that are not listed are found by a walk.
    pub fn list_appended(&mut self)
        ensures { self.new ≡ self.old }
    {
        self.index.list_rest(self.rows.as_slice());
    }

    /// Why a run of these ids and this logical date would not be added, memory aside: `RunExists` where the DAG has a
    /// run of that id; `DateTaken` where it has one of that logical date; `Full` where it has 65,536 runs or no number
    /// is left.
    pub fn add_fault(
        &self,
        dag_id: &DagId,
        run_id: &RunId,
        logical_date: Instant,
    ) -> Option<RunFault>
        ensures { result ≡ add_fault self.now.rows self.now.next dag_id.now run_id.now logical_date }
    {
        if self.has_ids(dag_id, run_id) {
            Some(RunFault::RunExists)
        } else if self.has_date(dag_id, logical_date) {
            Some(RunFault::DateTaken)
        } else if self.is_full(dag_id) {
            Some(RunFault::Full)
        } else {
            None
        }
    }

    /// Whether the DAG may have so many more runs, 65,536 in all, and as many numbers are left for them. It takes no memory.
    pub fn has_room(&self, dag_id: &DagId, count: usize) -> bool
        ensures { result ≡ has_room self.now.rows self.now.next dag_id.now count }
    {
        count <= MOST_RUNS - self.count_of(dag_id) && count as u64 <= u64::MAX - self.last
    }

    /// Adds a run, queued, and tells its number. Its faults are those of `add_fault`, and `OutOfMemory`, only where a
    /// growth was refused and never where memory is reserved. A fault leaves the runs as they were.
    pub fn add_run(&mut self, new: NewRun) -> Result<u64, RunFault>
        ensures refused { IfSome (refusal self.old new) (λ fault. result ≡ Err fault) }
        ensures accepted { IsNone (refusal self.old new) → IsOkOrOutOfMemory result }
        ensures ok { IfOk result (Adds self.old self.new new) }
        ensures positive { IfOk result (λ number. 0 < number) }
        ensures err { OnErr result (SameRuns self.old self.new) }
        ensures roomy { 0 < self.old.spare → result ≢ Err RunFault.OutOfMemory }
        ensures spare { self.old.spare ≤ self.new.spare + (if is_ok result then 1 else 0) }
    {
        if let Some(fault) = self.add_fault(&new.dag_id, &new.run_id, new.logical_date) {
            return Err(fault);
        }
        Ok(self.add_free(new)?)
    }

    /// Adds a run, queued, of which `add_fault` tells nothing, and tells its number. `AllocError` only where a growth was
    /// refused and never where memory is reserved; then as before.
    pub(crate) fn add_free(&mut self, new: NewRun) -> Result<u64, AllocError>
        requires { refusal self.old new ≡ None }
        ensures ok { IfOk result (Adds self.old self.new new) }
        ensures positive { IfOk result (λ number. 0 < number) }
        ensures err { OnErr result (SameRuns self.old self.new) }
        ensures roomy { 0 < self.old.spare → IsOk result }
        ensures spare { self.old.spare ≤ self.new.spare + (if is_ok result then 1 else 0) }
    {
        if self.spare == 0 {
            self.reserve(MORE_RUNS)?;
        }
        Ok(self.push(new))
    }

    /// Adds these runs after the others, where memory is reserved for them, and goes on from this number: what
    /// `Additions::into_rows` gave, some of them moved on since.
    pub fn append(&mut self, added: Vec<Run>, last: u64)
        requires room { length added.items ≤ self.old.spare }
        requires numbers { self.old.next ≤ last + 1 }
        requires kept { AreRuns (self.old.rows ++ added.items) (last + 1) }
        ensures rows { self.new.rows ≡ self.old.rows ++ added.items }
        ensures next { self.new.next ≡ last + 1 }
        ensures spare { self.old.spare ≤ self.new.spare + length added.items }
    {
        let mut added = added;
        self.index.push_all(added.as_slice());
        self.spare -= added.len();
        // There is room for them, so it succeeds.
        let _done = self.rows.append(&mut added);
        self.last = last;
    }

    /// Adds a run, queued, where memory is reserved for it and none of `add_fault` is met, and tells its number.
    fn push(&mut self, new: NewRun) -> u64
        requires free { refusal self.old new ≡ None }
        requires room { 0 < self.old.spare }
        ensures added { Adds self.old self.new new result }
        ensures positive { 0 < result }
        ensures spare { self.old.spare ≡ self.new.spare + 1 }
    {
        let number = self.last + 1;
        let run = Run::queued(number, new);
        self.index.push(&run);
        // There is room, so it succeeds.
        let _pushed = self.rows.push(run);
        self.last = number;
        self.spare -= 1;
        number
    }

    /// Whether the DAG has as many runs as it may have, or no number is left for another.
    fn is_full(&self, dag_id: &DagId) -> bool
        ensures { result ≡ is_full self.now.rows self.now.next dag_id.now }
    {
        self.count_of(dag_id) >= MOST_RUNS || self.is_spent()
    }

    /// Whether no number is left for another run.
    pub(crate) fn is_spent(&self) -> bool
        ensures { result ≡ nat_le (2 ^ 64) self.now.next }
    {
        self.last == u64::MAX
    }
}
