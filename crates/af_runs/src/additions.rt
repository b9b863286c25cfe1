ghost use Rattle.std.specs.Prelude.{◌≡◌, ◌+◌, ◌^◌, ◌++◌, [], Err, IfOk, IfSome, IsNone, OnErr, length, nat_le};
ghost use Rattle.std.specs.List.{list_any};
ghost use Rattle.af_runs.specs.Additions.{together};
ghost use Rattle.af_runs.specs.Runs.{AreRuns, Adds, IsOkOrOutOfMemory, add_fault, refusal, is_full, is_run, is_dated, runs_of};

use crate::new_run::NewRun;
use crate::run::Run;
use crate::run_fault::RunFault;
use crate::runs::{MOST_RUNS, Runs};
use af_names::{DagId, Instant, RunId};
use std::alloc::Global;
use std::marker::Model;

/// Runs that are to be added to others, which are borrowed. Contracts see them as the rows of the others, their own rows and
/// the number that the next one gets.
#[derive(Drop)]
pub struct Additions<'a> {
    runs: &'a Runs,
    added: Runs,
}

impl<'a> Model for Additions<'a> {
    ghost use Rattle.std.specs.Prelude.{◌+◌, ◌++◌};
    ghost use Rattle.af_runs.specs.Additions.{RunAdditions};
    ghost use Rattle.af_runs.specs.Runs.{AreRuns};

    ghost Value = { RunAdditions };

    ghost view = { λ a. record {
      before = a.runs.now.rows;
      added = a.added.rows;
      next = a.added.next;
    } };

    // what holds of all runs holds of these after the others
    ghost invariant = { λ a. AreRuns (a.runs.now.rows ++ a.added.rows) a.added.next };
}

impl<'a> Additions<'a> {
    /// No additions to these runs. It takes no memory.
    pub fn of(alloc: Global, runs: &'a Runs) -> Additions<'a>
        ensures before { result.before ≡ runs.now.rows }
        ensures added { result.added ≡ [] }
        ensures next { result.next ≡ runs.now.next }
    {
        Additions {
            runs,
            added: Runs::after(alloc, runs.last()),
        }
    }

    /// The runs that are to be added, in order of number.
    pub fn rows(&self) -> &[Run]
        ensures { result.now ≡ self.now.added }
    {
        self.added.rows()
    }

    /// Adds a run, queued, and tells its number. Its faults are those of `Runs::add_fault` among the others and the
    /// additions together, and `OutOfMemory`, only where a growth was refused. A fault leaves the additions as they were.
    pub fn add_run(&mut self, new: NewRun) -> Result<u64, RunFault>
        ensures refused { IfSome (refusal (together self.old) new) (λ fault. result ≡ Err fault) }
        ensures accepted { IsNone (refusal (together self.old) new) → IsOkOrOutOfMemory result }
        ensures ok { IfOk result (Adds (together self.old) (together self.new) new) }
        ensures before { self.new.before ≡ self.old.before }
        ensures err { OnErr result (self.new ≡ self.old) }
    {
        if let Some(fault) = self.add_fault(&new.dag_id, &new.run_id, new.logical_date) {
            return Err(fault);
        }
        Ok(self.added.add_free(new)?)
    }

    /// The rows that are to be added, and the number of the last run of all, 0 where there is none.
    pub fn into_rows(self) -> (Vec<Run>, u64)
        ensures added { result.0.items ≡ self.entry.added }
        ensures next { result.1 + 1 ≡ self.entry.next }
        ensures kept { AreRuns (self.entry.before ++ self.entry.added) self.entry.next }
    {
        let Additions { runs: _, added } = self;
        added.into_rows()
    }

    /// Why a run of these ids and this logical date would not be added, memory aside.
    fn add_fault(
        &mut self,
        dag_id: &DagId,
        run_id: &RunId,
        logical_date: Instant,
    ) -> Option<RunFault>
        ensures told { result ≡ add_fault (self.old.before ++ self.old.added) self.old.next dag_id.now run_id.now logical_date }
        ensures kept { self.new ≡ self.old }
    {
        if self.has_ids(dag_id, run_id) {
            Some(RunFault::RunExists)
        } else if self.has_date(dag_id, logical_date) {
            Some(RunFault::DateTaken)
        } else if self.is_full(dag_id) {
            Some(RunFault::Full)
        } else {
            None
        }
    }

    fn has_ids(&self, dag_id: &DagId, run_id: &RunId) -> bool
        ensures { result ≡ list_any (is_run dag_id.now run_id.now) (self.now.before ++ self.now.added) }
    {
        self.runs.has_ids(dag_id, run_id) || self.added.has_ids(dag_id, run_id)
    }

    fn has_date(&self, dag_id: &DagId, logical_date: Instant) -> bool
        ensures { result ≡ list_any (is_dated dag_id.now logical_date) (self.now.before ++ self.now.added) }
    {
        self.runs.has_date(dag_id, logical_date) || self.added.has_date(dag_id, logical_date)
    }

    /// Whether the DAG has as many runs as it may have, or no number is left for another.
    fn is_full(&mut self, dag_id: &DagId) -> bool
        ensures told { result ≡ is_full (self.old.before ++ self.old.added) self.old.next dag_id.now }
        ensures kept { self.new ≡ self.old }
    {
        self.has_most(dag_id) || self.is_spent()
    }

    /// Whether the DAG has as many runs as it may have, among the others and the additions. Its additions are counted where
    /// all additions together would be too many.
    fn has_most(&mut self, dag_id: &DagId) -> bool
        ensures told { result ≡ nat_le 65_536 (length (runs_of (self.old.before ++ self.old.added) dag_id.now)) }
        ensures kept { self.new ≡ self.old }
    {
        let before = self.runs.count_of(dag_id);
        if self.added.rows().len() < MOST_RUNS - before {
            return false;
        }
        // Those that are listed by DAG are counted without going over them.
        self.added.list_appended();
        before + self.added.count_of(dag_id) >= MOST_RUNS
    }

    /// Whether no number is left for another run.
    fn is_spent(&self) -> bool
        ensures { result ≡ nat_le (2 ^ 64) self.now.next }
    {
        self.added.is_spent()
    }
}
