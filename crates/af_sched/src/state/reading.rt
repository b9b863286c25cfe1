ghost use Rattle.std.specs.Prelude.{◌≡◌, ◌^◌, None, Some, drop, length, nat_lt, option_copied, slice_get, if◌then◌else◌};
ghost use Rattle.af_runs.specs.Busy.{busy_of};
ghost use Rattle.af_runs.specs.Runs.{AreRuns, has_room, is_taken, run_at, run_of, runs_of};

use crate::state::State;
use af_names::{DagId, Instant, RunId};
use af_runs::{BusyRuns, Run, RunsOf};

impl State {
    /// The runs of all DAGs, by number.
    pub fn runs(&self) -> &[Run]
        ensures rows { result.now ≡ self.now.rows.runs }
        ensures kept { AreRuns self.now.rows.runs self.now.rows.next_run }
    {
        self.runs.rows()
    }

    /// The run of these ids.
    pub fn run(&self, dag_id: &DagId, run_id: &RunId) -> Option<&Run>
        ensures { option_copied result ≡ run_of self.now.rows.runs dag_id.now run_id.now }
    {
        self.runs.find(dag_id, run_id)
    }

    /// Whether the DAG has a run of this id, or one of this logical date. It takes no memory: the id is a text.
    pub fn is_taken(&self, dag_id: &DagId, run_id: &str, logical_date: Instant) -> bool
        ensures { result ≡ is_taken self.now.rows.runs dag_id.now run_id.now logical_date }
    {
        self.runs.is_taken(dag_id, run_id, logical_date)
    }

    /// Whether the DAG may have so many more runs, and as many numbers are left for them. It takes no memory.
    pub fn has_room(&self, dag_id: &DagId, count: usize) -> bool
        ensures { result ≡ has_room self.now.rows.runs self.now.rows.next_run dag_id.now count }
    {
        self.runs.has_room(dag_id, count)
    }

    /// The run of this number.
    pub fn run_numbered(&self, number: u64) -> Option<&Run>
        ensures { option_copied result ≡ run_at self.now.rows.runs number }
    {
        self.runs.get(number)
    }

    /// How many runs the DAG of this id has.
    pub fn count_of_dag(&self, dag_id: &DagId) -> usize
        ensures { result ≡ length (runs_of self.now.rows.runs dag_id.now) }
    {
        self.runs.count_of(dag_id)
    }

    /// The run at a place among those of a DAG, which are in order of number.
    pub fn run_of_dag(&self, dag_id: &DagId, place: usize) -> Option<&Run>
        ensures { option_copied result ≡ slice_get (runs_of self.now.rows.runs dag_id.now) place }
    {
        self.runs.nth_of(dag_id, place)
    }

    /// The runs of a DAG, in order of number, from a place among them on, without a pass over the runs of others. A page is the
    /// first few of these.
    pub fn runs_of_dag<'a, 'd>(&'a self, dag_id: &'d DagId, from: usize) -> RunsOf<'a, 'd>
        ensures { result ≡ drop from (runs_of self.now.rows.runs dag_id.now) }
    {
        self.runs.of_dag(dag_id, from)
    }

    /// The runs that are busy, in order of number: those that have not ended, or have an instance that is queued or running.
    pub fn busy_runs(&self) -> BusyRuns<'_>
        ensures { result ≡ busy_of self.now.rows.runs }
    {
        self.runs.busy()
    }

    /// The number that the next run gets; none where no number is left.
    pub fn next_run(&self) -> Option<u64>
        ensures { result ≡ (if nat_lt self.now.rows.next_run (2 ^ 64) then Some self.now.rows.next_run else None) }
    {
        self.runs.next_number()
    }
}
