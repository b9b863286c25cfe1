ghost use Rattle.std.specs.Prelude.{◌≡◌, ◌≤◌, MatchOption, drop, length, option_copied, slice_get};
ghost use Rattle.std.specs.List.{list_any};
ghost use Rattle.af_runs.specs.Busy.{busy_of, holders_of};
ghost use Rattle.af_runs.specs.Places.{IsMetAt, IsMetNowhere, IsNthOf, IsRunAt, IsRunNowhere};
ghost use Rattle.af_runs.specs.Runs.{AreRuns, instances_of, is_dated, is_run, is_taken, run_at, run_of, runs_of};

use crate::busy_runs::BusyRuns;
use crate::holders::Holders;
use crate::instance::Instance;
use crate::places::find_place;
use crate::run::{Run, count_of, nth_of};
use crate::runs::Runs;
use crate::runs_of::RunsOf;
use crate::wanted::Wanted;
use af_names::{DagId, Instant, RunId};

impl Runs {
    /// The run of these ids.
    pub fn find(&self, dag_id: &DagId, run_id: &RunId) -> Option<&Run>
        ensures { option_copied result ≡ run_of self.now.rows dag_id.now run_id.now }
    {
        let place = self.place_by(&Wanted::Ids(dag_id, run_id.as_str()))?;
        Some(&self.rows[place])
    }

    /// Where the run of these ids stands among all rows.
    pub(crate) fn place_of_run(&self, dag_id: &DagId, run_id: &RunId) -> Option<usize>
        ensures { MatchOption result (IsRunNowhere self.now.rows dag_id.now run_id.now) (IsRunAt self.now.rows dag_id.now run_id.now) }
    {
        // No two runs of a DAG have one id.
        let _rows = self.rows();
        self.place_by(&Wanted::Ids(dag_id, run_id.as_str()))
    }

    /// Whether the DAG has a run of this id, or one of this logical date. It takes no memory: the id is a text.
    pub fn is_taken(&self, dag_id: &DagId, run_id: &str, logical_date: Instant) -> bool
        ensures { result ≡ is_taken self.now.rows dag_id.now run_id.now logical_date }
    {
        self.has_id(dag_id, run_id) || self.has_date(dag_id, logical_date)
    }

    /// The run of this number.
    pub fn get(&self, number: u64) -> Option<&Run>
        ensures { option_copied result ≡ run_at self.now.rows number }
    {
        let place = self.place_of(number)?;
        Some(&self.rows[place])
    }

    /// The busy runs, in order of number.
    pub fn busy(&self) -> BusyRuns<'_>
        ensures { result ≡ busy_of self.now.rows }
    {
        BusyRuns::of(self)
    }

    /// How many runs are busy: have not ended, or have an instance that is queued or running.
    pub fn busy_count(&self) -> usize
        ensures { result ≡ length (busy_of self.now.rows) }
    {
        self.index.busy.len()
    }

    /// The busy run at this place among the busy ones, which are in order of number.
    pub fn busy_at(&self, place: usize) -> Option<&Run>
        ensures { option_copied result ≡ slice_get (busy_of self.now.rows) place }
    {
        match self.index.busy.get(place) {
            Some(number) => self.get(*number),
            None => None,
        }
    }

    /// The runs that hold slots, in order of number: an instance of each is queued or running.
    pub fn holders(&self) -> Holders<'_>
        ensures { result ≡ holders_of self.now.rows }
    {
        Holders::of(self)
    }

    /// How many runs hold slots.
    pub(crate) fn holder_count(&self) -> usize
        ensures { result ≡ length (holders_of self.now.rows) }
    {
        self.index.holders.len()
    }

    /// The run at this place among those that hold slots, which are in order of number.
    pub(crate) fn holder_at(&self, place: usize) -> Option<&Run>
        ensures { option_copied result ≡ slice_get (holders_of self.now.rows) place }
    {
        match self.index.holders.get(place) {
            Some(number) => self.get(*number),
            None => None,
        }
    }

    /// The runs of a DAG, in order of number, from a place among them on.
    pub fn of_dag<'a, 'd>(&'a self, dag_id: &'d DagId, from: usize) -> RunsOf<'a, 'd>
        ensures { result ≡ drop from (runs_of self.now.rows dag_id.now) }
    {
        RunsOf::from(self, dag_id, self.index.dags.of(dag_id), from)
    }

    /// The run at this place among those of a DAG, which are in order of number.
    pub fn nth_of(&self, dag_id: &DagId, place: usize) -> Option<&Run>
        ensures { option_copied result ≡ slice_get (runs_of self.now.rows dag_id.now) place }
    {
        let listed = self.index.dags.of(dag_id);
        match listed.get(place) {
            Some(number) => self.get(*number),
            None => nth_of(
                &self.rows[self.index.dags.listed()..],
                dag_id,
                place - listed.len(),
            ),
        }
    }

    /// Where the run at this place among those of a DAG stands among all rows.
    pub(crate) fn place_of_nth(&self, dag_id: &DagId, nth: usize) -> Option<usize>
        ensures { MatchOption result (length (runs_of self.now.rows dag_id.now) ≤ nth) (IsNthOf self.now.rows dag_id.now nth) }
    {
        match self.nth_of(dag_id, nth) {
            Some(run) => self.place_of(run.number),
            None => None,
        }
    }

    /// How many runs the DAG has.
    pub fn count_of(&self, dag_id: &DagId) -> usize
        ensures count { result ≡ length (runs_of self.now.rows dag_id.now) }
        ensures kept { AreRuns self.now.rows self.now.next }
    {
        let listed = self.index.dags.listed();
        self.index.dags.of(dag_id).len() + count_of(&self.rows[listed..], dag_id)
    }

    /// The instances of the run of these ids, in the order of the definition.
    pub fn instances(&self, dag_id: &DagId, run_id: &RunId) -> Option<&[Instance]>
        ensures { option_copied result ≡ instances_of self.now.rows dag_id.now run_id.now }
    {
        self.find(dag_id, run_id)
            .map(|run| run.instances.as_slice())
    }

    /// Where the row of the run that is wanted stands.
    fn place_by(&self, wanted: &Wanted<'_>) -> Option<usize>
        ensures { MatchOption result (IsMetNowhere wanted.now self.now.rows) (IsMetAt wanted.now self.now.rows) }
    {
        let chains = match wanted {
            Wanted::Ids(_, _) => &self.index.ids,
            Wanted::Date(_, _) => &self.index.dates,
        };
        find_place(self.rows.as_slice(), self.last, chains, wanted)
    }

    /// Whether a run has these ids.
    pub(crate) fn has_ids(&self, dag_id: &DagId, run_id: &RunId) -> bool
        ensures { result ≡ list_any (is_run dag_id.now run_id.now) self.now.rows }
    {
        self.has_id(dag_id, run_id.as_str())
    }

    /// Whether a run has these ids, of which its own is a text.
    fn has_id(&self, dag_id: &DagId, run_id: &str) -> bool
        ensures { result ≡ list_any (is_run dag_id.now run_id.now) self.now.rows }
    {
        self.place_by(&Wanted::Ids(dag_id, run_id)).is_some()
    }

    /// Whether a run is the DAG's of this logical date.
    pub(crate) fn has_date(&self, dag_id: &DagId, logical_date: Instant) -> bool
        ensures { result ≡ list_any (is_dated dag_id.now logical_date) self.now.rows }
    {
        self.place_by(&Wanted::Date(dag_id, logical_date)).is_some()
    }
}
