ghost use Rattle.std.specs.Prelude.{◌≡◌, nat_le, true};
ghost use Rattle.std.specs.Option.{option_map_or};
ghost use Rattle.af_graph.specs.Graph.{same_name};
ghost use Rattle.af_runs.specs.Clears.{admits};

use crate::run::Run;
use af_names::{DagId, Instant, RunId};

/// Of which runs of a DAG instances are chosen.
#[derive(Drop)]
pub struct RunFilter {
    /// Of runs of the DAG of this id.
    pub dag_id: DagId,
    /// Of the run of this id alone.
    pub run_id: Option<RunId>,
    /// Of runs of this logical date or a later one.
    pub start_date: Option<Instant>,
    /// Of runs of this logical date or an earlier one.
    pub end_date: Option<Instant>,
}

impl RunFilter {
    /// Whether a run is one of these: it is the DAG's, it has the id that is asked for, and its logical date is within the
    /// bounds.
    pub fn admits(&self, run: &Run) -> bool
        ensures { result ≡ admits self.now run.now }
    {
        run.is_of(&self.dag_id)
            && self.is_for(&run.run_id)
            && self.has_begun_at(run.logical_date)
            && self.has_not_ended_at(run.logical_date)
    }

    /// Whether a run of this id may be one of these.
    fn is_for(&self, run_id: &RunId) -> bool
        ensures { result ≡ option_map_or (λ wanted. same_name run_id.now wanted) self.now.run_id true }
    {
        match &self.run_id {
            Some(wanted) => *run_id == *wanted,
            None => true,
        }
    }

    /// Whether this logical date is not before the first one.
    fn has_begun_at(&self, date: Instant) -> bool
        ensures { result ≡ option_map_or (λ first. nat_le first date) self.now.start_date true }
    {
        match self.start_date {
            Some(first) => first <= date,
            None => true,
        }
    }

    /// Whether this logical date is not after the last one.
    fn has_not_ended_at(&self, date: Instant) -> bool
        ensures { result ≡ option_map_or (λ last. nat_le date last) self.now.end_date true }
    {
        match self.end_date {
            Some(last) => date <= last,
            None => true,
        }
    }
}
