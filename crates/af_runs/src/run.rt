ghost use Rattle.std.specs.Prelude.{◌≡◌, ◌↔◌, IfOk, true, length, option_copied, slice_get};
ghost use Rattle.af_runs.specs.Busy.{holds_any, is_busy};
ghost use Rattle.af_runs.specs.Runs.{is_of, is_run, is_dated, queued_run, runs_of};

use crate::instances::{Instances, same_instances};
use crate::interval::Interval;
use crate::new_run::NewRun;
use crate::optional_instant::OptionalInstant;
use crate::run_state::RunState;
use crate::run_type::RunType;
use af_graph::TaskState;
use af_names::{DagId, Instant, RunId};
use std::alloc::{AllocError, Global};

mod clearing;
mod marking;

pub(crate) use clearing::list_chosen;

/// A run of a DAG, with its instances.
#[derive(Drop)]
pub struct Run {
    // What pages and look-ups read stands first and together, within 64 bytes of the 128 that a row has.
    /// From 1 on, in the order in which runs were added; no number is used again.
    pub number: u64,
    /// Of the DAG's runs this one alone has this logical date.
    pub logical_date: Instant,
    /// Of the DAG's runs this one alone has this id.
    pub run_id: RunId,
    pub dag_id: DagId,
    pub interval: Interval,
    pub run_type: RunType,
    pub state: RunState,
    pub start_date: OptionalInstant,
    pub end_date: OptionalInstant,
    /// Those it was added with, but for changes: to be one for each task of the DAG, in the order of the definition.
    pub instances: Instances,
}

impl Run {
    /// The row of a new run: queued, without start and end.
    pub(crate) fn queued(number: u64, new: NewRun) -> Run
        ensures { result ≡ queued_run number new }
    {
        Run {
            number,
            logical_date: new.logical_date,
            run_id: new.run_id,
            dag_id: new.dag_id,
            interval: new.interval,
            run_type: new.run_type,
            state: RunState::Queued,
            start_date: OptionalInstant::none(),
            end_date: OptionalInstant::none(),
            instances: new.instances,
        }
    }

    /// The same run again. `AllocError` only where a growth was refused.
    pub fn copied(&self, alloc: Global) -> Result<Run, AllocError>
        ensures { IfOk result (λ run. run ≡ self.now) }
    {
        let dag_id = self.dag_id.copied(alloc)?;
        let run_id = self.run_id.copied(alloc)?;
        let instances = self.instances.copied(alloc)?;
        Ok(Run {
            number: self.number,
            logical_date: self.logical_date,
            run_id,
            dag_id,
            interval: self.interval,
            run_type: self.run_type,
            state: self.state,
            start_date: self.start_date,
            end_date: self.end_date,
            instances,
        })
    }

    /// Whether it is the same run as another, with the same instances.
    pub fn is_same(&self, other: &Run) -> bool
        ensures { (result ≡ true) ↔ (self.now ≡ other.now) }
    {
        self.number == other.number
            && self.dag_id == other.dag_id
            && self.run_id == other.run_id
            && self.logical_date == other.logical_date
            && self.interval == other.interval
            && self.run_type == other.run_type
            && self.state == other.state
            && self.start_date.get() == other.start_date.get()
            && self.end_date.get() == other.end_date.get()
            && same_instances(self.instances.as_slice(), other.instances.as_slice())
    }

    /// Whether it has not ended, or one of its instances is queued or running.
    pub fn is_busy(&self) -> bool
        ensures { result ≡ is_busy self.now }
    {
        !self.state.is_finished() || self.holds_any()
    }

    /// Whether one of its instances is queued or running.
    pub fn holds_any(&self) -> bool
        ensures { result ≡ holds_any self.now }
    {
        self.instances.as_slice().iter().any(|instance| matches!(
            instance.state,
            TaskState::Queued | TaskState::Running
        ))
    }

    /// Whether it is a run of the DAG of this id.
    pub(crate) fn is_of(&self, dag_id: &DagId) -> bool
        ensures { result ≡ is_of dag_id.now self.now }
    {
        self.dag_id == *dag_id
    }

    /// Whether it is the run of these ids.
    pub(crate) fn has_ids(&self, dag_id: &DagId, run_id: &str) -> bool
        ensures { result ≡ is_run dag_id.now run_id.now self.now }
    {
        self.is_of(dag_id) && self.run_id.as_str() == run_id
    }

    /// Whether it is the DAG's run of this logical date.
    pub(crate) fn has_date(&self, dag_id: &DagId, logical_date: Instant) -> bool
        ensures { result ≡ is_dated dag_id.now logical_date self.now }
    {
        self.is_of(dag_id) && self.logical_date == logical_date
    }
}

/// How many of the runs the DAG has.
pub(crate) fn count_of(runs: &[Run], dag_id: &DagId) -> usize
    ensures { result ≡ length (runs_of runs.now dag_id.now) }
{
    runs.iter().filter(|run| run.is_of(dag_id)).count()
}

/// The run at this place among those of the runs that are the DAG's.
pub(crate) fn nth_of<'a>(runs: &'a [Run], dag_id: &DagId, place: usize) -> Option<&'a Run>
    ensures { option_copied result ≡ slice_get (runs_of runs.now dag_id.now) place }
{
    let mut left = place;
    for run in runs {
        if run.is_of(dag_id) {
            if left == 0 {
                return Some(run);
            }
            left -= 1;
        }
    }
    None
}
