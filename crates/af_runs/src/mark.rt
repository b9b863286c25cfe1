ghost use Rattle.std.specs.Prelude.{◌≡◌};
ghost use Rattle.af_runs.specs.Marks.{mark_of, marked_end, marked_instance, marked_start, marked_state, stays_in, stopped_instance, succeeded_instance};

use crate::instance::Instance;
use crate::run_state::RunState;
use af_graph::TaskState;
use af_names::Instant;

/// What a run is marked: the state that it is put into (Airflow 2's REST API, "Modify a DAG run").
#[derive(Clone, Copy, Debug, PartialEq, Eq)]
pub enum Mark {
    /// It has ended well, and so has each of its instances.
    Success,
    /// It has ended with a fault: its running instances have failed, and the others that had not ended are skipped.
    Failed,
    /// It waits again until its DAG may have one more run running. Its instances stay.
    Queued,
}

impl Mark {
    /// The mark that puts a run into this state; none for `Running`, since no run is marked so.
    pub fn of(state: RunState) -> Option<Mark>
        ensures { result ≡ mark_of state }
    {
        match state {
            RunState::Success => Some(Mark::Success),
            RunState::Failed => Some(Mark::Failed),
            RunState::Queued => Some(Mark::Queued),
            RunState::Running => None,
        }
    }

    /// The state of a run that is marked so.
    pub fn state(self) -> RunState
        ensures { result ≡ marked_state self }
    {
        match self {
            Mark::Success => RunState::Success,
            Mark::Failed => RunState::Failed,
            Mark::Queued => RunState::Queued,
        }
    }

    /// The start of a run that is put into the state: one that is queued has none.
    pub(crate) fn start_of(self, start: Option<Instant>) -> Option<Instant>
        ensures { result ≡ marked_start self start }
    {
        match self {
            Mark::Success | Mark::Failed => start,
            Mark::Queued => None,
        }
    }

    /// The end of a run that is put into the state at a moment: one that is queued has none.
    pub(crate) fn end_at(self, at: Instant) -> Option<Instant>
        ensures { result ≡ marked_end self at }
    {
        match self {
            Mark::Success | Mark::Failed => Some(at),
            Mark::Queued => None,
        }
    }

    /// Whether an instance in this state stays whole where its run is marked so.
    pub(crate) fn keeps(self, state: TaskState) -> bool
        ensures { result ≡ stays_in self state }
    {
        match self {
            Mark::Success => state == TaskState::Success,
            Mark::Failed => state.is_finished(),
            Mark::Queued => true,
        }
    }

    /// An instance of a run that is marked so at a moment.
    pub(crate) fn marked(self, instance: Instance, at: Instant) -> Instance
        ensures { result ≡ marked_instance self at instance }
    {
        match self {
            Mark::Success => succeeded(instance, at),
            Mark::Failed => stopped(instance, at),
            Mark::Queued => instance,
        }
    }
}

/// An instance that ends well at a moment, unless it has ended well already.
fn succeeded(instance: Instance, at: Instant) -> Instance
    ensures { result ≡ succeeded_instance at instance }
{
    if instance.state == TaskState::Success {
        return instance;
    }
    Instance {
        state: TaskState::Success,
        end_date: Some(at),
        ..instance
    }
}

/// An instance that ends at a moment, unless it has ended already: one that is running fails, any other is skipped.
fn stopped(instance: Instance, at: Instant) -> Instance
    ensures { result ≡ stopped_instance at instance }
{
    if instance.state.is_finished() {
        return instance;
    }
    let state = match instance.state {
        TaskState::Running => TaskState::Failed,
        _ => TaskState::Skipped,
    };
    Instance {
        state,
        end_date: Some(at),
        ..instance
    }
}
