ghost use Rattle.std.specs.Prelude.{◌≡◌};
ghost use Rattle.af_runs.specs.Clears.{after_clear, chosen_with, cleared_instance, has_failed, is_chosen, is_cleared, stays_in_clear};

use crate::chosen_tasks::ChosenTasks;
use crate::instance::Instance;
use af_graph::TaskState;

/// Which instances of a DAG's runs are chosen, to be cleared.
#[derive(Drop)]
pub struct Selection {
    /// Those of these tasks.
    pub tasks: ChosenTasks,
    /// Of them, those that are failed or upstream_failed alone.
    pub only_failed: bool,
}

impl Selection {
    /// Whether an instance, at its place in its run, is chosen.
    pub fn chooses(&self, place: usize, instance: &Instance) -> bool
        ensures { result ≡ is_chosen self.now (place, instance.now) }
    {
        self.chosen_with(place, instance).is_some()
    }

    /// Whether a clear leaves an instance, at its place in its run, as it is: it is not chosen, or is as one that is cleared.
    pub(crate) fn leaves(&self, place: usize, instance: &Instance) -> bool
        ensures { result ≡ stays_in_clear self.now (place, instance.now) }
    {
        match self.chosen_with(place, instance) {
            Some(retries) => is_cleared(instance, retries),
            None => true,
        }
    }

    /// The retries with which an instance at a place is cleared, where it is chosen.
    fn chosen_with(&self, place: usize, instance: &Instance) -> Option<u32>
        ensures { result ≡ chosen_with self.now (place, instance.now) }
    {
        if self.only_failed && !has_failed(instance.state) {
            return None;
        }
        self.tasks.retries_at(place)
    }

    /// An instance at a place after the clear.
    pub(crate) fn after(&self, place: usize, instance: &Instance) -> Instance
        ensures { result ≡ after_clear self.now (place, instance.now) }
    {
        match self.chosen_with(place, instance) {
            Some(retries) => cleared(instance, retries),
            None => *instance,
        }
    }
}

/// Whether an instance in this state has failed, or never ran since something above it failed.
fn has_failed(state: TaskState) -> bool
    ensures { result ≡ has_failed state }
{
    match state {
        TaskState::Failed | TaskState::UpstreamFailed => true,
        _ => false,
    }
}

/// An instance that is cleared, of a task with so many retries.
fn cleared(instance: &Instance, retries: u32) -> Instance
    ensures { result ≡ cleared_instance retries instance.now }
{
    Instance {
        state: TaskState::NoStatus,
        try_number: instance.try_number,
        max_tries: u64::from(instance.try_number) + u64::from(retries),
        start_date: None,
        end_date: None,
        retry_at: None,
    }
}

/// Whether an instance is as one that is cleared, of a task with so many retries.
fn is_cleared(instance: &Instance, retries: u32) -> bool
    ensures { result ≡ is_cleared retries instance.now }
{
    instance.state == TaskState::NoStatus
        && instance.max_tries == u64::from(instance.try_number) + u64::from(retries)
        && instance.start_date.is_none()
        && instance.end_date.is_none()
        && instance.retry_at.is_none()
}
