ghost use Rattle.std.specs.Prelude.{◌≡◌};
ghost use Rattle.af_runs.specs.Instances.{new_instance};

use af_base::Again;
use af_graph::{TaskSpec, TaskState};
use af_names::Instant;
use std::alloc::{AllocError, Global};

/// A task instance: how a task fares in one run. Its task is the one at its place in the DAG's definition.
#[derive(Clone, Copy, Debug, PartialEq, Eq)]
pub struct Instance {
    pub state: TaskState,
    /// How often it was tried.
    pub try_number: u32,
    /// A try that fails is followed by another while `try_number` is at most this.
    pub max_tries: u64,
    /// When its last try began.
    pub start_date: Option<Instant>,
    /// When it ended, or its last try did.
    pub end_date: Option<Instant>,
    /// In `UpForRetry`, when it may be tried again.
    pub retry_at: Option<Instant>,
}

impl Instance {
    /// The instance of a task in a new run: `NoStatus`, never tried.
    pub fn of(task: &TaskSpec) -> Instance
        ensures { result ≡ new_instance task.now }
    {
        Instance {
            state: TaskState::NoStatus,
            try_number: 0,
            max_tries: u64::from(task.retries),
            start_date: None,
            end_date: None,
            retry_at: None,
        }
    }
}

impl Again for Instance {
    fn copied(&self, _alloc: Global) -> Result<Instance, AllocError> {
        Ok(*self)
    }
}
