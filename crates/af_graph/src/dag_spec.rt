ghost use Rattle.std.specs.Prelude.{◌≡◌, IfOk};

use crate::schedule::Schedule;
use crate::task_spec::TaskSpecs;
use af_names::DagId;
use std::alloc::{AllocError, Global};

/// The definition of a DAG, as it was read.
#[derive(Drop)]
pub struct DagSpec {
    pub dag_id: DagId,
    /// The tasks in the order of the definition; a task's number in it, from 0, is its place.
    pub tasks: TaskSpecs,
    /// None where runs come by hand alone.
    pub schedule: Option<Schedule>,
    /// Whether points that have passed get their runs too.
    pub catchup: bool,
    /// How many runs may be running at once.
    pub max_active_runs: u32,
}

impl DagSpec {
    /// The same definition again. `AllocError` only where a growth was refused.
    pub fn copied(&self, alloc: Global) -> Result<DagSpec, AllocError>
        ensures { IfOk result (λ spec. spec ≡ self.now) }
    {
        let dag_id = self.dag_id.copied(alloc)?;
        let tasks = self.tasks.copied(alloc)?;
        Ok(DagSpec {
            dag_id,
            tasks,
            schedule: self.schedule,
            catchup: self.catchup,
            max_active_runs: self.max_active_runs,
        })
    }
}
