ghost use Rattle.std.specs.Prelude.{◌≡◌, IfOk};

use crate::rule::Rule;
use af_base::{Again, Items};
use af_names::{PoolName, TaskId};
use std::alloc::{AllocError, Global};

/// Ids of tasks, in the order in which they were given.
pub type TaskIds = Items<TaskId>;

/// The tasks of a definition, in its order.
pub type TaskSpecs = Items<TaskSpec>;

/// A task, as its DAG's definition has it.
#[derive(Drop)]
pub struct TaskSpec {
    pub task_id: TaskId,
    /// The ids of the tasks directly upstream of it. An id that stands twice counts once.
    pub upstream: TaskIds,
    /// The pool whose slots its instances occupy.
    pub pool: PoolName,
    /// How many slots an instance occupies, as it was read; a negative number is handed in as 0.
    /// In a `Dag` it is from 1 to 1,000,000.
    pub pool_slots: u64,
    /// Instances of a greater weight are queued first.
    pub priority_weight: i32,
    /// How often a failed instance is tried again.
    pub retries: u32,
    /// How many seconds after a failed try the next may begin.
    pub retry_delay: u32,
    pub trigger_rule: Rule,
}

impl TaskSpec {
    /// The same task again. `AllocError` only where a growth was refused.
    pub fn copied(&self, alloc: Global) -> Result<TaskSpec, AllocError>
        ensures { IfOk result (λ task. task ≡ self.now) }
    {
        let task_id = self.task_id.copied(alloc)?;
        let upstream = self.upstream.copied(alloc)?;
        let pool = self.pool.copied(alloc)?;
        Ok(TaskSpec {
            task_id,
            upstream,
            pool,
            pool_slots: self.pool_slots,
            priority_weight: self.priority_weight,
            retries: self.retries,
            retry_delay: self.retry_delay,
            trigger_rule: self.trigger_rule,
        })
    }
}

impl Again for TaskSpec {
    fn copied(&self, alloc: Global) -> Result<TaskSpec, AllocError> {
        TaskSpec::copied(self, alloc)
    }
}
