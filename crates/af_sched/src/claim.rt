use af_names::{DagId, RunId, TaskId};

/// One try of an instance, handed to an executor.
#[derive(Drop)]
pub struct Claim {
    /// The number of the instance's run.
    pub run_number: u64,
    pub dag_id: DagId,
    pub run_id: RunId,
    pub task_id: TaskId,
    /// Which try of the instance it is, from 1 on.
    pub try_number: u32,
}
