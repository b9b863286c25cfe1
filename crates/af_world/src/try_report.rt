use af_names::TaskId;
use af_sched::Outcome;

/// What an executor reports of a try that it had claimed.
#[derive(Drop)]
pub struct TryReport {
    /// The number of the instance's run, from 1 on.
    pub run_number: u64,
    pub task_id: TaskId,
    /// Which try of the instance it was, from 1 on.
    pub try_number: u32,
    /// How it ended.
    pub outcome: Outcome,
}
