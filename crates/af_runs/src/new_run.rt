use crate::instances::Instances;
use crate::interval::Interval;
use crate::run_type::RunType;
use af_names::{DagId, Instant, RunId};

/// A run to be added, with its instances: all the memory that its row takes.
#[derive(Drop)]
pub struct NewRun {
    pub dag_id: DagId,
    pub run_id: RunId,
    pub logical_date: Instant,
    pub interval: Interval,
    pub run_type: RunType,
    /// To be one for each task of the DAG, in the order of the definition, as `new_instances` makes them.
    pub instances: Instances,
}
