ghost use Rattle.std.specs.Prelude.{◌≡◌, IfOk, None};
ghost use Rattle.std.specs.Option.{option_map_or};
ghost use Rattle.af_sched.specs.Due.{first_cursor};

use af_graph::Dag;
use af_names::{DagId, Instant, NamesDag, PoolName};
use af_pool::NamesPools;
use std::alloc::{AllocError, Global};

/// A DAG as the scheduler keeps it.
pub struct DagRow {
    pub dag: Dag,
    /// Of a paused DAG no run is created or started, and no instance is settled or queued.
    pub is_paused: bool,
    /// The point from which runs are still to be created; none where no point is left, or there is no schedule.
    pub cursor: Option<Instant>,
}

impl Drop for DagRow {
    fn drop(self) {
        let DagRow {
            dag: _,
            is_paused: _,
            cursor: _,
        } = self;
    }
}

impl DagRow {
    /// The row of a DAG of which no run was created: its cursor is the first point of its schedule, none where there is no
    /// schedule.
    pub fn opened(dag: Dag, is_paused: bool) -> DagRow
        ensures { result ≡ record { dag = dag; is_paused = is_paused; cursor = option_map_or first_cursor dag.schedule None } }
    {
        let cursor = match dag.schedule() {
            Some(schedule) => schedule.next_at_or_after(schedule.start_date),
            None => None,
        };
        DagRow {
            dag,
            is_paused,
            cursor,
        }
    }

    /// The same row again. `AllocError` only where a growth was refused.
    pub fn copied(&self, alloc: Global) -> Result<DagRow, AllocError>
        ensures { IfOk result (λ row. row ≡ self.now) }
    {
        let dag = self.dag.copied(alloc)?;
        Ok(DagRow {
            dag,
            is_paused: self.is_paused,
            cursor: self.cursor,
        })
    }
}

impl NamesDag for DagRow {
    ghost dag = { λ row. row.dag.dag_id };

    fn dag_id(&self) -> &DagId {
        self.dag.dag_id()
    }
}

impl NamesPools for DagRow {
    ghost use Rattle.af_pool.specs.Pools.{pools_of};

    ghost pools = { λ row. pools_of row.dag };

    fn names_pool(&self, name: &PoolName) -> bool {
        self.dag.names_pool(name)
    }
}
