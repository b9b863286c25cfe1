ghost use Rattle.std.specs.Prelude.{◌≡◌, ◌↔◌, ◌≤◌, ◌++◌, [], IfOk, OnErr, false, length, map, take};
ghost use Rattle.af_sched.specs.Backfills.{backfill_of, backfilled};
ghost use Rattle.af_sched.specs.Plan.{Fits, applied};

use crate::backfill::backfill_of;
use crate::dag_row::DagRow;
use crate::plan::Plan;
use crate::state::State;
use crate::tick::add_all;
use af_names::{DagId, Instant};
use af_runs::Additions;
use std::alloc::{AllocError, Global};

impl State {
    /// Works out the runs of a range of dates of a DAG, so many at most, and takes all the memory that they need; the rows stay
    /// as they are. A run whose id or whose date is taken is passed over. No run is worked out where the DAG is not there, or
    /// has no schedule. `AllocError` only where a growth was refused; then the state is as before.
    pub fn plan_backfill(
        &mut self,
        alloc: Global,
        dag_id: &DagId,
        first: Instant,
        last: Instant,
        most: usize,
    ) -> Result<Plan, AllocError>
        ensures ok { IfOk result (λ plan. applied plan self.old.rows ≡ backfilled self.old.rows (take most (backfill_of self.old.rows dag_id.now first last))) }
        ensures fits { IfOk result (λ plan. Fits plan self.old.rows) }
        ensures alone { IfOk result (λ plan. (applied plan self.old.rows).runs ≡ self.old.rows.runs ++ plan.added) }
        ensures changed { IfOk result (λ plan. (plan.changes ≡ false) ↔ (plan.added ≡ [])) }
        ensures room { IfOk result (λ plan. length plan.added ≤ self.new.spare_runs) }
        ensures rows { self.new.rows ≡ self.old.rows }
        ensures spare_runs { self.old.spare_runs ≤ self.new.spare_runs }
        ensures spare_pools { self.new.spare_pools ≡ self.old.spare_pools }
        ensures spare_variables { self.new.spare_variables ≡ self.old.spare_variables }
        ensures err { OnErr result (self.new ≡ self.old) }
    {
        self.runs.list_appended();
        let plan = self.planned_backfill(alloc, dag_id, first, last, most)?;
        self.runs.reserve(plan.added.len())?;
        Ok(plan)
    }

    /// Works out the runs of a range of dates of a DAG, so many at most.
    fn planned_backfill(
        &self,
        alloc: Global,
        dag_id: &DagId,
        first: Instant,
        last: Instant,
        most: usize,
    ) -> Result<Plan, AllocError>
        ensures ok { IfOk result (λ plan. applied plan self.now.rows ≡ backfilled self.now.rows (take most (backfill_of self.now.rows dag_id.now first last))) }
        ensures fits { IfOk result (λ plan. Fits plan self.now.rows) }
        ensures alone { IfOk result (λ plan. (applied plan self.now.rows).runs ≡ self.now.rows.runs ++ plan.added) }
        ensures changed { IfOk result (λ plan. (plan.changes ≡ false) ↔ (plan.added ≡ [])) }
    {
        let news = backfill_of(alloc, self.dag(dag_id), first, last, most)?;
        let mut additions = Additions::of(alloc, &self.runs);
        add_all(news, &mut additions)?;
        let (added, last) = additions.into_rows();
        let cursors = cursors_of(alloc, self.dags.rows())?;
        let is_change = !added.is_empty();
        Ok(Plan {
            cursors,
            moved: Vec::new(alloc),
            added,
            last,
            is_change,
        })
    }
}

/// The cursors of DAGs, as they are.
fn cursors_of(alloc: Global, dags: &[DagRow]) -> Result<Vec<Option<Instant>>, AllocError>
    ensures { IfOk result (λ cursors. cursors.items ≡ map (λ row. row.cursor) dags.now) }
{
    let mut cursors = Vec::with_capacity(alloc, dags.len())?;
    for row in dags {
        cursors.push(row.cursor)?;
    }
    Ok(cursors)
}
