ghost use Rattle.std.specs.Prelude.{◌≡◌, ◌↔◌, ◌≤◌, ◌+◌, IfOk, OnOk, OnErr, fold, length, true, false};
ghost use Rattle.af_runs.specs.Runs.{with_advanced};
ghost use Rattle.af_sched.specs.Plan.{Fits, HasRows, IsPlan, applied, with_cursors};
ghost use Rattle.af_sched.specs.Tick.{IsTick};

use crate::busy::are_busy_of;
use crate::dag_row::DagRow;
use crate::plan::Plan;
use crate::state::State;
use crate::tick::{create_all, moved_on};
use af_names::Instant;
use af_runs::{Additions, Run, Runs};
use std::alloc::{AllocError, Global};

impl State {
    /// Works out a tick at a moment and takes all the memory that it needs; the rows stay as they are. `AllocError` only
    /// where a growth was refused; then the state is as before.
    pub fn plan_tick(&mut self, alloc: Global, at: Instant) -> Result<Plan, AllocError>
        ensures ok { IfOk result (IsPlan at self.old.rows) }
        ensures room { IfOk result (λ plan. length plan.added ≤ self.new.spare_runs) }
        ensures rows { self.new.rows ≡ self.old.rows }
        ensures spare_runs { self.old.spare_runs ≤ self.new.spare_runs }
        ensures spare_pools { self.new.spare_pools ≡ self.old.spare_pools }
        ensures spare_variables { self.new.spare_variables ≡ self.old.spare_variables }
        ensures err { OnErr result (self.new ≡ self.old) }
    {
        self.runs.list_appended();
        let plan = self.planned(alloc, at)?;
        self.runs.reserve(plan.added.len())?;
        Ok(plan)
    }

    /// Works out a tick at a moment. `AllocError` only where a growth was refused.
    fn planned(&self, alloc: Global, at: Instant) -> Result<Plan, AllocError>
        ensures { IfOk result (IsPlan at self.now.rows) }
    {
        let dags = self.dags.rows();
        let mut additions = Additions::of(alloc, &self.runs);
        let cursors = create_all(alloc, dags, at, &mut additions)?;
        let (added, last) = additions.into_rows();
        let (moved, added) = moved_on(alloc, &self.by_id(), &self.pools, at, &self.runs, added)?;
        let is_change = !self.has(cursors.as_slice(), moved.as_slice(), added.as_slice());
        Ok(Plan {
            cursors,
            moved,
            added,
            last,
            is_change,
        })
    }

    /// Does what is planned, a tick or a backfill, on the state that it was planned for, where memory is reserved for the runs that
    /// it adds. It takes no memory.
    pub fn commit(&mut self, plan: Plan)
        requires fits { Fits plan self.old.rows }
        requires room { length plan.added ≤ self.old.spare_runs }
        ensures rows { self.new.rows ≡ applied plan self.old.rows }
        ensures spare_runs { self.old.spare_runs ≤ self.new.spare_runs + length plan.added }
        ensures spare_pools { self.new.spare_pools ≡ self.old.spare_pools }
        ensures spare_variables { self.new.spare_variables ≡ self.old.spare_variables }
    {
        let Plan {
            cursors,
            moved,
            added,
            last,
            is_change: _,
        } = plan;
        self.dags.set_cursors(cursors.as_slice());
        advance_all(&mut self.runs, moved);
        self.runs.append(added, last);
    }

    /// Ticks at a moment: creates the runs that are due, starts queued runs, settles and queues instances, and ends runs.
    /// Tells whether that changed the state. `AllocError` only where a growth was refused; then the state is as before.
    pub fn tick(&mut self, alloc: Global, at: Instant) -> Result<bool, AllocError>
        ensures ok { OnOk result (IsTick at self.old.rows self.new.rows) }
        ensures changed { IfOk result (λ changed. (changed ≡ false) ↔ (self.new.rows ≡ self.old.rows)) }
        ensures err { OnErr result (self.new ≡ self.old) }
        ensures spare_pools { self.new.spare_pools ≡ self.old.spare_pools }
        ensures spare_variables { self.new.spare_variables ≡ self.old.spare_variables }
    {
        let plan = self.plan_tick(alloc, at)?;
        let changes = plan.changes();
        self.commit(plan);
        Ok(changes)
    }

    /// Whether these are the cursors of its DAGs and its busy runs, and no run is added.
    fn has(&self, cursors: &[Option<Instant>], moved: &[Run], added: &[Run]) -> bool
        requires { length cursors.now ≡ length self.now.rows.dags }
        ensures { (result ≡ true) ↔ HasRows self.now.rows cursors.now moved.now added.now }
    {
        added.is_empty()
            && have_cursors(self.dags.rows(), cursors)
            && are_busy_of(&self.runs, moved)
    }
}

/// Advances those of these runs that have the numbers of the moved ones.
fn advance_all(runs: &mut Runs, moved: Vec<Run>)
    ensures { runs.new ≡ record runs.old { rows = fold with_advanced runs.old.rows moved.items } }
{
    for later in moved {
        runs.advance(later);
    }
}

/// Whether the cursors of these DAGs are these.
fn have_cursors(dags: &[DagRow], cursors: &[Option<Instant>]) -> bool
    requires { length cursors.now ≡ length dags.now }
    ensures { (result ≡ true) ↔ (with_cursors dags.now cursors.now ≡ dags.now) }
{
    for place in 0..dags.len() {
        if dags[place].cursor != cursors[place] {
            return false;
        }
    }
    true
}
