ghost use Rattle.std.specs.Prelude.{◌≡◌, ◌≤◌, Err, length, true};
ghost use Rattle.af_sched.specs.Plan.{IsPlan};
ghost use Rattle.af_sched.specs.State.{StateRows};
ghost use Rattle.af_audit.specs.Entries.{has_room};
ghost use Rattle.af_audit.specs.Ticked.{IsTicked};

use crate::act::Act;
use crate::actor::Actor;
use crate::audit::Audit;
use crate::audit_fault::AuditFault;
use crate::ledger::Ledger;
use crate::replaying::show_state;
use af_names::Instant;
use af_sched::{Plan, State};
use std::alloc::Global;

impl Ledger {
    /// Ticks at a moment, and tells whether that changed the state; then there is one entry, of the scheduler, under the
    /// ledger's version. `HistoryFull` where there is no room for it, `OutOfMemory` only where a growth was refused; then the
    /// ledger is as before.
    pub fn tick(&mut self, alloc: Global, at: Instant) -> Result<bool, AuditFault>
        ensures { IsTicked at self.old self.new result }
    {
        let plan = self.state.plan_tick(alloc, at)?;
        let told = enter_tick(&mut self.state, &mut self.audit, self.version, plan, at);
        show_state(&self.state);
        told
    }
}

/// Does a tick that is worked out, and enters it, where it changes the state; tells whether it does. The memory of the tick is there,
/// so a full history is always told as such: `OutOfMemory` only where there is room and no memory for the entry.
fn enter_tick(
    state: &mut State,
    audit: &mut Audit,
    version: u32,
    plan: Plan,
    at: Instant,
) -> Result<bool, AuditFault>
    requires planned { IsPlan at state.old.rows plan }
    requires room { length plan.added ≤ state.old.spare_runs }
    ensures ticked { (opening : StateRows) → IsTicked at (record { opening = opening; state = state.old.rows; audit = audit.old; version = version }) (record { opening = opening; state = state.new.rows; audit = audit.new; version = version }) result }
    ensures memory { result ≡ Err AuditFault.OutOfMemory → has_room audit.old ≡ true }
{
    if !plan.changes() {
        return Ok(false);
    }
    if let Err(fault) = audit.enter(at, Actor::Scheduler, version, Act::Tick) {
        return Err(fault);
    }
    state.commit(plan);
    Ok(true)
}
