ghost use Rattle.std.specs.Prelude.{◌≡◌, IfErr, IfOk, IfSome, true, if◌then◌else◌};
ghost use Rattle.af_sched.specs.Claims.{IsNextClaim};
ghost use Rattle.af_audit.specs.declared.audit_fault.AuditFault.TheVariants.{HistoryFull, OutOfMemory};
ghost use Rattle.af_audit.specs.Claimed.{IsClaimed, IsPassedOver};

use crate::act::Act;
use crate::actor::Actor;
use crate::audit_fault::AuditFault;
use crate::ledger::Ledger;
use crate::replaying::show_state;
use af_names::Instant;
use af_sched::laws::a_claim_tells_the_next;
use af_sched::{Claim, State};
use std::alloc::{AllocError, Global};

impl Ledger {
    /// Claims the first queued instance at a moment, if there is one; then there is one entry, of an executor, under the
    /// ledger's version, that names it. Where one is queued, `HistoryFull` comes first, where there is no room for the entry, memory or
    /// not; then `OutOfMemory`, only where a growth was refused. After each the ledger is as before.
    pub fn claim(&mut self, alloc: Global, at: Instant) -> Result<Option<Claim>, AuditFault>
        ensures { IsClaimed at self.old self.new result }
    {
        a_claim_tells_the_next();
        show_state(&self.state);
        let claim = match next_claim(alloc, &self.state, self.audit.has_room()) {
            Ok(Some(claim)) => claim,
            Ok(None) => return Ok(None),
            Err(fault) => return Err(fault),
        };
        let Ok(kept) = copied(alloc, &claim) else {
            return Err(AuditFault::OutOfMemory);
        };
        if let Err(fault) = self
            .audit
            .enter(at, Actor::Executor, self.version, Act::Claim(kept))
        {
            return Err(fault);
        }
        // The state's own claim takes memory last: where it is refused, the entry is taken back.
        if let Err(_) = self.state.claim(alloc, at) {
            self.audit.take_back();
            return Err(AuditFault::OutOfMemory);
        }
        show_state(&self.state);
        Ok(Some(claim))
    }
}

/// The same claim again. `AllocError` only where a growth was refused.
fn copied(alloc: Global, claim: &Claim) -> Result<Claim, AllocError>
    ensures { IfOk result (λ copy. copy ≡ claim.now) }
{
    let dag_id = claim.dag_id.copied(alloc)?;
    let run_id = claim.run_id.copied(alloc)?;
    let task_id = claim.task_id.copied(alloc)?;
    Ok(Claim {
        run_number: claim.run_number,
        dag_id,
        run_id,
        task_id,
        try_number: claim.try_number,
    })
}

/// What the next claim tells, where there is room for its entry. Where there is none, whether there is a next claim is told without
/// memory.
fn next_claim(alloc: Global, state: &State, has_room: bool) -> Result<Option<Claim>, AuditFault>
    ensures next { IfOk result (IsNextClaim state.now.rows) }
    ensures room { IfOk result (λ claim. IfSome claim (λ _. has_room ≡ true)) }
    ensures refused { IfErr result (IsPassedOver state.now.rows has_room) }
{
    match state.next_claim(alloc) {
        Ok(None) => Ok(None),
        Ok(Some(claim)) if has_room => Ok(Some(claim)),
        Ok(Some(_)) => Err(AuditFault::HistoryFull),
        // Only an instance that may be claimed takes memory.
        Err(_) => Err(passed_over(has_room)),
    }
}

/// Why the next claim is not told where there is no memory for it, by whether there is room for its entry.
fn passed_over(has_room: bool) -> AuditFault
    ensures { result ≡ (if has_room then OutOfMemory else HistoryFull) }
{
    if has_room {
        AuditFault::OutOfMemory
    } else {
        AuditFault::HistoryFull
    }
}
