ghost use Rattle.std.specs.Prelude.{◌≡◌, IfOk};
ghost use Rattle.af_audit.specs.Reported.{IsReported, claim_in};

use crate::act::Act;
use crate::actor::Actor;
use crate::audit_fault::AuditFault;
use crate::ledger::Ledger;
use crate::replaying::show_state;
use crate::report_refusal::ReportRefusal;
use af_names::Instant;
use af_runs::Run;
use af_sched::{Claim, Outcome, ReportFault};
use std::alloc::{AllocError, Global};

impl Ledger {
    /// Takes the outcome of a claimed try at a moment; then there is one entry, of an executor, under the ledger's version, which names
    /// the run of the claim's number by the ids that this run has. The report's own faults are told first, then a full history, then want
    /// of memory; after each the ledger is as before.
    pub fn report(
        &mut self,
        alloc: Global,
        claim: &Claim,
        outcome: Outcome,
        at: Instant,
    ) -> Result<(), ReportRefusal>
        ensures { IsReported at claim.now outcome self.old self.new result }
    {
        let Some(run) = self.state.run_numbered(claim.run_number) else {
            return Err(ReportRefusal::Fault(ReportFault::NoSuchInstance));
        };
        if let Some(fault) = self.state.report_fault(claim) {
            return Err(ReportRefusal::Fault(fault));
        }
        if !self.audit.has_room() {
            return Err(ReportRefusal::Audit(AuditFault::HistoryFull));
        }
        let Ok(kept) = claim_in(alloc, claim, run) else {
            return Err(ReportRefusal::Audit(AuditFault::OutOfMemory));
        };
        let act = Act::Report(kept, outcome);
        if let Err(fault) = self.audit.enter(at, Actor::Executor, self.version, act) {
            return Err(ReportRefusal::Audit(fault));
        }
        // The report has no fault, so it is taken.
        let _told = self.state.report(claim, outcome, at);
        show_state(&self.state);
        Ok(())
    }
}

/// The claim of a try of this run.
fn claim_in(alloc: Global, claim: &Claim, run: &Run) -> Result<Claim, AllocError>
    ensures { IfOk result (λ kept. kept ≡ claim_in claim.now run.now) }
{
    let dag_id = run.dag_id.copied(alloc)?;
    let run_id = run.run_id.copied(alloc)?;
    let task_id = claim.task_id.copied(alloc)?;
    Ok(Claim {
        run_number: claim.run_number,
        dag_id,
        run_id,
        task_id,
        try_number: claim.try_number,
    })
}
