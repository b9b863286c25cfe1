ghost use Rattle.std.specs.Prelude.{◌≡◌, IfOk};
ghost use Rattle.af_world.specs.Plane.{claimed_try, left_by_report, reporting, try_claim};
ghost use Rattle.af_world.specs.Moving.{move_of};
ghost use Rattle.af_world.specs.Steps.{reports};

use crate::reporting::Reporting;
use crate::telling::report_told;
use crate::try_report::TryReport;
use crate::world::World;
use af_audit::{AuditFault, Ledger, ReportRefusal};
use af_names::Instant;
use af_ops::Shown;
use af_runs::Run;
use af_sched::{Claim, ReportFault};
use std::alloc::{AllocError, Global};

impl World {
    /// An executor reports how a try ended, at a moment; then nobody holds the plane.
    pub(crate) fn report(
        &mut self,
        alloc: Global,
        it: &TryReport,
        at: Instant,
    ) -> Result<Option<Shown>, AllocError>
        ensures { IfOk result (λ answer. move_of answer self.new ≡ reports self.old it.now at (reporting self.old.ledger it.now)) }
    {
        let comes = reported(alloc, &mut self.ledger, it, at)?;
        self.holder = None;
        Ok(Some(report_told(alloc, &self.ledger, &comes)?))
    }
}

/// Reports how a try ended, and tells what that comes to.
fn reported(
    alloc: Global,
    ledger: &mut Ledger,
    it: &TryReport,
    at: Instant,
) -> Result<Reporting, AllocError>
    ensures comes { IfOk result (λ comes. comes ≡ reporting ledger.old it.now) }
    ensures left { IfOk result (λ comes. ledger.new ≡ left_by_report ledger.old it.now.outcome at comes) }
    ensures version { ledger.new.version ≡ ledger.old.version }
{
    let Some(claim) = claimed_try(alloc, ledger, it)? else {
        return Ok(Reporting::Faulty(ReportFault::NoSuchInstance));
    };
    match ledger.report(alloc, &claim, it.outcome, at) {
        Ok(()) => Ok(Reporting::Takes(claim)),
        Err(ReportRefusal::Fault(fault)) => Ok(Reporting::Faulty(fault)),
        Err(ReportRefusal::Audit(AuditFault::HistoryFull)) => Ok(Reporting::NoRoom),
        Err(ReportRefusal::Audit(AuditFault::OutOfMemory)) => Err(AllocError),
    }
}

/// The claim of the try that is reported, if there is its run.
fn claimed_try(alloc: Global, ledger: &Ledger, it: &TryReport) -> Result<Option<Claim>, AllocError>
    ensures { IfOk result (λ claim. claim ≡ claimed_try ledger.now it.now) }
{
    match ledger.state().run_numbered(it.run_number) {
        None => Ok(None),
        Some(run) => Ok(Some(try_claim(alloc, it, run)?)),
    }
}

/// The claim of the try that is reported, of this run.
fn try_claim(alloc: Global, it: &TryReport, run: &Run) -> Result<Claim, AllocError>
    ensures { IfOk result (λ claim. claim ≡ try_claim it.now run.now) }
{
    let dag_id = run.dag_id.copied(alloc)?;
    let run_id = run.run_id.copied(alloc)?;
    let task_id = it.task_id.copied(alloc)?;
    Ok(Claim {
        run_number: it.run_number,
        dag_id,
        run_id,
        task_id,
        try_number: it.try_number,
    })
}
