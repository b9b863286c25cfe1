ghost use Rattle.std.specs.Prelude.{◌≡◌, IfOk, ok_or};
ghost use Rattle.af_audit.specs.Claimed.{IsClaimed};
ghost use Rattle.af_audit.specs.declared.audit_fault.AuditFault.TheVariants.{HistoryFull};
ghost use Rattle.af_world.specs.Moving.{move_of};
ghost use Rattle.af_world.specs.Steps.{ClaimsIn};

use crate::telling::claim_told;
use crate::world::World;
use af_audit::{AuditFault, Ledger};
use af_names::Instant;
use af_ops::Shown;
use af_sched::Claim;
use std::alloc::{AllocError, Global};

impl World {
    /// An executor claims an instance at a moment; then nobody holds the plane.
    pub(crate) fn claim(&mut self, alloc: Global, at: Instant) -> Result<Option<Shown>, AllocError>
        ensures { IfOk result (λ answer. ClaimsIn self.old at (move_of answer self.new)) }
    {
        let told = claimed(alloc, &mut self.ledger, at)?;
        self.holder = None;
        Ok(Some(claim_told(alloc, &self.ledger, &told)?))
    }
}

/// Claims an instance at a moment, and tells which, if there is one, or none where there is no room for the entry.
fn claimed(
    alloc: Global,
    ledger: &mut Ledger,
    at: Instant,
) -> Result<Option<Option<Claim>>, AllocError>
    ensures told { IfOk result (λ told. IsClaimed at ledger.old ledger.new (ok_or told HistoryFull)) }
    ensures version { ledger.new.version ≡ ledger.old.version }
{
    match ledger.claim(alloc, at) {
        Ok(claim) => Ok(Some(claim)),
        Err(AuditFault::HistoryFull) => Ok(None),
        Err(AuditFault::OutOfMemory) => Err(AllocError),
    }
}
