ghost use Rattle.std.specs.Prelude.{◌≡◌, IfOk, ok_or};
ghost use Rattle.af_audit.specs.Ticked.{IsTicked};
ghost use Rattle.af_audit.specs.declared.audit_fault.AuditFault.TheVariants.{HistoryFull};
ghost use Rattle.af_world.specs.Moving.{move_of};
ghost use Rattle.af_world.specs.Steps.{Ticks};

use crate::telling::tick_told;
use crate::world::World;
use af_audit::{AuditFault, Ledger};
use af_names::Instant;
use af_ops::Shown;
use std::alloc::{AllocError, Global};

impl World {
    /// The scheduler ticks at a moment; then nobody holds the plane.
    pub(crate) fn tick(&mut self, alloc: Global, at: Instant) -> Result<Option<Shown>, AllocError>
        ensures { IfOk result (λ answer. Ticks self.old at (move_of answer self.new)) }
    {
        let told = ticked(alloc, &mut self.ledger, at)?;
        self.holder = None;
        Ok(Some(tick_told(alloc, &self.ledger, told)?))
    }
}

/// Ticks at a moment, and tells whether that changed the state, or none where there is no room for the entry.
fn ticked(alloc: Global, ledger: &mut Ledger, at: Instant) -> Result<Option<bool>, AllocError>
    ensures told { IfOk result (λ told. IsTicked at ledger.old ledger.new (ok_or told HistoryFull)) }
    ensures version { ledger.new.version ≡ ledger.old.version }
{
    match ledger.tick(alloc, at) {
        Ok(changed) => Ok(Some(changed)),
        Err(AuditFault::HistoryFull) => Ok(None),
        Err(AuditFault::OutOfMemory) => Err(AllocError),
    }
}
