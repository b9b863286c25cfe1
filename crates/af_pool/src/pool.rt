ghost use Rattle.std.specs.Prelude.{◌≡◌, IfOk};

use af_base::{Change, Keyed};
use af_names::PoolName;
use std::alloc::{AllocError, Global};

/// One pool: its name, and its slots, 0 to 1,000,000.
pub struct Pool {
    pub name: PoolName,
    pub slots: u32,
}

impl Drop for Pool {
    fn drop(self) {
        let Pool { name: _, slots: _ } = self;
    }
}

impl Pool {
    /// The same pool again. `AllocError` only where a growth was refused.
    pub fn copied(&self, alloc: Global) -> Result<Pool, AllocError>
        ensures { IfOk result (λ pool. pool ≡ self.now) }
    {
        let name = self.name.copied(alloc)?;
        Ok(Pool {
            name,
            slots: self.slots,
        })
    }
}

impl Keyed for Pool {
    ghost key_of = { λ pool. pool.name };

    fn key(&self) -> &str {
        self.name.as_str()
    }
}

/// A pool gets other slots.
#[derive(Drop)]
pub(crate) struct SetSlots {
    pub(crate) slots: u32,
}

impl Change<Pool> for SetSlots {
    ghost use Rattle.std.specs.Prelude.{refl};

    ghost changed = { λ change pool. record pool { slots = change.slots } };

    fn change(self, row: &mut Pool) {
        row.slots = self.slots;
    }

    ghost keeps_key = { λ change pool. refl };
}
