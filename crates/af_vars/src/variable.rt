ghost use Rattle.std.specs.Prelude.{◌≡◌, IfOk};

use crate::var_text::VarText;
use af_base::{Change, Keyed};
use af_names::VarKey;
use std::alloc::{AllocError, Global};

/// One variable: its key, and the text that it holds.
#[derive(Drop)]
pub struct Variable {
    pub key: VarKey,
    pub value: VarText,
}

impl Variable {
    /// The same variable again. `AllocError` only where a growth was refused.
    pub fn copied(&self, alloc: Global) -> Result<Variable, AllocError>
        ensures { IfOk result (λ variable. variable ≡ self.now) }
    {
        let key = self.key.copied(alloc)?;
        let value = self.value.copied(alloc)?;
        Ok(Variable { key, value })
    }
}

impl Keyed for Variable {
    ghost key_of = { λ variable. variable.key };

    fn key(&self) -> &str {
        self.key.as_str()
    }
}

/// A variable gets another text.
#[derive(Drop)]
pub(crate) struct SetValue {
    pub(crate) value: VarText,
}

impl Change<Variable> for SetValue {
    ghost use Rattle.std.specs.Prelude.{refl};

    ghost changed = { λ change variable. record variable { value = change.value } };

    fn change(self, row: &mut Variable) {
        row.value = self.value;
    }

    ghost keeps_key = { λ change variable. refl };
}
