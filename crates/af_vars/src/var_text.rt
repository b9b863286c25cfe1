ghost use Rattle.std.specs.Prelude.{◌≡◌, IfOk, string_bytes};

use std::alloc::{AllocError, Global};
use std::marker::Model;

/// The text that a variable holds: any text, the empty one too. Contracts see it as its bytes.
#[derive(Drop)]
pub struct VarText {
    text: String,
}

impl Model for VarText {
    ghost use Rattle.std.specs.Prelude.{List, ℕ, string_bytes};

    ghost Value = { List ℕ };

    ghost view = { λ value. string_bytes value.text };
}

impl VarText {
    /// This text.
    pub fn of(text: String) -> VarText
        ensures { result ≡ string_bytes text }
    {
        VarText { text }
    }

    /// The text.
    pub fn as_str(&self) -> &str
        ensures { result.now ≡ self.now }
    {
        self.text.as_str()
    }

    /// The same text again. `AllocError` only where a growth was refused.
    pub fn copied(&self, alloc: Global) -> Result<VarText, AllocError>
        ensures { IfOk result (λ value. value ≡ self.now) }
    {
        let text = String::from_str(alloc, self.as_str())?;
        Ok(VarText { text })
    }
}
