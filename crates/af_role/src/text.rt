ghost use Rattle.std.specs.Prelude.{◌≡◌, IfOk, string_bytes};

use af_base::{Again, Items};
use std::alloc::{AllocError, Global};
use std::marker::Model;

/// Texts in the order in which they were given.
pub type Texts = Items<Text>;

/// A text as it was given, of any bytes of UTF-8. Contracts see it as its bytes.
#[derive(Drop)]
pub struct Text {
    text: String,
}

impl Model for Text {
    ghost use Rattle.std.specs.Prelude.{List, ℕ, string_bytes};

    ghost Value = { List ℕ };

    ghost view = { λ text. string_bytes text.text };
}

impl Text {
    /// The text of a string.
    pub fn new(text: String) -> Text
        ensures { result ≡ string_bytes text }
    {
        Text { text }
    }

    /// The text.
    pub fn as_str(&self) -> &str
        ensures { result.now ≡ self.now }
    {
        self.text.as_str()
    }

    /// The same text again. `AllocError` only where a growth was refused.
    pub fn copied(&self, alloc: Global) -> Result<Text, AllocError>
        ensures { IfOk result (λ text. text ≡ self.now) }
    {
        let text = String::from_str(alloc, self.as_str())?;
        Ok(Text { text })
    }
}

impl Again for Text {
    fn copied(&self, alloc: Global) -> Result<Text, AllocError> {
        Text::copied(self, alloc)
    }
}
