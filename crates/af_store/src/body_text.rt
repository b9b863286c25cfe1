ghost use Rattle.std.specs.Prelude.{◌≡◌, ◌++◌, ◌∷◌, [], decimal, IfOk, OnOk, string_bytes};
ghost use Rattle.json.specs.Print.{print};
ghost use Rattle.json.specs.Token.{begin_array, begin_object, boolean, end_array, end_object, key, null, number, string};

use json::Writer;
use std::alloc::{AllocError, Global};
use std::marker::Model;

/// A text of JSON that is written from its beginning. Contracts see its tokens.
#[derive(Drop)]
pub struct BodyText {
    out: Writer,
}

impl Model for BodyText {
    ghost use Rattle.std.specs.Prelude.{◌≡◌, [], List};
    ghost use Rattle.json.specs.Token.{Token, tokens_code};

    ghost Value = { List Token };

    ghost coded = { tokens_code };

    ghost view = { λ text. text.out.tokens };

    ghost invariant = { λ text. text.out.before ≡ [] };
}

impl BodyText {
    /// No token. `AllocError` only where a growth was refused.
    pub(crate) fn new(alloc: Global) -> Result<BodyText, AllocError>
        ensures { IfOk result (λ text. text ≡ []) }
    {
        let bytes = Vec::with_capacity(alloc, 256)?;
        Ok(BodyText {
            out: Writer::new(bytes),
        })
    }

    /// The text of its tokens.
    pub(crate) fn into_string(self) -> String
        ensures { string_bytes result ≡ print self }
    {
        let BodyText { out } = self;
        match String::from_utf8(out.into_inner()) {
            Ok(text) => text,
            Err(_) => unreachable!(),
        }
    }

    /// The beginning of an object.
    pub(crate) fn begin_object(&mut self) -> Result<(), AllocError>
        ensures { OnOk result (self.new ≡ self.old ++ begin_object ∷ []) }
    {
        self.out.begin_object()
    }

    /// The end of an object.
    pub(crate) fn end_object(&mut self) -> Result<(), AllocError>
        ensures { OnOk result (self.new ≡ self.old ++ end_object ∷ []) }
    {
        self.out.end_object()
    }

    /// The beginning of a list.
    pub(crate) fn begin_array(&mut self) -> Result<(), AllocError>
        ensures { OnOk result (self.new ≡ self.old ++ begin_array ∷ []) }
    {
        self.out.begin_array()
    }

    /// The end of a list.
    pub(crate) fn end_array(&mut self) -> Result<(), AllocError>
        ensures { OnOk result (self.new ≡ self.old ++ end_array ∷ []) }
    {
        self.out.end_array()
    }

    /// The name of a member.
    pub(crate) fn key(&mut self, name: &str) -> Result<(), AllocError>
        ensures { OnOk result (self.new ≡ self.old ++ key name.now ∷ []) }
    {
        self.out.key(name)
    }

    /// A text.
    pub(crate) fn text(&mut self, text: &str) -> Result<(), AllocError>
        ensures { OnOk result (self.new ≡ self.old ++ string text.now ∷ []) }
    {
        self.out.string(text)
    }

    /// A number.
    pub(crate) fn count(&mut self, count: u64) -> Result<(), AllocError>
        ensures { OnOk result (self.new ≡ self.old ++ number (decimal count) ∷ []) }
    {
        self.out.u64(count)
    }

    /// A truth value.
    pub(crate) fn truth(&mut self, truth: bool) -> Result<(), AllocError>
        ensures { OnOk result (self.new ≡ self.old ++ boolean truth ∷ []) }
    {
        self.out.boolean(truth)
    }

    /// Null.
    pub(crate) fn null(&mut self) -> Result<(), AllocError>
        ensures { OnOk result (self.new ≡ self.old ++ null ∷ []) }
    {
        self.out.null()
    }
}
