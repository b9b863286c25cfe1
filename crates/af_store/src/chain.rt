ghost use Rattle.std.specs.Prelude.{◌≡◌, IfOk, string_bytes};
ghost use Rattle.af_base.specs.Readings.{OrMemory};
ghost use Rattle.af_store.specs.Bodies.{same_text};
ghost use Rattle.af_store.specs.Chains.{chained, marked, mark_of, start, taken_as};

use crate::line_fault::LineFault;
use crate::line_kind::LineKind;
use sha2::{Digest, Sha256};
use std::alloc::{AllocError, Global};
use std::marker::Model;

/// The chain over the lines so far. Contracts see it as the digest of the last of them, which covers them all.
#[derive(Clone, Copy)]
pub struct Chain {
    digest: [u8; 32],
}

impl Model for Chain {
    ghost use Rattle.std.specs.Prelude.{List, ℕ};

    ghost Value = { List ℕ };

    ghost view = { λ chain. chain.digest };

    ghost inverse = { λ digest. record { digest = digest } };
}

impl Chain {
    /// No line yet.
    pub fn start() -> Chain
        ensures { result ≡ start }
    {
        Chain { digest: [0; 32] }
    }

    /// With one line more.
    pub fn with(&self, kind: LineKind, body: &str) -> Chain
        ensures { result ≡ chained self.now (record { kind = kind; body = body.now }) }
    {
        Chain {
            digest: chained(&self.digest, kind, body),
        }
    }

    /// The mark of the last line, which is of this kind: what is stored beside its body. `AllocError` only where a growth was refused.
    pub fn mark(&self, alloc: Global, kind: LineKind) -> Result<String, AllocError>
        ensures { IfOk result (λ text. string_bytes text ≡ marked kind self.now) }
    {
        let mut text = String::from_str(alloc, kind.text())?;
        let digits = hex::encode(alloc, self.digest)?;
        text.push_str(" ")?;
        text.push_str(digits.as_str())?;
        Ok(text)
    }

    /// The kind of the line that comes next, where this is its mark and this its body. `NotALine` exactly where it is the mark of none: where
    /// the body, the kind or the digest was changed, or a line before it; `OutOfMemory` only where a growth was refused.
    pub fn kind_of(&self, alloc: Global, mark: &str, body: &str) -> Result<LineKind, LineFault>
        ensures { OrMemory LineFault.OutOfMemory (taken_as self.now mark.now body.now) result }
    {
        if self.is_mark(alloc, LineKind::Entry, mark, body)? {
            return Ok(LineKind::Entry);
        }
        if self.is_mark(alloc, LineKind::Change, mark, body)? {
            return Ok(LineKind::Change);
        }
        if self.is_mark(alloc, LineKind::Opened, mark, body)? {
            return Ok(LineKind::Opened);
        }
        Err(LineFault::NotALine)
    }

    /// Whether this is the mark of a line of this kind and this body that comes next.
    fn is_mark(
        &self,
        alloc: Global,
        kind: LineKind,
        mark: &str,
        body: &str,
    ) -> Result<bool, AllocError>
        ensures { IfOk result (λ it. it ≡ same_text (mark_of self.now body.now kind) mark.now) }
    {
        let own = self.with(kind, body).mark(alloc, kind)?;
        Ok(own.as_str() == mark)
    }
}

/// The digest of a line of this kind and this body, where the line before it has this digest.
fn chained(before: &[u8; 32], kind: LineKind, body: &str) -> [u8; 32]
    ensures { result ≡ chained before.now (record { kind = kind; body = body.now }) }
{
    let mut hasher = Sha256::new();
    hasher.update(before);
    hasher.update(kind.text());
    hasher.update("\n");
    hasher.update(body);
    hasher.finalize()
}
