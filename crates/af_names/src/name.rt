ghost use Rattle.std.specs.Prelude.{◌≡◌, ◌⊎◌, ◌<◌, List, ℕ, Bool, true, Some, Ok, Err, IfOk, length, nat_eq, refl};
ghost use Rattle.std.specs.List.{list_all};
ghost use Rattle.std.specs.Ordering.{nat_cmp};
ghost use Rattle.std.specs.Cmp.{partial_equiv_from_equiv};
ghost use Rattle.std.specs.Cmp.Lexicographic.{pointwise, slice_cmp, nat_list_eq_equiv, nat_list_cmp_total, texts_ties, texts_po};
ghost use Rattle.af_names.specs.Names.{Grammar, is_spelled, named};

use crate::name_error::NameError;
use std::alloc::{AllocError, Global};
use std::cmp::Ordering;
use std::fmt;
use std::marker::{Model, PhantomData};

/// One kind of name: its grammar, as contracts see it, and the tests that decide it.
pub trait NameKind {
    /// Which texts are names of this kind.
    ghost grammar: { Grammar };

    /// Whether a byte may stand in a name.
    fn allows(byte: u8) -> bool
        ensures { result ≡ grammar.allowed byte };

    /// Whether a text is no name although its bytes and its length would make one.
    fn reserves(text: &str) -> bool
        ensures { result ≡ grammar.reserved text.now };

    /// The most bytes that a name has.
    fn longest() -> usize
        ensures { result ≡ grammar.longest };
}

/// A name of a kind: a text of that kind's grammar, at least one byte long. Contracts see it as its bytes.
/// Names compare as their bytes do.
pub struct Name<K: NameKind> {
    text: String,
    kind: PhantomData<K>,
}

impl<K: NameKind> Drop for Name<K> {
    fn drop(self) {
        let Name { text: _, kind: _ } = self;
    }
}

impl<K: NameKind> Model for Name<K> {
    ghost use Rattle.std.specs.Prelude.{◌≡◌, List, ℕ, Ok, string_bytes};
    ghost use Rattle.af_names.specs.Names.{named};

    ghost Value = { List ℕ };

    ghost view = { λ name. string_bytes name.text };

    ghost invariant = { λ name. named K.grammar (string_bytes name.text) ≡ Ok (string_bytes name.text) };
}

impl<K: NameKind> Name<K> {
    /// Reads a name. In this order: `BadName` where the text is empty, has a byte that the kind does not allow,
    /// or is reserved; `TooLong` where it has too many bytes; `OutOfMemory` only where a growth was refused.
    pub fn parse(alloc: Global, text: &str) -> Result<Name<K>, NameError>
        ensures told { (result ≡ named K.grammar text.now) ⊎ (result ≡ Err NameError.OutOfMemory) }
        ensures memory { result ≡ Err NameError.OutOfMemory → named K.grammar text.now ≡ Ok text.now }
    {
        if !Name::<K>::is_spelled(text) || K::reserves(text) {
            return Err(NameError::BadName);
        }
        if text.len() > K::longest() {
            return Err(NameError::TooLong);
        }
        let text = String::from_str(alloc, text)?;
        Ok(Name {
            text,
            kind: PhantomData,
        })
    }

    fn is_spelled(text: &str) -> bool
        ensures { result ≡ is_spelled K.grammar text.now }
    {
        !text.is_empty() && Name::<K>::are_allowed(text.as_bytes())
    }

    fn are_allowed(text: &[u8]) -> bool
        ensures { result ≡ list_all K.grammar.allowed text.now }
    {
        text.iter().all(|byte| K::allows(*byte))
    }

    /// The name's text, which is of its grammar.
    pub fn as_str(&self) -> &str
        ensures text { result.now ≡ self.now }
        ensures named { named K.grammar self.now ≡ Ok self.now }
        ensures bytes { list_all K.grammar.allowed self.now ≡ true }
        ensures some { 0 < length self.now }
    {
        self.text.as_str()
    }

    /// The same name again. `AllocError` only where a growth was refused.
    pub fn copied(&self, alloc: Global) -> Result<Name<K>, AllocError>
        ensures { IfOk result (λ name. name ≡ self.now) }
    {
        let text = String::from_str(alloc, self.as_str())?;
        Ok(Name {
            text,
            kind: PhantomData,
        })
    }
}

impl<K: NameKind> PartialEq for Name<K> {
    ghost eq = { pointwise nat_eq };

    ghost laws = { partial_equiv_from_equiv nat_list_eq_equiv };

    fn eq(&self, other: &Name<K>) -> bool {
        self.text == other.text
    }
}

impl<K: NameKind> Eq for Name<K> {
    ghost laws = { nat_list_eq_equiv };
}

impl<K: NameKind> PartialOrd for Name<K> {
    ghost partial_cmp = { λ x y. Some (slice_cmp nat_cmp x y) };

    ghost laws = { texts_po };

    fn partial_cmp(&self, other: &Name<K>) -> Option<Ordering> {
        Some(self.cmp(other))
    }
}

impl<K: NameKind> Ord for Name<K> {
    ghost cmp = { slice_cmp nat_cmp };

    ghost total = { nat_list_cmp_total };

    ghost matches_partial_cmp = { λ x y. refl };

    ghost matches_eq = { texts_ties };

    fn cmp(&self, other: &Name<K>) -> Ordering {
        self.text.cmp(&other.text)
    }
}

impl<K: NameKind> fmt::Debug for Name<K> {
    fn fmt<W: fmt::Write>(&self, f: &mut fmt::Formatter<W>) -> fmt::Result {
        fmt::Debug::fmt(self.as_str(), f)
    }
}

impl<K: NameKind> fmt::Display for Name<K> {
    ghost output = { λ name. Some name };

    fn fmt<W: fmt::Write>(&self, f: &mut fmt::Formatter<W>) -> fmt::Result {
        f.write_str(self.as_str())
    }
}
