ghost use Rattle.std.specs.Prelude.{◌≡◌, ◌+◌, ◌<◌, ◌∷◌, [], length, None, IfOk, IfErr};
ghost use mathlib.Core.List.{IsPrefix};
ghost use Rattle.af_word.specs.Calls.{Advanced, Looked};
ghost use Rattle.af_board.specs.Marks.{HasSeen, IsLast, IsOf, place_of, policy_of};

use crate::{Mark, NotFound, OutOfMemory};
use af_mask::Compiled;
use af_policy::Policy;
use af_word::{Pass, VersionWord};
use std::alloc::Global;
use std::marker::Model;

/// The published versions of a policy, from version 0 on. Contracts see which version word and which table they are, and the policy of
/// version 0.
///
/// The version word names the last version and the place of its policy. Place 0 is the opening policy, which is not in the table; place
/// n + 1 is index n of the table. A policy is compiled and pushed to the table before its place is published, so a place whose
/// publication failed stays used up. Each call says which kinds of atomic step it takes on the word; a push takes none.
pub struct Board {
    pub(crate) word: VersionWord,
    pub(crate) table: boxcar::Vec<Compiled>,
    opening: Compiled,
}

impl Drop for Board {
    fn drop(self) {
        let Board {
            word: _,
            table: _,
            opening: _,
        } = self;
    }
}

impl Model for Board {
    ghost use Rattle.std.specs.Prelude.{◌≡◌};
    ghost use Rattle.af_board.specs.Marks.{Site};

    ghost Value = { Site };

    ghost view = { λ b. record { word = b.word; table = b.table; opening = b.opening } };

    ghost invariant = { λ b. b.word.first ≡ 0 };
}

impl Board {
    /// A board whose version 0 is this policy and whose last possible version is `last`, and a pass that has seen version 0.
    /// `OutOfMemory` if an allocation failed. Atomic step: the opening of the word.
    pub fn open(alloc: Global, policy: Policy, last: u32) -> Result<(Board, Pass), OutOfMemory>
        ensures board { IfOk result (λ r. (r.0.opening ≡ policy) × (r.0.word.last ≡ last)) }
        ensures pass { IfOk result (λ r. r.1 ≡ record { word = r.0.word; places = 0 ∷ []; steps = 0; deeds = 0 }) }
    {
        let Ok(opening) = Compiled::of(&policy) else {
            return Err(OutOfMemory);
        };
        let Ok(table) = boxcar::Vec::new(alloc) else {
            return Err(OutOfMemory);
        };
        let Ok((word, pass)) = VersionWord::open(alloc, 0, last) else {
            return Err(OutOfMemory);
        };
        let board = Board {
            word,
            table,
            opening,
        };
        Ok((board, pass))
    }

    /// The mark of version 0. No atomic step.
    pub fn opening(&self) -> Mark
        ensures { result ≡ record { version = 0; token = None } }
    {
        Mark {
            version: 0,
            token: None,
        }
    }

    /// The last version, which the pass has then seen. It takes no memory and does not wait. Atomic step: one look.
    pub fn current(&self, pass: &mut Pass) -> Result<Mark, NotFound>
        requires { pass.old.word ≡ self.now.word }
        ensures looked { Looked pass.old pass.new }
        ensures mark { IfOk result (λ m. IsLast self.now pass.new m) }
        ensures not_found { IfErr result (λ _. 1 < length pass.new.places) }
    {
        let seen = self.word.look(pass);
        if seen.index == 0 {
            return Ok(Mark {
                version: seen.version,
                token: None,
            });
        }
        let Some(token) = self.table.witness(seen.index as usize - 1) else {
            return Err(NotFound);
        };
        Ok(Mark {
            version: seen.version,
            token: Some(token),
        })
    }

    /// The policy that a mark of this board names. It takes no memory and does not wait. No atomic step on the word.
    pub fn policy(&self, mark: &Mark) -> &Policy
        requires { IsOf self.now mark.now }
        ensures { result.now ≡ policy_of self.now mark.now }
    {
        self.compiled(mark).policy()
    }

    /// The compiled policy that a mark of this board names; it keeps the policy. It takes no memory and does not wait. No atomic step on
    /// the word.
    pub fn compiled(&self, mark: &Mark) -> &Compiled
        requires { IsOf self.now mark.now }
        ensures { result.now ≡ policy_of self.now mark.now }
    {
        match &mark.token {
            None => &self.opening,
            Some(token) => self.table.value(token),
        }
    }

    /// A law: two marks with one place have one policy. No atomic step on the word.
    pub fn agrees(&self, a: &Mark, b: &Mark)
        requires a { IsOf self.now a.now }
        requires b { IsOf self.now b.now }
        requires place { place_of a.now ≡ place_of b.now }
        ensures { policy_of self.now a.now ≡ policy_of self.now b.now }
    {
        if let (Some(a), Some(b)) = (&a.token, &b.token) {
            self.table.agrees(a, b);
        }
    }

    /// A law: two marks of one version, which one pass has seen, have one policy. No atomic step on the word.
    pub fn same_version(&self, pass: &Pass, a: &Mark, b: &Mark)
        requires a { IsOf self.now a.now × HasSeen pass.now a.now }
        requires b { IsOf self.now b.now × HasSeen pass.now b.now }
        requires version { a.now.version ≡ b.now.version }
        ensures { policy_of self.now a.now ≡ policy_of self.now b.now }
    {
        let _ = pass;
        self.agrees(a, b);
    }

    /// A law: two marks of one version, which two passes of this board have seen, have one policy. The first pass takes in the other, as
    /// in `meet`: a pass that is still wanted is split before. Atomic steps: one join, then one look.
    pub fn versions_agree(&self, one: &mut Pass, a: &Mark, other: Pass, b: &Mark)
        requires one { one.old.word ≡ self.now.word }
        requires other { other.word ≡ self.now.word }
        requires a { IsOf self.now a.now × HasSeen one.old a.now }
        requires b { IsOf self.now b.now × HasSeen other b.now }
        requires version { a.now.version ≡ b.now.version }
        ensures policy { policy_of self.now a.now ≡ policy_of self.now b.now }
        ensures met { Advanced 1 other.deeds one.old one.new }
        ensures other { IsPrefix other.places one.new.places }
    {
        self.word.meet(one, other);
        self.agrees(a, b);
    }

    /// Another pass, which has seen the same versions. The split is a deed of both, and the first stays as it was otherwise. Atomic step:
    /// one split.
    pub fn split(&self, pass: &mut Pass) -> Pass
        requires { pass.old.word ≡ self.now.word }
        ensures new { result ≡ pass.new }
        ensures same { pass.new ≡ record pass.old { deeds = pass.old.deeds + 1 } }
    {
        self.word.split(pass)
    }

    /// Takes in what another pass has seen, and its deeds, and looks: the pass has then seen all versions that either had seen. Atomic
    /// steps: one join, then one look.
    pub fn meet(&self, pass: &mut Pass, other: Pass)
        requires pass { pass.old.word ≡ self.now.word }
        requires other { other.word ≡ self.now.word }
        ensures met { Advanced 1 other.deeds pass.old pass.new }
        ensures other { IsPrefix other.places pass.new.places }
    {
        self.word.meet(pass, other);
    }
}
