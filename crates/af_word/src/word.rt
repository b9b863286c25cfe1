ghost use Rattle.std.specs.Prelude.{◌≡◌, ◌+◌, ◌<◌, ◌∷◌, [], ◌↔◌, length, IfOk, IfErr};
ghost use mathlib.Core.List.{IsPrefix};
ghost use Rattle.af_prefixes.specs.Beginnings.{Agree};
ghost use Rattle.af_word.specs.Places.{EndsAt, Within};
ghost use Rattle.af_word.specs.Calls.{Added, Advanced, Looked};
ghost use Rattle.af_word.specs.Faults.{Explains};

use crate::fault::{OutOfMemory, PublishFault};
use crate::pass::Pass;
use crate::plays::{Inform, Look, Publish, Same};
use crate::seen::Seen;
use crate::view::{Law, View};
use atomic_table::Table;
use std::alloc::Global;
use std::marker::Model;

/// The word: `version * 2^32 + place`. It names the last entry of one list of places, one a version from 0 on, which only grows.
/// Contracts see which word it is, its first place and the last version that it takes.
#[derive(Drop)]
pub struct VersionWord {
    table: Table<u8, View, (u32, u32), Law, Global>,
    last: u32,
}

impl Model for VersionWord {
    ghost use Rattle.std.specs.Prelude.{◌≡◌};
    ghost use Rattle.af_word.specs.Places.{WordId};

    ghost Value = { WordId };

    ghost view = { λ w. record { table = w.table.shared.table_id; first = w.table.shared.key.0; last = w.last } };

    ghost invariant = { λ w. (w.table.shared.table_id.words ≡ 1) × (w.last ≡ w.table.shared.key.1) };
}

impl VersionWord {
    /// A word at version 0, where this place stands, which takes versions up to `last`, and a pass that has seen version 0.
    /// Without memory for its table it is an `OutOfMemory`; no other call takes memory.
    pub fn open(alloc: Global, index: u32, last: u32) -> Result<(VersionWord, Pass), OutOfMemory>
        ensures word { IfOk result (λ r. (r.0.first ≡ index) × (r.0.last ≡ last)) }
        ensures pass { IfOk result (λ r. r.1 ≡ record { word = r.0; places = index ∷ []; steps = 0; deeds = 0 }) }
    {
        let Ok((table, seat)) = Table::of_words(alloc, &[u64::from(index)], &(index, last)) else {
            return Err(OutOfMemory);
        };
        let seen = Seen { version: 0, index };
        Ok((VersionWord { table, last }, Pass { seat, seen }))
    }

    /// The last version that it takes.
    pub fn last(&self) -> u32
        ensures { result ≡ self.now.last }
    {
        self.last
    }

    /// Sees the list as it is, by one load: the version that it ends at, and the place there.
    pub fn look(&self, pass: &mut Pass) -> Seen
        requires { pass.old.word ≡ self.now }
        ensures looked { Looked pass.old pass.new }
        ensures seen { EndsAt pass.new.places result.version result.index }
    {
        let found = self.table.shared.load::<Look>(&mut pass.seat, 0);
        let current = Seen::unpacked(found);
        pass.seen = current;
        current
    }

    /// Adds a place behind version `at`, which the pass has seen, and answers `at + 1`.
    /// Where `at` is the last version it is `Last`, without a step. Else it takes one step: an exchange, or a load where the pass
    /// had seen a later version already. It is `Moved` where that step finds a later version than `at`: the last that there then was.
    pub fn publish(&self, pass: &mut Pass, at: u32, index: u32) -> Result<u32, PublishFault>
        requires word { pass.old.word ≡ self.now }
        requires seen { at < length pass.old.places }
        ensures word { pass.new.word ≡ self.now }
        ensures longer { IsPrefix pass.old.places pass.new.places }
        ensures within { Within self.now.first self.now.last pass.new.places }
        ensures ok { IfOk result (λ v. (v ≡ at + 1) × (length pass.old.places ≡ at + 1) × Added index pass.old pass.new × EndsAt pass.new.places v index) }
        ensures last { (result ≡ Err PublishFault.Last) ↔ (at ≡ self.now.last) }
        ensures err { IfErr result (λ f. Explains self.now.last at pass.old pass.new f) }
    {
        let seen = pass.seen();
        if at == self.last {
            return Err(PublishFault::Last);
        }
        if seen.version > at {
            let Seen { version, index } = self.look(pass);
            return Err(PublishFault::Moved { version, index });
        }
        let next = Seen {
            version: at + 1,
            index,
        };
        let stood = self
            .table
            .shared
            .compare_exchange::<Publish>(&mut pass.seat, 0, seen.packed(), next.packed());
        if stood == seen.packed() {
            pass.seen = next;
            return Ok(next.version);
        }
        let Seen { version, index } = Seen::unpacked(stood);
        pass.seen = Seen { version, index };
        Err(PublishFault::Moved { version, index })
    }

    /// Another pass, which has seen the same list. The split is a deed of both, and the first stays as it was otherwise.
    pub fn split(&self, pass: &mut Pass) -> Pass
        requires { pass.old.word ≡ self.now }
        ensures new { result ≡ pass.new }
        ensures same { pass.new ≡ record pass.old { deeds = pass.old.deeds + 1 } }
    {
        let seat = self.table.shared.split_seat::<Same>(&mut pass.seat);
        Pass {
            seat,
            seen: pass.seen,
        }
    }

    /// Takes in what another pass has seen, and its deeds, and looks: the list then begins with what either had seen, and where both
    /// have seen a version they know one place for it.
    pub fn meet(&self, pass: &mut Pass, other: Pass)
        requires pass { pass.old.word ≡ self.now }
        requires other { other.word ≡ self.now }
        ensures met { Advanced 1 other.deeds pass.old pass.new }
        ensures other { IsPrefix other.places pass.new.places }
        ensures places { Agree pass.old.places other.places }
    {
        let Pass { seat, .. } = other;
        self.table.shared.join_seat::<Inform>(&mut pass.seat, seat);
        let found = self.table.shared.load::<Look>(&mut pass.seat, 0);
        pass.seen = Seen::unpacked(found);
    }
}
