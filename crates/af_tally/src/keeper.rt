ghost use Rattle.std.specs.Prelude.{◌≡◌, ◌+◌, ◌^◌, ◌<◌, ◌++◌, ◌∷◌, [], length, true, false, IfOk, IfSome};
ghost use mathlib.Core.List.{IsPrefix};
ghost use Rattle.af_tally.specs.Steps.{copied, witness};

use crate::fault::OutOfMemory;
use crate::plays::{Add, Compare, Copied, Inform, Writes};
use crate::view::{Law, View};
use crate::witness::Witness;
use atomic_table::{Perch, Seat, Table};
use std::alloc::Global;
use std::hint::spin_loop;
use std::marker::{Brand, Model};
use std::mem;

/// How often a thread looks for the spare seat, which another one has for a few steps.
const TRIES: u32 = 200;

/// Who adds entries of type `E`, and owns the word that counts them: every addition is the keeper's.
/// The entries are kept nowhere: contracts see all of them, and which keeper it is.
#[derive(Drop)]
pub struct Keeper<E> {
    table: Table<u8, View<E>, (), Law, Global>,
    seat: Seat<u8, View<E>>,
    /// On it rests the seat of a witness that has seen all entries. One thread at a time takes it, to show its own witness the entries.
    spare: Perch<u8, View<E>>,
    count: u32,
}

impl<E> Model for Keeper<E> {
    ghost use Rattle.std.specs.Prelude.{◌≡◌, [], length};
    ghost use Rattle.af_tally.specs.Known.{Known, known_coded};
    ghost use Rattle.af_tally.specs.Steps.{copied, keeping};

    ghost Value = { Known E };

    ghost coded = { known_coded E.code };

    ghost view = { λ k. record { keeper = k.table.shared.table_id; entries = k.seat.me.0.seen } };

    ghost invariant = { λ k. (k.table.shared.table_id.words ≡ 1) × (k.seat.table_id ≡ k.table.shared.table_id) × (k.seat.me ≡ (keeping k.seat.me.0.seen, [])) × (k.count ≡ length k.seat.me.0.seen) × (k.spare.table_id ≡ k.table.shared.table_id) × (k.spare.view ≡ copied k.seat.me.0) };
}

impl<E> Keeper<E> {
    /// A keeper with no entry, and the witness that has seen none.
    /// Without memory for its table it is an `OutOfMemory`; no other call takes memory.
    pub fn open(alloc: Global) -> Result<(Keeper<E>, Witness<E>), OutOfMemory>
        ensures keeper { IfOk result (λ r. r.0.entries ≡ []) }
        ensures witness { IfOk result (λ r. r.1 ≡ r.0) }
    {
        let Ok((table, mut seat)) = Table::of_words(alloc, &[0], &()) else {
            return Err(OutOfMemory);
        };
        let spare = perched(&table, &mut seat);
        let mut keeper = Keeper {
            table,
            seat,
            spare,
            count: 0,
        };
        let witness = keeper.give();
        Ok((keeper, witness))
    }

    /// How many entries there are. It takes no step on the word.
    pub fn count(&self) -> u32
        ensures { result ≡ length self.now.entries }
    {
        self.count
    }

    /// Adds an entry, by one addition to the word. Then a split makes the next spare seat.
    pub fn record(&mut self, entry: &E)
        requires { length self.old.entries + 1 < 2 ^ 32 }
        ensures keeper { self.new.keeper ≡ self.old.keeper }
        ensures entries { self.new.entries ≡ self.old.entries ++ entry.now ∷ [] }
    {
        self.add::<Brand>(entry);
    }

    /// A witness that has seen all entries.
    pub fn give(&mut self) -> Witness<E>
        ensures witness { result ≡ self.old }
        ensures same { self.new ≡ self.old }
    {
        let table = &self.table;
        Witness {
            seat: table.shared.split_seat::<Copied>(&mut self.seat),
            count: self.count,
        }
    }

    /// Shows a witness all entries. They begin with what it had seen.
    pub fn meet(&mut self, witness: &mut Witness<E>)
        requires { witness.old.keeper ≡ self.old.keeper }
        ensures begins { IsPrefix witness.old.entries self.old.entries }
        ensures witness { witness.new ≡ self.old }
        ensures same { self.new ≡ self.old }
    {
        let old = mem::replace(witness, self.give());
        let Witness { seat, count: _ } = old;
        let table = &self.table;
        table.shared.join_seat::<Inform>(&mut self.seat, seat);
        table.shared.load::<Compare>(&mut self.seat, 0);
    }

    /// Shows a witness all entries, without a change of the keeper, so that several threads may do so. They begin with what it had seen. False
    /// if the witness counts more entries than the keeper, or if other threads had the spare seat all the time. Then the witness is as before.
    /// No clause says when it is false.
    pub fn show(&self, witness: &mut Witness<E>) -> bool
        requires { witness.old.keeper ≡ self.now.keeper }
        ensures begins { result ≡ true → IsPrefix witness.old.entries self.now.entries }
        ensures shown { result ≡ true → witness.new ≡ self.now }
        ensures same { result ≡ false → witness.new ≡ witness.old }
    {
        if self.count < witness.count {
            return false;
        }
        let Some(mut seat) = self.spare_seat() else {
            return false;
        };
        let table = &self.table;
        let all = Witness {
            seat: table.shared.split_seat::<Copied>(&mut seat),
            count: self.count,
        };
        let Witness {
            seat: told,
            count: _,
        } = mem::replace(witness, all);
        table.shared.join_seat::<Inform>(&mut seat, told);
        table.shared.load::<Compare>(&mut seat, 0);
        let _rests = self.spare.give(seat, 0, 2);
        true
    }

    /// The spare seat, if no other thread has it all the time.
    fn spare_seat(&self) -> Option<Seat<u8, View<E>>>
        ensures { IfSome result (λ s. (s.table_id ≡ self.now.keeper) × (s.me ≡ (witness self.now.entries, []))) }
    {
        for _ in 0..TRIES {
            if self.spare.load() >= 2 {
                if let (_, Some(seat)) = self.spare.take(0) {
                    return Some(seat);
                }
            }
            spin_loop();
        }
        None
    }

    /// Adds the one entry that `N` names: a step announces no value, so that a name has to carry it.
    fn add<N: Writes<E>>(&mut self, entry: &E)
        requires room { length self.old.entries + 1 < 2 ^ 32 }
        requires entry { N.entries ≡ entry.now ∷ [] }
        ensures keeper { self.new.keeper ≡ self.old.keeper }
        ensures entries { self.new.entries ≡ self.old.entries ++ entry.now ∷ [] }
    {
        let _ = entry;
        let table = &self.table;
        table.shared.fetch_add::<Add<N>>(&mut self.seat, 0, 1);
        self.count += 1;
        self.spare = perched(&self.table, &mut self.seat);
    }
}

/// A perch on which the seat of a witness rests that has seen what this seat has.
fn perched<E>(
    table: &Table<u8, View<E>, (), Law, Global>,
    seat: &mut Seat<u8, View<E>>,
) -> Perch<u8, View<E>>
    requires table { (seat.old.table_id ≡ table.now.shared.table_id) × (table.now.shared.table_id.words ≡ 1) }
    ensures perch { (result.table_id ≡ table.now.shared.table_id) × (result.view ≡ copied seat.old.me.0) }
    ensures seat { (seat.new.table_id ≡ seat.old.table_id) × (seat.new.id ≡ seat.old.id) × (seat.new.me ≡ seat.old.me) }
{
    let spare = table.shared.split_seat::<Copied>(seat);
    let perch = Perch::new(&spare, 0);
    // No other thread has the perch yet, so the seat rests there.
    let _rests = perch.give(spare, 0, 2);
    perch
}
