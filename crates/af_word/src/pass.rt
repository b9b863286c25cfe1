ghost use Rattle.std.specs.Prelude.{◌≡◌};
ghost use Rattle.af_word.specs.Places.{EndsAt, Within};

use crate::seen::Seen;
use crate::view::View;
use atomic_table::Seat;
use std::marker::Model;

/// What one thread has seen of a word: the places of its versions from 0 up to the last that it has seen.
/// Contracts see that list, which always begins the word's one list; which word it is; the pass's steps: how many looks and
/// exchanges it took, those of the pass that it was split from before that among them; and its deeds: how many places it
/// has published and how many splits it has been through, on either side, those of the pass that it was split from before
/// that and of the passes that it has taken in among them.
#[derive(Drop)]
pub struct Pass {
    pub(crate) seat: Seat<u8, View>,
    pub(crate) seen: Seen,
}

impl Model for Pass {
    ghost use Rattle.std.specs.Prelude.{◌≡◌, []};
    ghost use Rattle.af_word.specs.Places.{Sight, EndsAt, Within};

    ghost Value = { Sight };

    ghost view = { λ p. record { word = record { table = p.seat.table_id; first = p.seat.me.0.first; last = p.seat.me.0.last }; places = p.seat.me.0.seen; steps = p.seat.me.0.steps; deeds = p.seat.me.0.deeds } };

    ghost invariant = { λ p. (p.seat.me.1 ≡ []) × (p.seat.me.0.told ≡ []) × Within p.seat.me.0.first p.seat.me.0.last p.seat.me.0.seen × EndsAt p.seat.me.0.seen p.seen.version p.seen.index };
}

impl Pass {
    /// The last version that it has seen, and its place. It takes no step on the word.
    pub fn seen(&self) -> Seen
        ensures seen { EndsAt self.now.places result.version result.index }
        ensures within { Within self.now.word.first self.now.word.last self.now.places }
    {
        self.seen
    }
}
