ghost use Rattle.std.specs.Prelude.{◌≡◌, length};

use crate::view::View;
use atomic_table::Seat;
use std::marker::Model;

/// What has seen a beginning of a keeper's entries. Contracts see that beginning, and which keeper it is.
#[derive(Drop)]
pub struct Witness<E> {
    pub(crate) seat: Seat<u8, View<E>>,
    pub(crate) count: u32,
}

impl<E> Model for Witness<E> {
    ghost use Rattle.std.specs.Prelude.{◌≡◌, [], length};
    ghost use Rattle.af_tally.specs.Known.{Known, known_coded};

    ghost Value = { Known E };

    ghost coded = { known_coded E.code };

    ghost view = { λ w. record { keeper = w.seat.table_id; entries = w.seat.me.0.seen } };

    ghost invariant = { λ w. (w.seat.me.1 ≡ []) × (w.count ≡ length w.seat.me.0.seen) };
}

impl<E> Witness<E> {
    /// How many entries it has seen.
    pub fn count(&self) -> u32
        ensures { result ≡ length self.now.entries }
    {
        self.count
    }
}
