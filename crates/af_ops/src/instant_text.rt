ghost use Rattle.std.specs.Prelude.{◌≡◌, true};
ghost use Rattle.std.specs.List.{list_all};
ghost use Rattle.json.specs.Run.{is_plain};
ghost use Rattle.af_names.specs.Isoformat.{isoformat};

use crate::instant_digits::{place_clock, place_day};
use crate::placing::place;
use af_names::Instant;
use std::marker::Model;

/// The microseconds of a day.
const DAY_MICROS: u64 = 86_400_000_000;

/// An instant beside its text, which is made once for all members that tell it. Contracts see the instant.
#[derive(Drop)]
pub(crate) struct InstantText {
    instant: Instant,
    bytes: [u8; 32],
    len: usize,
}

impl Model for InstantText {
    ghost use Rattle.std.specs.Prelude.{ℕ, ◌≡◌, ◌≤◌, take};
    ghost use Rattle.af_names.specs.Isoformat.{isoformat};

    ghost Value = { ℕ };

    ghost view = { λ it. it.instant };

    ghost invariant = { λ it. (it.len ≤ 32) × (take it.len it.bytes ≡ isoformat it.instant) };
}

impl InstantText {
    /// An instant, with its text.
    pub(crate) fn of(instant: Instant) -> InstantText
        ensures { result ≡ instant }
    {
        let micros = instant.micros();
        let mut bytes = [0; 32];
        let at = place_day(&mut bytes, 0, (micros / DAY_MICROS) as u32);
        let at = place(&mut bytes, at, b"T");
        let at = place_clock(&mut bytes, at, micros % DAY_MICROS);
        let len = place(&mut bytes, at, b"+00:00");
        InstantText {
            instant,
            bytes,
            len,
        }
    }

    /// The instant.
    pub(crate) fn instant(&self) -> Instant
        ensures { result ≡ self.now }
    {
        self.instant
    }

    /// Its text. The year has four digits, so no byte wants an escape.
    pub(crate) fn as_bytes(&self) -> &[u8]
        ensures text { result.now ≡ isoformat self.now }
        ensures plain { list_all is_plain result.now ≡ true }
    {
        let _last = self.instant.micros();
        &self.bytes[..self.len]
    }
}
