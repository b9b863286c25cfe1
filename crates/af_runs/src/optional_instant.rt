ghost use Rattle.std.specs.Prelude.{◌≡◌, None};

use af_names::Instant;
use std::marker::Model;

/// An instant, or none, in eight bytes, where an `Option` takes sixteen. Contracts see it as that option.
#[derive(Clone, Copy, PartialEq, Eq)]
pub struct OptionalInstant {
    /// The microseconds since 1970-01-01T00:00:00Z; the largest number, which no instant has, where there is none.
    micros: u64,
}

impl Model for OptionalInstant {
    ghost use Rattle.std.specs.Prelude.{ℕ, Option};
    ghost use Rattle.af_runs.specs.OptionalInstants.{StandsForOne, instant_at, micros_of};

    ghost Value = { Option ℕ };

    ghost view = { λ instant. instant_at instant.micros };

    ghost invariant = { λ instant. StandsForOne instant.micros };

    ghost inverse = { λ instant. record { micros = micros_of instant } };

    ghost inverse_ok = { λ instant stands i. record { micros = stands i } };
}

impl OptionalInstant {
    /// No instant.
    pub fn none() -> OptionalInstant
        ensures { result ≡ None }
    {
        OptionalInstant { micros: u64::MAX }
    }

    /// The instant, if there is one.
    pub fn get(self) -> Option<Instant>
        ensures { result ≡ self }
    {
        Instant::of_micros(self.micros)
    }
}

impl From<Option<Instant>> for OptionalInstant {
    ghost from_gives = { λ instant made. made ≡ instant };

    /// This instant, or none.
    fn from(instant: Option<Instant>) -> OptionalInstant {
        match instant {
            Some(instant) => OptionalInstant {
                micros: instant.micros(),
            },
            None => OptionalInstant::none(),
        }
    }
}
