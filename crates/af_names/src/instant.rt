ghost use Rattle.std.specs.Prelude.{◌≡◌, ◌<◌, ◌≤◌, ◌+◌, ◌*◌, ◌%◌, ◌==◌, if◌then◌else◌, pos, ◌↔◌, IfOk, OnOk, OnErr, ◌++◌, IfSome, IsSome, string_bytes};
ghost use Rattle.jiff_core.specs.DateTime.{civil_nanos};
ghost use Rattle.af_names.specs.Instants.{instant_of, last_micros};
ghost use Rattle.af_names.specs.Isoformat.{isoformat};

use crate::instant_error::InstantError;
use arrayvec::ArrayString;
use jiff::Timestamp;
use jiff::fmt::temporal::DateTimePrinter;
use jiff_core::civil::DateTime;
use std::alloc::{AllocError, Global};
use std::fmt;
use std::marker::Model;

/// The last microsecond of the year 9998.
const LAST_MICROS: u64 = 253_370_764_799_999_999;

/// The nanosecond at which the year 9999 begins.
const END_NANOS: i128 = 253_370_764_800_000_000_000;

/// A moment from 1970-01-01 to the end of 9998, in microseconds since 1970-01-01T00:00:00Z. Contracts see it as
/// that number, by which instants compare.
#[derive(Clone, Copy, Debug, PartialEq, Eq, PartialOrd, Ord)]
pub struct Instant {
    epoch_micros: u64,
}

impl Model for Instant {
    ghost use Rattle.std.specs.Prelude.{ℕ, ◌≤◌};
    ghost use Rattle.af_names.specs.Instants.{last_micros};

    ghost Value = { ℕ };

    ghost view = { λ instant. instant.epoch_micros };

    ghost invariant = { λ instant. instant.epoch_micros ≤ last_micros };

    ghost inverse = { λ micros. record { epoch_micros = micros } };
}

impl Instant {
    /// Reads an instant, and cuts off what is finer than a microsecond. `BadInstant` where jiff reads no moment;
    /// `OutOfRange` where that moment is before 1970 or after the end of 9998.
    pub fn read(text: &str) -> Result<Instant, InstantError>
        ensures { result ≡ instant_of text.now }
    {
        let Ok(moment) = text.parse::<Timestamp>() else {
            return Err(InstantError::BadInstant);
        };
        let nanos = moment.as_nanosecond();
        if nanos < 0 || nanos >= END_NANOS {
            return Err(InstantError::OutOfRange);
        }
        Ok(Instant {
            epoch_micros: (nanos / 1000) as u64,
        })
    }

    /// The microseconds since 1970-01-01T00:00:00Z.
    pub fn micros(&self) -> u64
        ensures value { result ≡ self.now }
        ensures bound { result ≤ last_micros }
    {
        self.epoch_micros
    }

    /// The instant of that many microseconds since 1970-01-01T00:00:00Z, or none past the end of 9998.
    pub fn of_micros(micros: u64) -> Option<Instant>
        ensures some { IsSome result ↔ (micros ≤ last_micros) }
        ensures value { IfSome result (λ instant. instant ≡ micros) }
    {
        if micros > LAST_MICROS {
            return None;
        }
        Some(Instant {
            epoch_micros: micros,
        })
    }

    /// The instant that many seconds later, or none past the end of 9998.
    pub fn plus_seconds(&self, seconds: u32) -> Option<Instant>
        ensures some { IsSome result ↔ (self.now + seconds * 1_000_000 ≤ last_micros) }
        ensures value { IfSome result (λ instant. instant ≡ self.now + seconds * 1_000_000) }
    {
        Instant::of_micros(self.micros() + u64::from(seconds) * 1_000_000)
    }

    /// The text of the instant at `+00:00`, as Python's `datetime.isoformat` writes it: six places of a fraction
    /// where the microseconds are not 0, else none. `AllocError` only where a growth was refused.
    pub fn write(&self, alloc: Global) -> Result<String, AllocError>
        ensures { IfOk result (λ text. string_bytes text ≡ isoformat self.now) }
    {
        String::from_str(alloc, self.isoformat().as_str())
    }

    /// Appends the text that `write` gives. Where a growth is refused, the text stays as it was.
    pub fn write_onto(&self, text: &mut String) -> Result<(), AllocError>
        ensures ok { OnOk result (string_bytes text.new ≡ string_bytes text.old ++ isoformat self.now) }
        ensures err { OnErr result (string_bytes text.new ≡ string_bytes text.old) }
    {
        text.push_str(self.isoformat().as_str())
    }

    /// The text that `write` gives, on the stack: 32 bytes at most, none of which JSON escapes.
    pub fn isoformat(&self) -> ArrayString<38>
        ensures { result.bytes ≡ isoformat self.now }
    {
        let printer = DateTimePrinter::new().precision(Some(self.places()));
        let mut text = ArrayString::new();
        text.push_str(printer.datetime_text(self.civil()).as_str());
        text.push_str("+00:00");
        text
    }

    /// What a clock at UTC shows.
    fn civil(&self) -> DateTime
        ensures number { civil_nanos result ≡ pos (self.now * 1000) }
        ensures bound { self.now ≤ last_micros }
    {
        DateTime::from_nanosecond_in_range(i128::from(self.micros()) * 1000)
    }

    /// How many places of a fraction are written.
    fn places(&self) -> u8
        ensures { result ≡ (if self.now % 1_000_000 == 0 then 0 else 6) }
    {
        if self.micros() % 1_000_000 == 0 { 0 } else { 6 }
    }
}

impl fmt::Display for Instant {
    ghost use Rattle.std.specs.Prelude.{Some};
    ghost use Rattle.af_names.specs.Isoformat.{isoformat};

    ghost output = { λ micros. Some (isoformat micros) };

    fn fmt<W: fmt::Write>(&self, f: &mut fmt::Formatter<W>) -> fmt::Result {
        f.write_str(self.isoformat().as_str())
    }
}
