// The time of the machine's clock, as an instant.
ghost use Rattle.std.specs.Prelude.{◌≡◌, ◌/◌, min};
ghost use Rattle.std.specs.Duration.{as_nanos};
ghost use Rattle.af_names.specs.Instants.{last_micros};
ghost use Rattle.af_server.specs.Machines.{IsTold, instant_by};

use af_names::Instant;
use std::io;
use std::time::{Clock, Duration};

/// The microsecond before 9999-01-01T00:00:00Z, since 1970.
const LAST_MICROS: u64 = 253_370_764_799_999_999;

/// The time now: of one outside the range of instants its nearest end, and the first instant where the clock can't be read.
pub fn time_now<R: Clock>(rt: &R) -> Instant
    ensures { IsTold result }
{
    instant_by(rt.since_1970())
}

/// The instant of what the clock has answered.
fn instant_by(answer: io::Result<Duration>) -> Instant
    ensures { result ≡ instant_by answer }
{
    let micros = match answer {
        Ok(time) => micros_of(time),
        Err(_) => 0,
    };
    match Instant::of_micros(micros) {
        Some(instant) => instant,
        None => unreachable!(),
    }
}

/// The microseconds of a time, up to those of the last instant.
fn micros_of(time: Duration) -> u64
    ensures { result ≡ min (as_nanos time / 1000) last_micros }
{
    match u64::try_from(time.as_micros()) {
        Ok(micros) => micros.min(LAST_MICROS),
        Err(_) => LAST_MICROS,
    }
}
