//! Moments in equal steps from a start.
ghost use Rattle.std.specs.Prelude.{◌<◌, ◌≤◌, ◌+◌, ◌^◌, ℕ, IfNone, IfSome, IsTrue};
ghost use Rattle.af_names.specs.Instants.{last_micros};
ghost use Rattle.af_names.specs.Points.{IsGreatestTo, IsLeastFrom, is_multiple};
ghost use Rattle.af_graph.specs.Schedules.{is_in_steps};

use af_names::Instant;

const SECOND: u64 = 1_000_000;

/// The first moment at or after an instant, of those from a start in steps of so many seconds. None where it is past
/// the end of 9998.
pub(crate) fn next_in_steps(start: Instant, seconds: u32, from: Instant) -> Option<Instant>
    requires { start ≤ from }
    ensures some { IfSome result (λ point. IsLeastFrom (is_in_steps start seconds) from point) }
    ensures none { IfNone result ((point : ℕ) → IsTrue (is_in_steps start seconds point) → from ≤ point → last_micros < point) }
{
    let since = next_multiple(u64::from(seconds) * SECOND, from.micros() - start.micros())?;
    Instant::of_micros(start.micros() + since)
}

/// The last moment at or before an instant, of those from a start in steps of so many seconds.
pub(crate) fn last_in_steps(start: Instant, seconds: u32, to: Instant) -> Option<Instant>
    requires { start ≤ to }
    ensures some { IfSome result (λ point. IsGreatestTo (is_in_steps start seconds) to point) }
    ensures none { IfNone result ((point : ℕ) → IsTrue (is_in_steps start seconds point) → to < point) }
{
    let since = last_multiple(u64::from(seconds) * SECOND, to.micros() - start.micros());
    Instant::of_micros(start.micros() + since)
}

/// The first multiple of a step at or after a number; of the step 0 there is the multiple 0 alone.
fn next_multiple(step: u64, from: u64) -> Option<u64>
    requires low { from ≤ last_micros }
    requires high { step < 2 ^ 60 }
    ensures some { IfSome result (λ least. IsLeastFrom (is_multiple step) from least) }
    ensures bound { IfSome result (λ least. least ≤ from + step) }
    ensures none { IfNone result ((other : ℕ) → IsTrue (is_multiple step other) → other < from) }
{
    if step > 0 {
        Some(from.div_ceil(step) * step)
    } else if from == 0 {
        Some(0)
    } else {
        None
    }
}

/// The last multiple of a step at or before a number.
fn last_multiple(step: u64, to: u64) -> u64
    ensures { IsGreatestTo (is_multiple step) to result }
{
    if step > 0 { to / step * step } else { 0 }
}
