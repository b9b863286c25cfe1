//! The points of the schedules, in microseconds since 1970-01-01T00:00:00Z.
ghost use Rattle.std.specs.Prelude.{◌<◌, ◌≤◌, ◌^◌, ℕ, IfNone, IfSome, IsTrue};
ghost use Rattle.af_names.specs.Instants.{last_micros};
ghost use Rattle.af_names.specs.Points.{IsGreatestTo, IsLeastFrom, is_first_of_month, is_midnight_of, is_multiple, is_sunday};

use crate::days;

pub(crate) const HOUR: u64 = 3_600_000_000;

pub(crate) const DAY: u64 = 86_400_000_000;

/// The first multiple of a step at or after a number.
pub(crate) fn next_multiple(step: u64, from: u64) -> u64
    requires from { from ≤ last_micros }
    requires low { 0 < step }
    requires high { step < 2 ^ 60 }
    ensures { IsLeastFrom (is_multiple step) from result }
{
    from.div_ceil(step) * step
}

/// The last multiple of a step at or before a number.
pub(crate) fn last_multiple(step: u64, to: u64) -> u64
    requires { 0 < step }
    ensures { IsGreatestTo (is_multiple step) to result }
{
    to / step * step
}

/// The first midnight of a Sunday at or after a moment.
pub(crate) fn next_week(from: u64) -> u64
    requires { from ≤ last_micros }
    ensures { IsLeastFrom (is_midnight_of is_sunday) from result }
{
    days::next_sunday(from.div_ceil(DAY)) * DAY
}

/// The last midnight of a Sunday at or before a moment, or none before the first.
pub(crate) fn last_week(to: u64) -> Option<u64>
    requires { to ≤ last_micros }
    ensures some { IfSome result (λ point. IsGreatestTo (is_midnight_of is_sunday) to point) }
    ensures none { IfNone result ((other : ℕ) → IsTrue (is_midnight_of is_sunday other) → to < other) }
{
    let sunday = days::last_sunday(to / DAY)?;
    Some(sunday * DAY)
}

/// The first midnight of a month's first day at or after a moment.
pub(crate) fn next_month(from: u64) -> u64
    requires { from ≤ last_micros }
    ensures { IsLeastFrom (is_midnight_of is_first_of_month) from result }
{
    days::next_first_of_month(from.div_ceil(DAY)) * DAY
}

/// The last midnight of a month's first day at or before a moment.
pub(crate) fn last_month(to: u64) -> u64
    requires { to ≤ last_micros }
    ensures { IsGreatestTo (is_midnight_of is_first_of_month) to result }
{
    days::last_first_of_month(to / DAY) * DAY
}
