//! Days by their number, where 1970-01-01 is day 0.
ghost use Rattle.std.specs.Prelude.{◌≡◌, ◌+◌, ◌<◌, ◌≤◌, ℕ, pos, IfNone, IfSome, IsTrue};
ghost use Rattle.af_names.specs.CivilDays.{civil_day};
ghost use Rattle.af_names.specs.Points.{IsGreatestTo, IsLeastFrom, is_first_of_month, is_sunday};

use jiff_core::civil::{Date, days_in_month};

/// The number of 1970-01-01 in the days that `jiff_core` counts.
const EPOCH: u32 = 4_371_587;

/// The first Sunday at or after a day.
pub(crate) fn next_sunday(day: u64) -> u64
    requires { day ≤ 2_932_896 }
    ensures least { IsLeastFrom is_sunday day result }
    ensures bound { result < day + 7 }
{
    day + (10 - day % 7) % 7
}

/// The last Sunday at or before a day, or none before the first.
pub(crate) fn last_sunday(day: u64) -> Option<u64>
    ensures some { IfSome result (λ sunday. IsGreatestTo is_sunday day sunday) }
    ensures none { IfNone result ((other : ℕ) → IsTrue (is_sunday other) → day < other) }
{
    if day < 3 {
        return None;
    }
    Some(day - (day - 3) % 7)
}

/// The first day at or after a day with which a month begins.
pub(crate) fn next_first_of_month(day: u64) -> u64
    requires { day ≤ 2_932_896 }
    ensures least { IsLeastFrom is_first_of_month day result }
    ensures bound { result ≤ day + 31 }
{
    let date = date_of(day);
    if date.day == 1 {
        return day;
    }
    day + u64::from(days_in_month(date.year, date.month) - date.day) + 1
}

/// The last day at or before a day with which a month begins.
pub(crate) fn last_first_of_month(day: u64) -> u64
    requires { day ≤ 2_932_896 }
    ensures { IsGreatestTo is_first_of_month day result }
{
    day - u64::from(date_of(day).day - 1)
}

/// The date of a day.
fn date_of(day: u64) -> Date
    requires { day ≤ 2_932_896 }
    ensures year { result.year ≡ pos (civil_day day).year }
    ensures month { result.month ≡ (civil_day day).month }
    ensures day { result.day ≡ (civil_day day).day }
{
    Date::from_days_since_min(day as u32 + EPOCH)
}
