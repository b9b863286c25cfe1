ghost use Rattle.std.specs.Prelude.{◌≡◌, ℕ, ◌<◌, ◌≤◌, IfNone, IfSome, IsTrue, Some};
ghost use Rattle.af_names.specs.Instants.{last_micros};
ghost use Rattle.af_names.specs.Points.{IsGreatestTo, IsLeastFrom, is_point, last_of, next_of};
ghost use Rattle.af_names.specs.Presets.{preset_of, preset_text};

use crate::instant::Instant;
use crate::points::{self, DAY, HOUR};

/// A schedule with a name (Airflow 2, "DAG Runs", cron presets). Its points are instants in UTC.
#[derive(Clone, Copy, Debug, PartialEq, Eq)]
pub enum Preset {
    /// `@hourly`: the beginning of each hour.
    Hourly,
    /// `@daily`: each midnight.
    Daily,
    /// `@weekly`: the midnight at which a Sunday begins.
    Weekly,
    /// `@monthly`: the midnight at which a month begins.
    Monthly,
}

impl Preset {
    /// The preset of that text, or none where no preset has it.
    pub fn read(text: &str) -> Option<Preset>
        ensures { result ≡ preset_of text.now }
    {
        match text {
            "@hourly" => Some(Preset::Hourly),
            "@daily" => Some(Preset::Daily),
            "@weekly" => Some(Preset::Weekly),
            "@monthly" => Some(Preset::Monthly),
            _ => None,
        }
    }

    /// The text of the preset, which `read` reads back.
    pub fn as_str(self) -> &'static str
        ensures text { result.now ≡ preset_text self }
        ensures read_back { preset_of result.now ≡ Some self }
    {
        match self {
            Preset::Hourly => "@hourly",
            Preset::Daily => "@daily",
            Preset::Weekly => "@weekly",
            Preset::Monthly => "@monthly",
        }
    }

    /// The least point at or after an instant, or none where each such point is past the end of 9998.
    pub fn next_at_or_after(self, from: Instant) -> Option<Instant>
        ensures exact { result ≡ next_of (is_point self) from }
        ensures some { IfSome result (λ point. IsLeastFrom (is_point self) from point) }
        ensures none { IfNone result ((point : ℕ) → IsTrue (is_point self point) → from ≤ point → last_micros < point) }
    {
        Instant::of_micros(self.next_point(from.micros()))
    }

    fn next_point(self, from: u64) -> u64
        requires { from ≤ last_micros }
        ensures { IsLeastFrom (is_point self) from result }
    {
        match self {
            Preset::Hourly => points::next_multiple(HOUR, from),
            Preset::Daily => points::next_multiple(DAY, from),
            Preset::Weekly => points::next_week(from),
            Preset::Monthly => points::next_month(from),
        }
    }

    /// The greatest point at or before an instant, or none where each point is after it.
    pub fn last_at_or_before(self, to: Instant) -> Option<Instant>
        ensures exact { result ≡ last_of (is_point self) to }
        ensures some { IfSome result (λ point. IsGreatestTo (is_point self) to point) }
        ensures none { IfNone result ((point : ℕ) → IsTrue (is_point self point) → to < point) }
    {
        let point = self.last_point(to.micros())?;
        Instant::of_micros(point)
    }

    fn last_point(self, to: u64) -> Option<u64>
        requires { to ≤ last_micros }
        ensures some { IfSome result (λ point. IsGreatestTo (is_point self) to point) }
        ensures none { IfNone result ((point : ℕ) → IsTrue (is_point self point) → to < point) }
    {
        match self {
            Preset::Hourly => Some(points::last_multiple(HOUR, to)),
            Preset::Daily => Some(points::last_multiple(DAY, to)),
            Preset::Weekly => points::last_week(to),
            Preset::Monthly => Some(points::last_month(to)),
        }
    }
}
