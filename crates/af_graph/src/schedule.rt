ghost use Rattle.std.specs.Prelude.{◌≡◌, ◌+◌, ◌<◌, ◌≤◌, ℕ, IfNone, IfSome, IsTrue};
ghost use Rattle.af_names.specs.Instants.{last_micros};
ghost use Rattle.af_names.specs.Points.{IsGreatestTo, IsLeastFrom, last_of, next_of};
ghost use Rattle.af_graph.specs.Schedules.{is_point_from, is_scheduled};

use crate::multiples;
use af_names::{Instant, Preset};

/// When runs of a DAG fall due (Airflow 2, "DAG Runs").
#[derive(Clone, Copy, Debug, PartialEq, Eq)]
pub struct Schedule {
    /// At which moments.
    pub points: Points,
    /// No run falls due before this moment.
    pub start_date: Instant,
}

/// The moments of a schedule.
#[derive(Clone, Copy, Debug, PartialEq, Eq)]
pub enum Points {
    /// Those of a preset, in UTC.
    Preset(Preset),
    /// The start date and each so many seconds after it; of 0 seconds the start date alone.
    Seconds(u32),
}

impl Schedule {
    /// The first moment at or after an instant, or none where each such moment is past the end of 9998.
    pub fn next_at_or_after(self, from: Instant) -> Option<Instant>
        ensures exact { result ≡ next_of (is_scheduled self) from }
        ensures some { IfSome result (λ point. IsLeastFrom (is_scheduled self) from point) }
        ensures none { IfNone result ((point : ℕ) → IsTrue (is_scheduled self point) → from ≤ point → last_micros < point) }
    {
        self.next_moment(from)
    }

    /// The first moment after an instant, or none where each such moment is past the end of 9998.
    pub fn next_after(self, moment: Instant) -> Option<Instant>
        ensures exact { result ≡ next_of (is_scheduled self) (moment + 1) }
        ensures some { IfSome result (λ point. IsLeastFrom (is_scheduled self) (moment + 1) point) }
        ensures none { IfNone result ((point : ℕ) → IsTrue (is_scheduled self point) → moment < point → last_micros < point) }
    {
        let later = Instant::of_micros(moment.micros() + 1)?;
        self.next_at_or_after(later)
    }

    /// The last moment at or before an instant, or none where each moment is after it.
    pub fn last_at_or_before(self, to: Instant) -> Option<Instant>
        ensures exact { result ≡ last_of (is_scheduled self) to }
        ensures some { IfSome result (λ point. IsGreatestTo (is_scheduled self) to point) }
        ensures none { IfNone result ((point : ℕ) → IsTrue (is_scheduled self point) → to < point) }
    {
        self.last_moment(to)
    }

    fn next_moment(self, from: Instant) -> Option<Instant>
        ensures some { IfSome result (λ point. IsLeastFrom (is_scheduled self) from point) }
        ensures none { IfNone result ((point : ℕ) → IsTrue (is_scheduled self point) → from ≤ point → last_micros < point) }
        ensures range { (from ≤ last_micros) × IfSome result (λ point. point ≤ last_micros) }
    {
        if from < self.start_date {
            self.next_since_start(self.start_date)
        } else {
            self.next_since_start(from)
        }
    }

    fn last_moment(self, to: Instant) -> Option<Instant>
        ensures some { IfSome result (λ point. IsGreatestTo (is_scheduled self) to point) }
        ensures none { IfNone result ((point : ℕ) → IsTrue (is_scheduled self point) → to < point) }
        ensures range { to ≤ last_micros }
    {
        if to < self.start_date {
            return None;
        }
        let point = self.last_since_start(to)?;
        if point < self.start_date {
            return None;
        }
        Some(point)
    }

    /// The first moment at or after an instant that is not before the start date.
    fn next_since_start(self, from: Instant) -> Option<Instant>
        requires { self.start_date ≤ from }
        ensures some { IfSome result (λ point. IsLeastFrom (is_point_from self.start_date self.points) from point) }
        ensures none { IfNone result
            ((point : ℕ) → IsTrue (is_point_from self.start_date self.points point) → from ≤ point → last_micros < point) }
    {
        match self.points {
            Points::Preset(preset) => preset.next_at_or_after(from),
            Points::Seconds(seconds) => multiples::next_in_steps(self.start_date, seconds, from),
        }
    }

    /// The last of the schedule's points at or before an instant that is not before the start date.
    fn last_since_start(self, to: Instant) -> Option<Instant>
        requires { self.start_date ≤ to }
        ensures some { IfSome result (λ point. IsGreatestTo (is_point_from self.start_date self.points) to point) }
        ensures none { IfNone result
            ((point : ℕ) → IsTrue (is_point_from self.start_date self.points point) → to < point) }
    {
        match self.points {
            Points::Preset(preset) => preset.last_at_or_before(to),
            Points::Seconds(seconds) => multiples::last_in_steps(self.start_date, seconds, to),
        }
    }
}
