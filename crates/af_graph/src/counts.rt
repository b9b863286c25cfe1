ghost use Rattle.std.specs.Prelude.{◌≡◌, ◌+◌, ◌≤◌};
ghost use Rattle.af_graph.specs.TriggerRules.{counts_of, decided};

use crate::rule::Rule;
use crate::task_state::TaskState;
use crate::verdict::Verdict;

/// How many tasks stand directly upstream of a task, and how many of them have each of the four
/// finished states.
#[derive(Clone, Copy, Debug, PartialEq, Eq)]
pub struct Counts {
    pub all: usize,
    pub success: usize,
    pub failed: usize,
    pub upstream_failed: usize,
    pub skipped: usize,
}

impl Counts {
    /// Counts these states.
    pub fn of(upstream: &[TaskState]) -> Counts
        ensures counts { result ≡ counts_of upstream.now }
        ensures within { result.success + result.failed + result.upstream_failed + result.skipped ≤ result.all }
    {
        let mut counts = Counts {
            all: upstream.len(),
            success: 0,
            failed: 0,
            upstream_failed: 0,
            skipped: 0,
        };
        for state in upstream {
            match *state {
                TaskState::Success => counts.success += 1,
                TaskState::Failed => counts.failed += 1,
                TaskState::UpstreamFailed => counts.upstream_failed += 1,
                TaskState::Skipped => counts.skipped += 1,
                _ => {}
            }
        }
        counts
    }

    /// What the rule decides on these counts, by the first of its lines that fits.
    pub fn decide(self, rule: Rule) -> Verdict
        requires { self.success + self.failed + self.upstream_failed + self.skipped ≤ self.all }
        ensures { result ≡ decided rule self }
    {
        let some_failed = self.failed + self.upstream_failed > 0;
        let all_done = self.success + self.failed + self.upstream_failed + self.skipped == self.all;
        match rule {
            Rule::AllSuccess if some_failed => Verdict::UpstreamFailed,
            Rule::AllSuccess if self.skipped > 0 => Verdict::Skipped,
            Rule::AllSuccess if self.success == self.all => Verdict::Ready,
            Rule::AllFailed if self.success + self.skipped > 0 => Verdict::Skipped,
            Rule::AllFailed if self.failed + self.upstream_failed == self.all => Verdict::Ready,
            Rule::AllDone if all_done => Verdict::Ready,
            Rule::OneSuccess if self.success > 0 => Verdict::Ready,
            Rule::OneSuccess if self.skipped == self.all => Verdict::Skipped,
            Rule::OneSuccess if all_done => Verdict::UpstreamFailed,
            Rule::OneFailed if some_failed => Verdict::Ready,
            Rule::OneFailed if all_done => Verdict::Skipped,
            Rule::OneDone if self.success + self.failed > 0 => Verdict::Ready,
            Rule::OneDone if all_done => Verdict::Skipped,
            Rule::NoneFailed if some_failed => Verdict::UpstreamFailed,
            Rule::NoneFailed if all_done => Verdict::Ready,
            Rule::NoneFailedMinOneSuccess if some_failed => Verdict::UpstreamFailed,
            Rule::NoneFailedMinOneSuccess if self.skipped == self.all => Verdict::Skipped,
            Rule::NoneFailedMinOneSuccess if all_done => Verdict::Ready,
            Rule::NoneSkipped if self.skipped > 0 => Verdict::Skipped,
            Rule::NoneSkipped if all_done => Verdict::Ready,
            Rule::AllSkipped if self.success + self.failed + self.upstream_failed > 0 =>
                Verdict::Skipped,
            Rule::AllSkipped if self.skipped == self.all => Verdict::Ready,
            Rule::Always => Verdict::Ready,
            _ => Verdict::Wait,
        }
    }
}
