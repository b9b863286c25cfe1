ghost use Rattle.std.specs.Prelude.{◌≡◌};
ghost use Rattle.af_graph.specs.TriggerRules.{verdict_of};

use crate::counts::Counts;
use crate::rule::Rule;
use crate::task_state::TaskState;

/// What a trigger rule decides for an instance without a state.
#[derive(Clone, Copy, Debug, PartialEq, Eq)]
pub enum Verdict {
    /// The instance is scheduled.
    Ready,
    /// The instance ends as upstream_failed.
    UpstreamFailed,
    /// The instance ends as skipped.
    Skipped,
    /// Nothing is decided yet.
    Wait,
}

/// What the rule decides on the states of the tasks directly upstream, each given once. With no
/// task upstream every rule is ready.
pub fn ready(rule: Rule, upstream: &[TaskState]) -> Verdict
    ensures { result ≡ verdict_of rule upstream.now }
{
    if upstream.is_empty() {
        return Verdict::Ready;
    }
    Counts::of(upstream).decide(rule)
}
