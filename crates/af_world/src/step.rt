use crate::token::Token;
use crate::try_report::TryReport;
use af_names::Instant;
use af_ops::{Call, PolicyOp};

/// What happens in the world. Sessions are counted from 0.
pub enum Step {
    /// A session looks at the latest version of the policy, and holds the plane.
    Look(u32),
    /// The session that holds the plane asks, with a token, for an operation on the state or for event logs, at a moment.
    Act(u32, Option<Token>, Call, Instant),
    /// A session asks, with a token, who brings it, or for roles or users.
    Me(u32, Option<Token>, PolicyOp),
    /// A session hands in a change of the policy, with a token, that was made under a version.
    Publish(u32, u32, Option<Token>, PolicyOp),
    /// The scheduler ticks at a moment.
    Tick(Instant),
    /// An executor claims an instance at a moment.
    Claim(Instant),
    /// An executor reports how a try ended, at a moment.
    Report(TryReport, Instant),
}

impl Drop for Step {
    fn drop(self) {
        match self {
            Step::Look(_) => {}
            Step::Act(_, _, _, _) => {}
            Step::Me(_, _, _) => {}
            Step::Publish(_, _, _, _) => {}
            Step::Tick(_) => {}
            Step::Claim(_) => {}
            Step::Report(_, _) => {}
        }
    }
}
