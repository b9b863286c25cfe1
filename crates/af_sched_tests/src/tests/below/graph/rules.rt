use crate::tests::asserts::row_holds;
use af_graph::{Rule, TaskState, Verdict, ready};

const NONE: TaskState = TaskState::NoStatus;

const S: TaskState = TaskState::Success;

const F: TaskState = TaskState::Failed;

const U: TaskState = TaskState::UpstreamFailed;

const K: TaskState = TaskState::Skipped;

/// A rule, the states upstream, and what is told of them.
const RULES: &[(Rule, &[TaskState], Verdict)] = &[
    (Rule::AllSuccess, &[S, F], Verdict::UpstreamFailed),
    (Rule::AllSuccess, &[U, NONE], Verdict::UpstreamFailed),
    (Rule::AllSuccess, &[K, NONE], Verdict::Skipped),
    (Rule::AllSuccess, &[S, S], Verdict::Ready),
    (Rule::AllSuccess, &[S, NONE], Verdict::Wait),
    (Rule::AllFailed, &[F, S], Verdict::Skipped),
    (Rule::AllFailed, &[K, NONE], Verdict::Skipped),
    (Rule::AllFailed, &[F, U], Verdict::Ready),
    (Rule::AllFailed, &[F, NONE], Verdict::Wait),
    (Rule::AllDone, &[S, F, U, K], Verdict::Ready),
    (Rule::AllDone, &[S, TaskState::UpForRetry], Verdict::Wait),
    (Rule::OneSuccess, &[S, NONE], Verdict::Ready),
    (Rule::OneSuccess, &[K, K], Verdict::Skipped),
    (Rule::OneSuccess, &[F, K], Verdict::UpstreamFailed),
    (Rule::OneSuccess, &[F, NONE], Verdict::Wait),
    (Rule::OneFailed, &[F, NONE], Verdict::Ready),
    (Rule::OneFailed, &[U, NONE], Verdict::Ready),
    (Rule::OneFailed, &[S, K], Verdict::Skipped),
    (Rule::OneDone, &[F, NONE], Verdict::Ready),
    (Rule::OneDone, &[U, K], Verdict::Skipped),
    (Rule::OneDone, &[U, NONE], Verdict::Wait),
    (Rule::NoneFailed, &[F, NONE], Verdict::UpstreamFailed),
    (Rule::NoneFailed, &[S, K], Verdict::Ready),
    (
        Rule::NoneFailedMinOneSuccess,
        &[U, S],
        Verdict::UpstreamFailed,
    ),
    (Rule::NoneFailedMinOneSuccess, &[K, K], Verdict::Skipped),
    (Rule::NoneFailedMinOneSuccess, &[S, K], Verdict::Ready),
    (Rule::NoneSkipped, &[K, NONE], Verdict::Skipped),
    (Rule::NoneSkipped, &[S, F], Verdict::Ready),
    (Rule::NoneSkipped, &[S, TaskState::Running], Verdict::Wait),
    (Rule::AllSkipped, &[K, S], Verdict::Skipped),
    (Rule::AllSkipped, &[K, K], Verdict::Ready),
    (Rule::AllSkipped, &[K, TaskState::Queued], Verdict::Wait),
    (Rule::Always, &[NONE], Verdict::Ready),
];

/// Those rules of which nothing upstream is ready.
const OF_NONE: &[Rule] = &[
    Rule::AllFailed,
    Rule::OneSuccess,
    Rule::OneFailed,
    Rule::AllSkipped,
];

#[test]
fn each_line_of_each_rule(rt: HostRuntime) {
    for (row, (rule, states, verdict)) in RULES.iter().enumerate() {
        row_holds(&rt, ready(*rule, *states) == *verdict, row);
    }
    for (row, rule) in OF_NONE.iter().enumerate() {
        row_holds(&rt, ready(*rule, &[]) == Verdict::Ready, row);
    }
}
