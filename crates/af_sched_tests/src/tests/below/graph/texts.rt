use crate::tests::asserts::holds;
use af_graph::{Rule, TaskState};

const STATES: &[(&str, TaskState)] = &[
    ("none", TaskState::NoStatus),
    ("scheduled", TaskState::Scheduled),
    ("queued", TaskState::Queued),
    ("running", TaskState::Running),
    ("success", TaskState::Success),
    ("failed", TaskState::Failed),
    ("skipped", TaskState::Skipped),
    ("upstream_failed", TaskState::UpstreamFailed),
    ("up_for_retry", TaskState::UpForRetry),
];

const RULES: &[(&str, Rule)] = &[
    ("all_success", Rule::AllSuccess),
    ("all_failed", Rule::AllFailed),
    ("all_done", Rule::AllDone),
    ("one_success", Rule::OneSuccess),
    ("one_failed", Rule::OneFailed),
    ("one_done", Rule::OneDone),
    ("none_failed", Rule::NoneFailed),
    ("none_failed_min_one_success", Rule::NoneFailedMinOneSuccess),
    ("none_skipped", Rule::NoneSkipped),
    ("all_skipped", Rule::AllSkipped),
    ("always", Rule::Always),
];

const NEITHER: &[&str] = &["", "Success", "success ", "no_status", "dummy"];

fn is_text_of_state(text: &str, state: TaskState) -> bool {
    TaskState::read(text) == Some(state) && state.as_str() == text
}

fn is_text_of_rule(text: &str, rule: Rule) -> bool {
    Rule::read(text) == Some(rule) && rule.as_str() == text
}

#[test]
fn names_of_states(rt: HostRuntime) {
    for (text, state) in STATES {
        holds(&rt, is_text_of_state(text, *state), text);
    }
}

#[test]
fn names_of_rules(rt: HostRuntime) {
    for (text, rule) in RULES {
        holds(&rt, is_text_of_rule(text, *rule), text);
    }
}

fn is_neither(text: &str) -> bool {
    TaskState::read(text).is_none() && Rule::read(text).is_none()
}

#[test]
fn names_of_neither(rt: HostRuntime) {
    for text in NEITHER {
        holds(&rt, is_neither(text), text);
    }
}
