use crate::tests::asserts::holds;
use crate::tests::texts::are_told;
use af_runs::{RunFault, RunState, RunType};

const STATES: &[(&str, Option<RunState>)] = &[
    ("queued", Some(RunState::Queued)),
    ("running", Some(RunState::Running)),
    ("success", Some(RunState::Success)),
    ("failed", Some(RunState::Failed)),
    ("Queued", None),
];

const TYPES: &[(&str, Option<RunType>)] = &[
    ("manual", Some(RunType::Manual)),
    ("scheduled", Some(RunType::Scheduled)),
    ("backfill", Some(RunType::Backfill)),
    ("Backfill", None),
];

const FAULTS: &[(RunFault, &str)] = &[(
    RunFault::DateTaken,
    "the DAG has a run of that logical date",
)];

#[test]
fn states_types_and_faults_have_texts(rt: HostRuntime) {
    for (text, want) in STATES {
        holds(&rt, RunState::read(text) == *want, text);
    }
    for (text, want) in TYPES {
        holds(&rt, RunType::read(text) == *want, text);
    }
    are_told(&rt, rt.alloc(), FAULTS);
}
