//! Changes that a server for one thread makes: of the state, and of the policy.
use crate::tests::plane::asserts::holds;
use crate::tests::plane::calls::Asked;
use crate::tests::plane::memory::answering::{answer, answered};
use crate::tests::plane::memory::outcome::{Outcome, is_replay, once_refused, outcome_of};
use crate::tests::plane::opening::{Dags, opened};
use crate::tests::plane::told::Row;
use crate::tests::plane::users::OF_SAMPLE;
use af_ops::{Endpoint, Status};
use af_plane::Solo;
use std::alloc::Global;
use std::process::Abort;
use std::sync::Wait;
use std::test::*;

/// A change of a server over these DAGs: what is told before it, what is told after it where it is made, and what is told where there was
/// no memory for it.
#[derive(Clone, Copy)]
pub struct Change {
    pub dags: Dags,
    pub before: &'static [Row],
    pub row: Row,
    pub made: &'static [Row],
    pub not_made: &'static [Row],
}

const TRIGGER: Asked = ("abc", Endpoint::TriggerRun, &["b"], "{}");

const RUN: &str =
    r#"{"dag_id":"b","dag_run_id":"manual__2024-01-01T00:00:00.000001+00:00","data_interval_end":"2024-01-01T00:00:00.000001+00:00","data_interval_start":"2024-01-01T00:00:00.000001+00:00","end_date":null,"logical_date":"2024-01-01T00:00:00.000001+00:00","run_type":"manual","start_date":null,"state":"queued"}"#;

const RUNS: &str =
    r#"{"dag_runs":[{"dag_id":"b","dag_run_id":"manual__2024-01-01T00:00:00.000001+00:00","data_interval_end":"2024-01-01T00:00:00.000001+00:00","data_interval_start":"2024-01-01T00:00:00.000001+00:00","end_date":null,"logical_date":"2024-01-01T00:00:00.000001+00:00","run_type":"manual","start_date":null,"state":"queued"}],"total_entries":1}"#;

const LOGS: &str =
    r#"{"event_logs":[{"dag_id":"b","event":"trigger_dag_run","event_log_id":1,"owner":"uma","policy_version":0,"run_id":"manual__2024-01-01T00:00:00.000001+00:00","task_id":null,"when":"2024-01-01T00:00:00.000001+00:00"}],"total_entries":1}"#;

const RUN_EXISTS: &str =
    r#"{"detail":"run exists: manual__2024-01-01T00:00:00.000001+00:00","status":409,"title":"Conflict","type":"about:blank"}"#;

pub const LIST_RUNS: Asked = ("admin", Endpoint::ListRuns, &["~"], "");

pub const LIST_LOGS: Asked = ("admin", Endpoint::ListEntries, &[], "");

/// uma triggers a run of b, which has the id of its moment.
const TRIGGERED: Change = Change {
    dags: Dags::Three,
    before: &[],
    row: (TRIGGER, Status::Ok, (Some(0), Some(1)), RUN),
    made: &[
        (LIST_RUNS, Status::Ok, (Some(0), Some(1)), RUNS),
        (LIST_LOGS, Status::Ok, (Some(0), Some(1)), LOGS),
        (TRIGGER, Status::Conflict, (Some(0), Some(1)), RUN_EXISTS),
    ],
    not_made: &[
        (
            LIST_RUNS,
            Status::Ok,
            (Some(0), Some(0)),
            r#"{"dag_runs":[],"total_entries":0}"#,
        ),
        (
            LIST_LOGS,
            Status::Ok,
            (Some(0), Some(0)),
            r#"{"event_logs":[],"total_entries":0}"#,
        ),
        (TRIGGER, Status::Ok, (Some(0), Some(1)), RUN),
    ],
};

const ADD_ROLE: Asked = (
    "admin",
    Endpoint::AddRole,
    &[],
    r#"{"name":"X","actions":[]}"#,
);

const ROLE: &str = r#"{"actions":[],"name":"X"}"#;

const WHO_IS_BOB: Asked = ("foo", Endpoint::GetMe, &[], "");

const GET_ROLE: Asked = ("admin", Endpoint::GetRole, &["X"], "");

/// adam makes a role.
const ROLE_ADDED: Change = Change {
    dags: Dags::Three,
    before: &[],
    row: (ADD_ROLE, Status::Ok, (Some(1), None), ROLE),
    made: &[
        (
            WHO_IS_BOB,
            Status::Ok,
            (Some(1), None),
            r#"{"permissions":["DAG:b.can_read"],"policy_version":1,"roles":["OnlyB"],"username":"bob"}"#,
        ),
        (GET_ROLE, Status::Ok, (Some(1), None), ROLE),
        (
            ADD_ROLE,
            Status::Conflict,
            (Some(1), None),
            r#"{"detail":"exists: X","status":409,"title":"Conflict","type":"about:blank"}"#,
        ),
    ],
    not_made: &[
        (
            WHO_IS_BOB,
            Status::Ok,
            (Some(0), None),
            r#"{"permissions":["DAG:b.can_read"],"policy_version":0,"roles":["OnlyB"],"username":"bob"}"#,
        ),
        (
            GET_ROLE,
            Status::NotFound,
            (Some(0), None),
            r#"{"detail":"no such role: X","status":404,"title":"Not Found","type":"about:blank"}"#,
        ),
        (ADD_ROLE, Status::Ok, (Some(1), None), ROLE),
    ],
};

/// A server over the sample configuration with these DAGs.
fn solo(alloc: Global, dags: Dags) -> Result<Solo, Fail> {
    let (policy, state) = opened(alloc, OF_SAMPLE, dags)?;
    Ok(Solo::open(alloc, policy, 9, state, 9)?)
}

/// What comes of a change.
fn tried(rt: &impl Wait, alloc: Global, solo: &mut Solo, row: Row) -> Result<Outcome, Fail> {
    let gave = answer(rt, alloc, solo, row.0)?;
    let outcome = outcome_of(&gave, row);
    drop(gave);
    Ok(outcome)
}

/// Whether the entries make the state, these rows go as they say, and the entries then make the state too.
fn stands(
    rt: &impl Wait,
    alloc: Global,
    solo: &mut Solo,
    dags: Dags,
    rows: &[Row],
) -> Result<bool, Fail> {
    let before = is_replay(alloc, solo.plane(), dags)?;
    let told = answered(rt, alloc, solo, rows)?;
    let after = is_replay(alloc, solo.plane(), dags)?;
    Ok(before && told == rows.len() && after)
}

/// Whether a change is made whole, or not at all.
fn goes(
    rt: &(impl Abort + Wait),
    alloc: Global,
    solo: &mut Solo,
    change: Change,
) -> Result<bool, Fail> {
    match tried(rt, alloc, solo, change.row)? {
        Outcome::Told => stands(rt, alloc, solo, change.dags, change.made),
        Outcome::NothingDone => {
            let stands = stands(rt, alloc, solo, change.dags, change.not_made);
            once_refused(rt, true, stands)
        }
        Outcome::Other => Ok(false),
    }
}

/// Whether what comes before a change goes as it says, and then the change.
fn goes_after(
    rt: &(impl Abort + Wait),
    alloc: Global,
    solo: &mut Solo,
    change: Change,
) -> Result<bool, Fail> {
    let told = answered(rt, alloc, solo, change.before)?;
    Ok(told == change.before.len() && goes(rt, alloc, solo, change)?)
}

/// Ends the test where a change is made in part.
pub fn is_whole(rt: &(impl Abort + Wait), alloc: Global, change: Change) -> Result<(), Fail> {
    let mut solo = solo(alloc, change.dags)?;
    let goes = goes_after(rt, alloc, &mut solo, change);
    drop(solo);
    holds(rt, goes?, "what stands after a change");
    Ok(())
}

#[test]
fn a_run_is_triggered_or_nothing_is_done(rt: HostRuntime) -> Result<(), Fail> {
    is_whole(&rt, rt.alloc(), TRIGGERED)
}

#[test]
fn a_role_is_a_version_or_nothing_is_done(rt: HostRuntime) -> Result<(), Fail> {
    is_whole(&rt, rt.alloc(), ROLE_ADDED)
}
