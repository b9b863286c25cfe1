//! A backfill of a range of dates, one of which a run has: it makes the other runs, all of them, or none.
use crate::tests::plane::calls::Asked;
use crate::tests::plane::memory::solos::{Change, LIST_LOGS, LIST_RUNS, is_whole};
use crate::tests::plane::opening::Dags;
use af_ops::{Endpoint, Status};
use std::test::*;

/// The run of 2 January.
const TRIGGER: Asked = (
    "abc",
    Endpoint::TriggerRun,
    &["d"],
    r#"{"dag_run_id":"m","logical_date":"2024-01-02T00:00:00Z"}"#,
);

/// The range begins before the DAG does, and ends with 3 January.
const BACKFILL: Asked = (
    "abc",
    Endpoint::BackfillDag,
    &["d"],
    r#"{"start_date":"2023-12-30T00:00:00Z","end_date":"2024-01-03T00:00:00Z"}"#,
);

const GET_DAG: Asked = ("abc", Endpoint::GetDag, &["d"], "");

const RUN: &str =
    r#"{"dag_id":"d","dag_run_id":"m","data_interval_end":"2024-01-02T00:00:00+00:00","data_interval_start":"2024-01-02T00:00:00+00:00","end_date":null,"logical_date":"2024-01-02T00:00:00+00:00","run_type":"manual","start_date":null,"state":"queued"}"#;

/// The runs of 1 and 3 January.
const MADE: &str =
    r#"{"dag_runs":[{"dag_id":"d","dag_run_id":"backfill__2024-01-01T00:00:00+00:00","data_interval_end":"2024-01-02T00:00:00+00:00","data_interval_start":"2024-01-01T00:00:00+00:00","end_date":null,"logical_date":"2024-01-01T00:00:00+00:00","run_type":"backfill","start_date":null,"state":"queued"},{"dag_id":"d","dag_run_id":"backfill__2024-01-03T00:00:00+00:00","data_interval_end":"2024-01-04T00:00:00+00:00","data_interval_start":"2024-01-03T00:00:00+00:00","end_date":null,"logical_date":"2024-01-03T00:00:00+00:00","run_type":"backfill","start_date":null,"state":"queued"}],"total_entries":2}"#;

const ALL_RUNS: &str =
    r#"{"dag_runs":[{"dag_id":"d","dag_run_id":"m","data_interval_end":"2024-01-02T00:00:00+00:00","data_interval_start":"2024-01-02T00:00:00+00:00","end_date":null,"logical_date":"2024-01-02T00:00:00+00:00","run_type":"manual","start_date":null,"state":"queued"},{"dag_id":"d","dag_run_id":"backfill__2024-01-01T00:00:00+00:00","data_interval_end":"2024-01-02T00:00:00+00:00","data_interval_start":"2024-01-01T00:00:00+00:00","end_date":null,"logical_date":"2024-01-01T00:00:00+00:00","run_type":"backfill","start_date":null,"state":"queued"},{"dag_id":"d","dag_run_id":"backfill__2024-01-03T00:00:00+00:00","data_interval_end":"2024-01-04T00:00:00+00:00","data_interval_start":"2024-01-03T00:00:00+00:00","end_date":null,"logical_date":"2024-01-03T00:00:00+00:00","run_type":"backfill","start_date":null,"state":"queued"}],"total_entries":3}"#;

const ONE_RUN: &str =
    r#"{"dag_runs":[{"dag_id":"d","dag_run_id":"m","data_interval_end":"2024-01-02T00:00:00+00:00","data_interval_start":"2024-01-02T00:00:00+00:00","end_date":null,"logical_date":"2024-01-02T00:00:00+00:00","run_type":"manual","start_date":null,"state":"queued"}],"total_entries":1}"#;

const BOTH_LOGS: &str =
    r#"{"event_logs":[{"dag_id":"d","event":"trigger_dag_run","event_log_id":1,"owner":"uma","policy_version":0,"run_id":"m","task_id":null,"when":"2024-01-01T00:00:00.000001+00:00"},{"dag_id":"d","event":"backfill","event_log_id":2,"owner":"uma","policy_version":0,"run_id":null,"task_id":null,"when":"2024-01-01T00:00:00.000001+00:00"}],"total_entries":2}"#;

const ONE_LOG: &str =
    r#"{"event_logs":[{"dag_id":"d","event":"trigger_dag_run","event_log_id":1,"owner":"uma","policy_version":0,"run_id":"m","task_id":null,"when":"2024-01-01T00:00:00.000001+00:00"}],"total_entries":1}"#;

/// Its cursor is where it was.
const DAG: &str =
    r#"{"dag_id":"d","is_paused":false,"max_active_runs":16,"next_dagrun":"2024-01-01T00:00:00+00:00","schedule_interval":"@daily"}"#;

/// uma backfills d, of which she has triggered a run before.
const BACKFILLED: Change = Change {
    dags: Dags::AndDaily,
    before: &[(TRIGGER, Status::Ok, (Some(0), Some(1)), RUN)],
    row: (BACKFILL, Status::Ok, (Some(0), Some(2)), MADE),
    made: &[
        (LIST_RUNS, Status::Ok, (Some(0), Some(2)), ALL_RUNS),
        (LIST_LOGS, Status::Ok, (Some(0), Some(2)), BOTH_LOGS),
        (GET_DAG, Status::Ok, (Some(0), Some(2)), DAG),
        (
            BACKFILL,
            Status::Ok,
            (Some(0), Some(2)),
            r#"{"dag_runs":[],"total_entries":0}"#,
        ),
    ],
    not_made: &[
        (LIST_RUNS, Status::Ok, (Some(0), Some(1)), ONE_RUN),
        (LIST_LOGS, Status::Ok, (Some(0), Some(1)), ONE_LOG),
        (GET_DAG, Status::Ok, (Some(0), Some(1)), DAG),
        (BACKFILL, Status::Ok, (Some(0), Some(2)), MADE),
    ],
};

#[test]
fn a_range_is_backfilled_or_nothing_is_done(rt: HostRuntime) -> Result<(), Fail> {
    is_whole(&rt, rt.alloc(), BACKFILLED)
}
