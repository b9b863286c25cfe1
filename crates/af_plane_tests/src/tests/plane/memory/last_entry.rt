//! Two threads, each with a session of its own, make a change where the history has room for one.
use crate::tests::plane::calls::{Asked, read_asked};
use crate::tests::plane::memory::asking::answered;
use crate::tests::plane::memory::dags::{B_PAUSED, C_PAUSED};
use crate::tests::plane::told::{Row, is_shown};
use crate::tests::plane::users::token;
use af_names::Instant;
use af_ops::{Endpoint, Served, Status};
use af_plane::{Control, Named, SessionIssuer};
use std::alloc::{AllocError, Global};
use std::sync::Wait;

const PAUSE_B: Asked = ("abc", Endpoint::PauseDag, &["b"], r#"{"is_paused":true}"#);

const PAUSE_C: Asked = ("abc", Endpoint::PauseDag, &["c"], r#"{"is_paused":true}"#);

const FULL: &str =
    r#"{"detail":"history full","status":507,"title":"Insufficient Storage","type":"about:blank"}"#;

/// What the first thread may be told: that b is paused, or that there is no room.
pub const OF_B: &[Row] = &[
    (
        PAUSE_B,
        Status::Ok,
        (Some(0), Some(1)),
        r#"{"dag_id":"b","is_paused":true,"max_active_runs":16,"next_dagrun":null,"schedule_interval":null}"#,
    ),
    (
        PAUSE_B,
        Status::InsufficientStorage,
        (Some(0), Some(1)),
        FULL,
    ),
];

/// What the second may be told: the same of c.
pub const OF_C: &[Row] = &[
    (
        PAUSE_C,
        Status::Ok,
        (Some(0), Some(1)),
        r#"{"dag_id":"c","is_paused":true,"max_active_runs":16,"next_dagrun":null,"schedule_interval":null}"#,
    ),
    (
        PAUSE_C,
        Status::InsufficientStorage,
        (Some(0), Some(1)),
        FULL,
    ),
];

const LIST_LOGS: Asked = ("admin", Endpoint::ListEntries, &[], "");

const LIST_DAGS: Asked = ("admin", Endpoint::ListDags, &[], "");

/// What is told then of the event logs: the entry is of the first thread, or of the second.
pub const LOGS: &[Row] = &[
    (
        LIST_LOGS,
        Status::Ok,
        (Some(0), Some(1)),
        r#"{"event_logs":[{"dag_id":"b","event":"patch_dag","event_log_id":1,"owner":"uma","policy_version":0,"run_id":null,"task_id":null,"when":"2024-01-01T00:00:00+00:00"}],"total_entries":1}"#,
    ),
    (
        LIST_LOGS,
        Status::Ok,
        (Some(0), Some(1)),
        r#"{"event_logs":[{"dag_id":"c","event":"patch_dag","event_log_id":1,"owner":"uma","policy_version":0,"run_id":null,"task_id":null,"when":"2024-01-01T00:00:00+00:00"}],"total_entries":1}"#,
    ),
];

/// And of the DAGs: the one that is paused is of the first thread, or of the second.
pub const DAGS: &[Row] = &[
    (LIST_DAGS, Status::Ok, (Some(0), Some(1)), B_PAUSED),
    (LIST_DAGS, Status::Ok, (Some(0), Some(1)), C_PAUSED),
];

/// The number of the first of these rows that says what is told.
fn place_of(gave: &Served, rows: &[Row]) -> Result<Option<usize>, AllocError> {
    let Served::Shown(shown) = gave else {
        return Err(AllocError);
    };
    for (place, row) in rows.iter().enumerate() {
        if is_shown(shown, *row) {
            return Ok(Some(place));
        }
    }
    Ok(None)
}

/// What threads share, each of which asks in a session of its own.
pub trait Heard {
    /// Asks this in a new session, in January.
    fn given<R: Wait>(
        &self,
        rt: &R,
        alloc: Global,
        asked: Asked,
    ) -> Result<Option<Served>, AllocError>;
}

impl<N: Named> Heard for (Control<N>, SessionIssuer<N>) {
    fn given<R: Wait>(
        &self,
        rt: &R,
        alloc: Global,
        asked: Asked,
    ) -> Result<Option<Served>, AllocError> {
        let (Some(call), Ok(at)) = (
            read_asked(alloc, asked)?,
            Instant::read("2024-01-01T00:00:00Z"),
        ) else {
            return Ok(None);
        };
        let (control, issuer) = self;
        let mut session = control.session(rt, issuer.permit());
        let gave = answered(rt, alloc, control, &mut session, token(asked.0), &call, at);
        drop(call);
        drop(session);
        Ok(Some(gave))
    }
}

/// Asks what the first of these rows asks, which all of them do: the number of the row that says what is told.
pub fn told<C: Heard, R: Wait>(
    rt: &R,
    alloc: Global,
    shared: &C,
    rows: &[Row],
) -> Result<Option<usize>, AllocError> {
    let Some(row) = rows.first() else {
        return Ok(None);
    };
    let Some(gave) = shared.given(rt, alloc, row.0)? else {
        return Ok(None);
    };
    let place = place_of(&gave, rows);
    drop(gave);
    place
}

/// Which row each thread is told, and then, in further sessions, of the event logs and of the DAGs.
pub type Told = [Option<usize>; 4];

/// The first thread makes the change.
pub const FIRST: Told = [Some(0), Some(1), Some(0), Some(0)];

/// The second does.
pub const SECOND: Told = [Some(1), Some(0), Some(1), Some(1)];
