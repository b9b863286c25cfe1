//! The run of a DAG that is due each month, and where the cursor of its DAG stands.
use af_graph::TaskState;
use af_names::Instant;
use af_plane::Plane;
use af_runs::{Run, RunState};
use std::test::Fail;

/// The one run that there is then: its id, the end of its interval, and where the cursor of its DAG stands.
pub type Made = (&'static str, &'static str, &'static str);

pub const OF_FEBRUARY: Made = (
    "scheduled__2024-02-01T00:00:00+00:00",
    "2024-03-01T00:00:00Z",
    "2024-03-01T00:00:00Z",
);

/// Whether a run has this id and this end, is running, and its only task is queued.
fn is_made(run: &Run, id: &str, end: Instant) -> bool {
    run.run_id.as_str() == id
        && run.interval.end == end
        && run.state == RunState::Running
        && is_queued(run)
}

/// Whether the only task of a run is queued.
fn is_queued(run: &Run) -> bool {
    match run.instances.as_slice() {
        [instance] => instance.state == TaskState::Queued,
        _ => false,
    }
}

/// Whether there is just that run.
pub fn has_made(plane: &Plane, made: Made) -> Result<bool, Fail> {
    let end = Instant::read(made.1)?;
    Ok(match plane.ledger().state().runs() {
        [run] => is_made(run, made.0, end),
        _ => false,
    })
}

/// Whether the cursor of the second DAG stands there.
pub fn is_at(plane: &Plane, moment: &str) -> Result<bool, Fail> {
    let cursor = Instant::read(moment)?;
    Ok(match plane.ledger().state().dags() {
        [_, row] => row.cursor == Some(cursor),
        _ => false,
    })
}
