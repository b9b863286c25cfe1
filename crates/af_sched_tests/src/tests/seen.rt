use af_graph::TaskState;
use af_names::Instant;
use af_runs::{Instance, Run, RunState};
use af_sched::State;
use std::test::Fail;

/// Whether the DAGs have these ids.
pub fn are_dags(state: &State, wanted: &[&str]) -> bool {
    let rows = state.dags();
    for (row, want) in rows.iter().zip(wanted) {
        if row.dag.dag_id().as_str() != *want {
            return false;
        }
    }
    rows.len() == wanted.len()
}

/// Whether the first DAG's cursor is at this moment.
pub fn cursor_is(state: &State, wanted: Instant) -> Result<bool, Fail> {
    match state.dags().first() {
        Some(row) => Ok(row.cursor == Some(wanted)),
        None => Ok(false),
    }
}

/// Whether there are so many runs, of which so many are running.
pub fn runs_are(state: &State, all: usize, running: usize) -> bool {
    let rows = state.runs();
    rows.len() == all && count_in(rows, RunState::Running) == running
}

fn count_in(rows: &[Run], state: RunState) -> usize {
    let mut count: usize = 0;
    for run in rows {
        if run.state == state {
            count = count.saturating_add(1);
        }
    }
    count
}

pub fn states_are(state: &State, wanted: &[RunState]) -> bool {
    let rows = state.runs();
    for (run, want) in rows.iter().zip(wanted) {
        if run.state != *want {
            return false;
        }
    }
    rows.len() == wanted.len()
}

/// Whether the first run has this id, and its interval ends at this moment.
pub fn first_is(state: &State, run_id: &str, end: Instant) -> Result<bool, Fail> {
    match state.runs().first() {
        Some(run) => Ok(run.run_id.as_str() == run_id && run.interval.end == end),
        None => Ok(false),
    }
}

/// Whether the instances of the first run are in these states.
pub fn first_are(state: &State, wanted: &[TaskState]) -> bool {
    match state.runs().first() {
        Some(run) => are(run, wanted),
        None => false,
    }
}

/// Whether the instances of a run are in these states.
pub fn are(run: &Run, wanted: &[TaskState]) -> bool {
    let rows = run.instances.as_slice();
    for (row, want) in rows.iter().zip(wanted) {
        if row.state != *want {
            return false;
        }
    }
    rows.len() == wanted.len()
}

/// Whether the first instance of the first run is this one.
pub fn first_instance_is(state: &State, wanted: Instance) -> bool {
    let Some(run) = state.runs().first() else {
        return false;
    };
    match run.instances.as_slice().first() {
        Some(instance) => *instance == wanted,
        None => false,
    }
}

/// The first instance of the first run.
pub fn first_instance(state: &State) -> Result<Instance, Fail> {
    let Some(run) = state.runs().first() else {
        return Err(Fail::from("no run"));
    };
    match run.instances.as_slice().first() {
        Some(instance) => Ok(*instance),
        None => Err(Fail::from("no instance")),
    }
}

/// The number of a run, where there is one.
pub fn number_of(run: Option<&Run>) -> Option<u64> {
    match run {
        Some(run) => Some(run.number),
        None => None,
    }
}
