//! What a clear makes of the four runs.
use super::four::four_runs;
use crate::tests::seen::number_of;
use af_graph::TaskState;
use af_runs::{Instance, Run, RunState, Runs};
use std::alloc::Global;
use std::process::Abort;

/// The instance at a place of a run before a clear, as it is after one.
fn cleared(instance: Instance, place: usize) -> Instance {
    let retries = if place == 0 { 1 } else { 3 };
    Instance {
        state: TaskState::NoStatus,
        try_number: instance.try_number,
        max_tries: u64::from(instance.try_number) + retries,
        start_date: None,
        end_date: None,
        retry_at: None,
    }
}

fn is_among(wanted: &[(u64, usize)], number: u64, place: usize) -> bool {
    for row in wanted {
        if row.0 == number && row.1 == place {
            return true;
        }
    }
    false
}

/// The instance at a place of the run of a number before a clear of these, as it is after that.
fn wanted_at(instance: Instance, number: u64, place: usize, wanted: &[(u64, usize)]) -> Instance {
    if is_among(wanted, number, place) {
        cleared(instance, place)
    } else {
        instance
    }
}

/// Whether the two instances of a run are what a clear of these makes of them.
fn has_instances_after(before: &Run, after: &Run, wanted: &[(u64, usize)]) -> bool {
    for (place, instance) in before.instances.as_slice().iter().enumerate() {
        let want = wanted_at(*instance, before.number, place, wanted);
        if after.instances.as_slice().get(place) != Some(&want) {
            return false;
        }
    }
    after.instances.as_slice().len() == 2
}

fn is_queued_again(run: &Run) -> bool {
    run.state == RunState::Queued && run.start_date.get().is_none() && run.end_date.get().is_none()
}

fn is_told_as(before: &Run, after: &Run) -> bool {
    after.state == before.state
        && after.start_date == before.start_date
        && after.end_date == before.end_date
}

/// Whether a run is what a clear of these instances makes of it.
fn is_after(before: &Run, after: &Run, wanted: &[(u64, usize)]) -> bool {
    let number = before.number;
    let touched = is_among(wanted, number, 0) || is_among(wanted, number, 1);
    let is_told = if touched && before.state.is_finished() {
        is_queued_again(after)
    } else {
        is_told_as(before, after)
    };
    is_told && after.number == number && has_instances_after(before, after, wanted)
}

/// Whether the busy runs are those of all that are busy.
fn are_busy(runs: &Runs) -> bool {
    let mut busy = runs.busy();
    for run in runs.rows() {
        if run.is_busy() && number_of(busy.next()) != Some(run.number) {
            return false;
        }
    }
    busy.next().is_none()
}

/// Whether each run is after a clear what it should be, and there are four.
fn are_all_after(before: &[Run], after: &[Run], wanted: &[(u64, usize)]) -> bool {
    for (run, after) in before.iter().zip(after) {
        if !is_after(run, after, wanted) {
            return false;
        }
    }
    after.len() == 4
}

/// Whether a clear of these instances of the four runs has left these runs.
pub fn are_after(rt: &impl Abort, alloc: Global, runs: &Runs, wanted: &[(u64, usize)]) -> bool {
    let before = four_runs(rt, alloc);
    let same = are_all_after(before.rows(), runs.rows(), wanted) && are_busy(runs);
    drop(before);
    same
}
