use super::asked::{ALL, Asked, FAILED, Ids, filter_of, selection_of};
use super::cleared::are_after;
use super::four::four_runs;
use crate::tests::asserts::holds;
use af_runs::{ChosenInstance, RunFilter, Runs, Selection};
use std::alloc::Global;
use std::process::Abort;

/// Whether these instances, in this order, are what is chosen.
fn is_chosen(
    rt: &impl Abort,
    alloc: Global,
    runs: &Runs,
    filter: &RunFilter,
    selection: &Selection,
    wanted: &[(u64, usize)],
) -> bool {
    let chosen = runs
        .chosen(alloc, filter, selection)
        .expect(rt, "what is chosen");
    let told = are_chosen(chosen.as_slice(), wanted);
    drop(chosen);
    told
}

fn are_chosen(chosen: &[ChosenInstance<'_>], wanted: &[(u64, usize)]) -> bool {
    for (row, want) in chosen.iter().zip(wanted) {
        if (row.run.number, row.place) != *want {
            return false;
        }
    }
    chosen.len() == wanted.len()
}

/// Whether just these instances of the four runs are chosen and cleared, and a second clear changes nothing.
fn clears(
    rt: &impl Abort,
    alloc: Global,
    filter: &RunFilter,
    selection: &Selection,
    wanted: &[(u64, usize)],
) -> bool {
    let mut runs = four_runs(rt, alloc);
    let is_chosen = is_chosen(rt, alloc, &runs, filter, selection, wanted);
    let stood = runs.are_left_by(filter, selection);
    runs.clear(filter, selection);
    let stands = runs.are_left_by(filter, selection);
    let same = are_after(rt, alloc, &runs, wanted);
    drop(runs);
    is_chosen && stood == wanted.is_empty() && stands && same
}

/// The same of what is asked for.
fn goes(rt: &impl Abort, alloc: Global, asked: &Asked, wanted: &[(u64, usize)]) -> bool {
    let filter = filter_of(rt, alloc, asked);
    let selection = selection_of(rt, alloc, asked);
    let goes = clears(rt, alloc, &filter, &selection, wanted);
    drop(filter);
    drop(selection);
    goes
}

/// What is asked for, by name, and the run numbers and places of what is chosen then.
type Row = (&'static str, Asked, &'static [(u64, usize)]);

const BY_TASK_AND_STATE: &[Row] = &[
    (
        "all",
        ALL,
        &[(1, 0), (1, 1), (3, 0), (3, 1), (4, 0), (4, 1)],
    ),
    ("failed ones", FAILED, &[(1, 0), (1, 1), (3, 1)]),
    (
        "failed ones of y",
        Asked {
            ids: Ids::These(&["y"]),
            ..FAILED
        },
        &[(1, 1), (3, 1)],
    ),
    (
        "failed ones of y, x and y",
        Asked {
            ids: Ids::These(&["y", "x", "y"]),
            ..FAILED
        },
        &[(1, 0), (1, 1), (3, 1)],
    ),
    (
        "of no task",
        Asked {
            ids: Ids::These(&[]),
            ..ALL
        },
        &[],
    ),
    (
        "of a task that is not there",
        Asked {
            ids: Ids::These(&["z"]),
            ..ALL
        },
        &[],
    ),
];

const OF_R2: Asked = Asked {
    run_id: Some("r2"),
    ..ALL
};

const BY_RUN_AND_DATE: &[Row] = &[
    ("of one run", OF_R2, &[(3, 0), (3, 1)]),
    (
        "of no run",
        Asked {
            run_id: Some("r9"),
            ..ALL
        },
        &[],
    ),
    (
        "from 2 on",
        Asked {
            start_date: Some(2),
            ..ALL
        },
        &[(3, 0), (3, 1), (4, 0), (4, 1)],
    ),
    (
        "until 2",
        Asked {
            end_date: Some(2),
            ..ALL
        },
        &[(1, 0), (1, 1), (3, 0), (3, 1)],
    ),
    (
        "at 2",
        Asked {
            start_date: Some(2),
            end_date: Some(2),
            ..ALL
        },
        &[(3, 0), (3, 1)],
    ),
    (
        "from 3 until 2",
        Asked {
            start_date: Some(3),
            end_date: Some(2),
            ..ALL
        },
        &[],
    ),
    (
        "of r2 from 3 on",
        Asked {
            start_date: Some(3),
            ..OF_R2
        },
        &[],
    ),
];

/// Ends the test where what is asked for does not choose and clear just its instances.
fn all_go(rt: &impl Abort, alloc: Global, rows: &[Row]) {
    for (name, asked, wanted) in rows {
        let goes = goes(rt, alloc, asked, wanted);
        holds(rt, goes, name);
    }
}

#[test]
fn instances_are_chosen_by_task_and_state(rt: HostRuntime) {
    all_go(&rt, rt.alloc(), BY_TASK_AND_STATE);
}

#[test]
fn instances_are_chosen_by_run_and_date(rt: HostRuntime) {
    all_go(&rt, rt.alloc(), BY_RUN_AND_DATE);
}

/// Whether clearing all of the run of a number leaves it as it is, or there is none.
fn is_left(runs: &Runs, number: u64, selection: &Selection) -> bool {
    match runs.get(number) {
        Some(run) => run.is_left_by(selection),
        None => true,
    }
}

/// Whether clearing what is selected of the run of a number of the four clears these instances, and again changes nothing.
fn clears_one(
    rt: &impl Abort,
    alloc: Global,
    number: u64,
    selection: &Selection,
    wanted: &[(u64, usize)],
) -> bool {
    let mut runs = four_runs(rt, alloc);
    let stood = is_left(&runs, number, selection);
    runs.clear_run(number, selection);
    let stands = is_left(&runs, number, selection);
    let same = are_after(rt, alloc, &runs, wanted);
    drop(runs);
    stood == wanted.is_empty() && stands && same
}

/// The number of a run, and what is cleared with it.
const OF_ONE_RUN: &[(u64, &[(u64, usize)])] = &[
    (2, &[(2, 0), (2, 1)]),
    (3, &[(3, 0), (3, 1)]),
    (4, &[(4, 0), (4, 1)]),
    (5, &[]),
];

#[test]
fn one_run_is_cleared(rt: HostRuntime) {
    let all = selection_of(&rt, rt.alloc(), &ALL);
    for (number, wanted) in OF_ONE_RUN {
        let clears = clears_one(&rt, rt.alloc(), *number, &all, wanted);
        holds(&rt, clears, "each run");
    }
    drop(all);
}
