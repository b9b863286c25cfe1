ghost use Rattle.std.specs.Prelude.{◌≡◌, ◌&&◌, ℕ, IfOk, OnOk, OnErr, length, map, true, if◌then◌else◌};
ghost use Rattle.std.specs.List.Sorted.{IsStrictlySortedBy};
ghost use Rattle.std.specs.Ordering.{nat_cmp};
ghost use Rattle.af_sched.specs.Rooms.{has_room, less_one, most_of, room_of};
ghost use Rattle.af_sched.specs.Start.{is_queued, is_running, started_run, started_runs};
ghost use Rattle.af_sched.specs.declared.dag_row.DagRow.{DagRow};

use crate::dag_row::DagRow;
use crate::dags::Dags;
use af_names::{DagId, Instant};
use af_runs::{OptionalInstant, Run, RunState};
use std::alloc::{AllocError, Global};

/// The second phase of a tick, on these runs, whose numbers rise: queued runs of unpaused DAGs start while their DAG has
/// room for them. `AllocError` only where a growth was refused; then the runs are as before.
pub(crate) fn start_all(
    alloc: Global,
    dags: &Dags<'_>,
    at: Instant,
    runs: &mut [Run],
) -> Result<(), AllocError>
    requires { IsStrictlySortedBy nat_cmp (map (λ run. run.number) runs.old) }
    ensures ok { OnOk result (runs.new ≡ started_runs at dags.now runs.old) }
    ensures err { OnErr result (runs.new ≡ runs.old) }
{
    let mut rooms = rooms_of(alloc, dags, runs)?;
    let left = rooms.as_mut_slice();
    for run in runs.iter_mut() {
        start_next(dags, at, left, run);
    }
    Ok(())
}

/// Starts a run where it is queued and its DAG has room left, of which it takes one.
fn start_next(dags: &Dags<'_>, at: Instant, left: &mut [u32], run: &mut Run)
    requires { length left.old ≡ length dags.now }
    ensures run { (room : DagRow → ℕ) → left.old ≡ map room dags.now → run.new ≡ (if is_queued run.old.state && has_room room dags.now run.old.dag_id then started_run at run.old else run.old) }
    ensures left { (room : DagRow → ℕ) → left.old ≡ map room dags.now → left.new ≡ map (less_one room (is_queued run.old.state) run.old.dag_id) dags.now }
{
    if run.state == RunState::Queued && take_room(dags, left, &run.dag_id) {
        run.state = RunState::Running;
        run.start_date = OptionalInstant::from(Some(at));
    }
}

/// How many more runs of each DAG may start, in the order of the DAGs.
fn rooms_of(alloc: Global, dags: &Dags<'_>, runs: &[Run]) -> Result<Vec<u32>, AllocError>
    ensures { IfOk result (λ rooms. rooms.items ≡ map (room_of runs.now) dags.now) }
{
    let mut rooms = most_of_each(alloc, dags.rows())?;
    take_running(dags, rooms.as_mut_slice(), runs);
    Ok(rooms)
}

/// How many runs of each DAG may be running.
fn most_of_each(alloc: Global, rows: &[DagRow]) -> Result<Vec<u32>, AllocError>
    ensures { IfOk result (λ most. most.items ≡ map most_of rows.now) }
{
    let mut most = Vec::with_capacity(alloc, rows.len())?;
    for row in rows {
        most.push(most_of(row))?;
    }
    Ok(most)
}

/// How many runs of a DAG may be running: none that starts while it is paused.
fn most_of(row: &DagRow) -> u32
    ensures { result ≡ most_of row.now }
{
    if row.is_paused {
        0
    } else {
        row.dag.definition().max_active_runs
    }
}

/// Takes one of its DAG's room for each of these runs that is running.
fn take_running(dags: &Dags<'_>, left: &mut [u32], runs: &[Run])
    requires { left.old ≡ map most_of dags.now }
    ensures { left.new ≡ map (room_of runs.now) dags.now }
{
    for run in runs {
        take_if_running(dags, left, run);
    }
}

/// Takes one of its DAG's room where a run is running.
fn take_if_running(dags: &Dags<'_>, left: &mut [u32], run: &Run)
    requires { length left.old ≡ length dags.now }
    ensures { (room : DagRow → ℕ) → left.old ≡ map room dags.now → left.new ≡ map (less_one room (is_running run.now.state) run.now.dag_id) dags.now }
{
    if run.state == RunState::Running {
        let _had = take_room(dags, left, &run.dag_id);
    }
}

/// Takes one of the room that the DAG of this id has left, and tells whether there was any.
fn take_room(dags: &Dags<'_>, left: &mut [u32], dag_id: &DagId) -> bool
    requires { length left.old ≡ length dags.now }
    ensures had { (room : DagRow → ℕ) → left.old ≡ map room dags.now → result ≡ has_room room dags.now dag_id.now }
    ensures left { (room : DagRow → ℕ) → left.old ≡ map room dags.now → left.new ≡ map (less_one room true dag_id.now) dags.now }
{
    let Ok(place) = dags.place_of(dag_id) else {
        return false;
    };
    let room = left[place];
    left[place] = room.saturating_sub(1);
    room > 0
}
