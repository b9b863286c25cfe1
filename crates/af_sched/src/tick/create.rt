ghost use Rattle.std.specs.Prelude.{◌≡◌, ◌∷◌, [], IfOk, IsOk, IsSome, OnOk, map};
ghost use Rattle.af_graph.specs.Schedules.{is_scheduled};
ghost use Rattle.af_runs.specs.Additions.{together};
ghost use Rattle.af_runs.specs.Runs.{refusal};
ghost use Rattle.af_sched.specs.Create.{moved_row, id_of, point_run, runs_due, runs_of_row, cursor_due};
ghost use Rattle.af_sched.specs.Steps.{TakesRuns, TakesRunsOf};

use crate::dag_row::DagRow;
use crate::tick::due::{moved_cursor, taken_points};
use af_graph::{Dag, Schedule};
use af_names::{Instant, RunId};
use af_runs::{Additions, Interval, NewRun, RunFault, RunType, new_instances};
use std::alloc::{AllocError, Global};

/// How many bytes the id of a run that is made for a date takes at most.
const RUN_ID: usize = 43;

/// What of a DAG is due at a moment: its new runs, and where its cursor then stands.
#[derive(Drop)]
struct Due {
    runs: Vec<NewRun>,
    cursor: Option<Instant>,
}

/// The first phase of a tick: the runs due of each DAG are put with the additions, and the cursors of all DAGs are told.
/// `AllocError` only where a growth was refused; some runs may be there then.
pub(crate) fn create_all(
    alloc: Global,
    dags: &[DagRow],
    at: Instant,
    additions: &mut Additions<'_>,
) -> Result<Vec<Option<Instant>>, AllocError>
    ensures runs { OnOk result (TakesRunsOf at dags.now (together additions.old) (together additions.new)) }
    ensures before { additions.new.before ≡ additions.old.before }
    ensures cursors { IfOk result (λ cursors. cursors.items ≡ map (λ row. (moved_row at row).cursor) dags.now) }
{
    let mut cursors = Vec::with_capacity(alloc, dags.len())?;
    for row in dags {
        let cursor = create_of(alloc, row, at, additions)?;
        cursors.push(cursor)?;
    }
    Ok(cursors)
}

/// Adds the runs due of one DAG, and tells its cursor.
fn create_of(
    alloc: Global,
    row: &DagRow,
    at: Instant,
    additions: &mut Additions<'_>,
) -> Result<Option<Instant>, AllocError>
    ensures runs { OnOk result (TakesRuns (runs_of_row at row.now) (together additions.old) (together additions.new)) }
    ensures before { additions.new.before ≡ additions.old.before }
    ensures cursor { IfOk result (λ cursor. cursor ≡ (moved_row at row.now).cursor) }
{
    let due = due_of_row(alloc, row, at)?;
    let cursor = due.cursor;
    add_all(due.runs, additions)?;
    Ok(cursor)
}

/// What of a DAG is due at a moment: nothing while it is paused, or has no schedule or no cursor.
fn due_of_row(alloc: Global, row: &DagRow, at: Instant) -> Result<Due, AllocError>
    ensures runs { IfOk result (λ due. due.runs.items ≡ runs_of_row at row.now) }
    ensures cursor { IfOk result (λ due. due.cursor ≡ (moved_row at row.now).cursor) }
{
    if row.is_paused {
        return Ok(nothing_due(alloc, row.cursor));
    }
    let Some(schedule) = row.dag.schedule() else {
        return Ok(nothing_due(alloc, row.cursor));
    };
    let Some(cursor) = row.cursor else {
        return Ok(nothing_due(alloc, None));
    };
    due_of(alloc, &row.dag, &schedule, cursor, at)
}

/// No run is due, and the cursor stays.
fn nothing_due(alloc: Global, cursor: Option<Instant>) -> Due
    ensures runs { result.runs.items ≡ [] }
    ensures cursor { result.cursor ≡ cursor }
{
    Due {
        runs: Vec::new(alloc),
        cursor,
    }
}

/// What of a DAG with this schedule and cursor is due at a moment.
fn due_of(
    alloc: Global,
    dag: &Dag,
    schedule: &Schedule,
    cursor: Instant,
    at: Instant,
) -> Result<Due, AllocError>
    ensures runs { IfOk result (λ due. due.runs.items ≡ runs_due at dag.now (is_scheduled schedule.now) cursor) }
    ensures cursor { IfOk result (λ due. due.cursor ≡ cursor_due at dag.now (is_scheduled schedule.now) cursor) }
{
    let points = taken_points(alloc, dag.definition().catchup, schedule, cursor, at)?;
    let runs = runs_for(alloc, RunType::Scheduled, dag, schedule, points.as_slice())?;
    let cursor = moved_cursor(schedule, points.as_slice(), cursor);
    Ok(Due { runs, cursor })
}

/// The runs of a DAG, of this type, for the intervals that begin at these points.
pub(crate) fn runs_for(
    alloc: Global,
    run_type: RunType,
    dag: &Dag,
    schedule: &Schedule,
    points: &[Instant],
) -> Result<Vec<NewRun>, AllocError>
    ensures { IfOk result (λ runs. runs.items ≡ map (point_run run_type dag.now (is_scheduled schedule.now)) points.now) }
{
    let mut runs = Vec::with_capacity(alloc, points.len())?;
    for point in points {
        runs.push(run_for(alloc, run_type, dag, schedule, *point)?)?;
    }
    Ok(runs)
}

/// The run of a DAG, of this type, for the interval that begins at a point.
fn run_for(
    alloc: Global,
    run_type: RunType,
    dag: &Dag,
    schedule: &Schedule,
    point: Instant,
) -> Result<NewRun, AllocError>
    ensures { IfOk result (λ new. new ≡ point_run run_type dag.now (is_scheduled schedule.now) point) }
{
    let dag_id = dag.dag_id().copied(alloc)?;
    let run_id = run_id_for(alloc, run_type, point)?;
    let instances = new_instances(alloc, dag)?;
    let end = schedule.next_after(point).unwrap_or(point);
    Ok(NewRun {
        dag_id,
        run_id,
        logical_date: point,
        interval: Interval { start: point, end },
        run_type,
        instances,
    })
}

/// The id of the run of this type and this date.
fn run_id_for(alloc: Global, run_type: RunType, date: Instant) -> Result<RunId, AllocError>
    ensures { IfOk result (λ run_id. run_id ≡ id_of run_type date) }
{
    let mut text = String::with_capacity(alloc, RUN_ID)?;
    text.push_str(run_type.as_str())?;
    text.push_str("__")?;
    date.write_onto(&mut text)?;
    RunId::parse(alloc, text.as_str()).map_err(|_fault| AllocError)
}

/// Adds these runs, in their order; one that can not be added is passed over.
pub(crate) fn add_all(added: Vec<NewRun>, additions: &mut Additions<'_>) -> Result<(), AllocError>
    ensures runs { OnOk result (TakesRuns added.items (together additions.old) (together additions.new)) }
    ensures before { additions.new.before ≡ additions.old.before }
{
    for new in added {
        add(new, additions)?;
    }
    Ok(())
}

/// Adds a run, unless its id or its date is taken, or its DAG is at its limit of runs: then it is passed over, memory or not.
fn add(new: NewRun, additions: &mut Additions<'_>) -> Result<(), AllocError>
    ensures runs { OnOk result (TakesRuns (new ∷ []) (together additions.old) (together additions.new)) }
    ensures before { additions.new.before ≡ additions.old.before }
    ensures passed_over { IsSome (refusal (together additions.old) new) → IsOk result }
{
    match additions.add_run(new) {
        Err(RunFault::OutOfMemory) => Err(AllocError),
        _ => Ok(()),
    }
}
