use super::plain::{Plain, Which, count, nth};
use af_names::{DagId, Instant, RunId};
use af_runs::{Run, RunFault, Runs};

fn is_it(run: Option<&Run>, plain: Option<Plain>) -> bool {
    match (run, plain) {
        (Some(run), Some(plain)) => run.number == plain.number && run.state == plain.state,
        (None, None) => true,
        _ => false,
    }
}

/// Whether the runs of a DAG from a place on begin as a filter says.
fn is_page(runs: &Runs, plain: &[Plain], dag: usize, dag_id: &DagId, from: usize) -> bool {
    let mut page = runs.of_dag(dag_id, from);
    for place in 0..3 {
        let wanted = nth(plain, Which::Dag(dag), from.saturating_add(place));
        if !is_it(page.next(), wanted) {
            return false;
        }
    }
    true
}

/// Whether the busy runs are those of a filter.
fn are_busy(runs: &Runs, plain: &[Plain]) -> bool {
    let mut busy = runs.busy();
    for row in plain {
        if row.is_busy() && !is_it(busy.next(), Some(*row)) {
            return false;
        }
    }
    busy.next().is_none()
}

/// Whether the runs that hold slots are those of a filter.
fn are_holders(runs: &Runs, plain: &[Plain]) -> bool {
    let mut holders = runs.holders();
    for row in plain {
        if row.held && !is_it(holders.next(), Some(*row)) {
            return false;
        }
    }
    holders.next().is_none()
}

/// Whether a run of a DAG is told by its id, and under another id by its date, exactly where it is there.
fn are_faults(
    runs: &Runs,
    dag_id: &DagId,
    is_there: bool,
    ids: (&RunId, &RunId),
    date: Instant,
) -> bool {
    let (by_id, by_date) = if is_there {
        (Some(RunFault::RunExists), Some(RunFault::DateTaken))
    } else {
        (None, None)
    };
    runs.add_fault(dag_id, ids.0, date) == by_id && runs.add_fault(dag_id, ids.1, date) == by_date
}

/// Whether the look-ups of a run of a DAG answer what a filter over the plain list answers. No run has the second id.
pub fn agrees_of_dag(
    runs: &Runs,
    plain: &[Plain],
    dag: (usize, &DagId),
    key: u32,
    ids: (&RunId, &RunId),
    date: Instant,
) -> bool {
    let there = nth(plain, Which::Key(dag.0, key), 0);
    let place = (key % 400) as usize;
    is_it(runs.find(dag.1, ids.0), there)
        && are_faults(runs, dag.1, there.is_some(), ids, date)
        && runs.count_of(dag.1) == count(plain, Which::Dag(dag.0))
        && is_it(
            runs.nth_of(dag.1, place),
            nth(plain, Which::Dag(dag.0), place),
        )
        && is_page(runs, plain, dag.0, dag.1, (key % 300) as usize)
}

/// Whether the look-ups by number, among the busy runs, and among those that hold slots answer what a filter over the plain list
/// answers.
pub fn agrees_at(runs: &Runs, plain: &[Plain], key: u32) -> bool {
    let number = u64::from(key).saturating_add(1);
    let place = (key % 500) as usize;
    runs.rows().len() == plain.len()
        && is_it(runs.get(number), nth(plain, Which::Number(number), 0))
        && runs.busy_count() == count(plain, Which::Busy)
        && is_it(runs.busy_at(place), nth(plain, Which::Busy, place))
        && (key % 16 != 0 || (are_busy(runs, plain) && are_holders(runs, plain)))
}
