//! Whether two states are the same, member by member.
use af_runs::Run;
use af_sched::{DagRow, State};
use af_vars::Variable;

/// Whether two states have the same DAGs, runs, pools and variables, and number the next run alike.
pub fn is_same(one: &State, other: &State) -> bool {
    have_same_dags(one, other)
        && have_same_runs(one, other)
        && have_same_pools(one, other)
        && have_same_variables(one, other)
        && one.next_run() == other.next_run()
}

fn have_same_dags(one: &State, other: &State) -> bool {
    for (one, other) in one.dags().iter().zip(other.dags()) {
        if !is_same_dag(one, other) {
            return false;
        }
    }
    one.dags().len() == other.dags().len()
}

/// Whether two rows are of one DAG, paused or not and with the same cursor.
fn is_same_dag(one: &DagRow, other: &DagRow) -> bool {
    one.dag.dag_id() == other.dag.dag_id()
        && one.is_paused == other.is_paused
        && one.cursor == other.cursor
}

fn have_same_runs(one: &State, other: &State) -> bool {
    for (one, other) in one.runs().iter().zip(other.runs()) {
        if !is_same_run(one, other) {
            return false;
        }
    }
    one.runs().len() == other.runs().len()
}

fn is_same_run(one: &Run, other: &Run) -> bool {
    is_added_alike(one, other)
        && one.state == other.state
        && one.start_date == other.start_date
        && one.end_date == other.end_date
        && one.instances.as_slice() == other.instances.as_slice()
}

/// Whether two runs were added alike: what never changes of them.
fn is_added_alike(one: &Run, other: &Run) -> bool {
    one.number == other.number
        && one.dag_id == other.dag_id
        && one.run_id == other.run_id
        && one.logical_date == other.logical_date
        && one.interval == other.interval
        && one.run_type == other.run_type
}

fn have_same_pools(one: &State, other: &State) -> bool {
    for (one, other) in one.pools().iter().zip(other.pools()) {
        if one.name != other.name || one.slots != other.slots {
            return false;
        }
    }
    one.pools().len() == other.pools().len()
}

fn have_same_variables(one: &State, other: &State) -> bool {
    for (one, other) in one.variables().iter().zip(other.variables()) {
        if !is_same_variable(one, other) {
            return false;
        }
    }
    one.variables().len() == other.variables().len()
}

fn is_same_variable(one: &Variable, other: &Variable) -> bool {
    one.key == other.key && one.value.as_str() == other.value.as_str()
}
