use crate::tests::asserts::row_holds;
use crate::tests::dags::{push_tasks, task};
use crate::tests::openings::{add_g, add_pool, add_r, moment};
use crate::tests::seen::first_are;
use TaskState::{Failed, NoStatus, Running, Scheduled, Skipped, Success, UpstreamFailed};
use af_graph::{Rule, TaskSpec, TaskState};
use af_sched::State;
use std::alloc::Global;
use std::test::Fail;

/// Task d of this rule and a pool without slots.
fn last(alloc: Global, rule: Rule) -> Result<TaskSpec, Fail> {
    task(alloc, "d", &["b", "c"], "p", rule)
}

/// Tasks d, a, b and c of a diamond, where d's rule is this.
fn diamond(alloc: Global, rule: Rule) -> Result<Vec<TaskSpec>, Fail> {
    let mut tasks = vec![in alloc; last(alloc, rule)?]?;
    push_tasks(alloc, &mut tasks, ABOVE)?;
    Ok(tasks)
}

/// The tasks above d, and those upstream of each.
const ABOVE: &[(&str, &[&str])] = &[("a", &[]), ("b", &["a"]), ("c", &["a"])];

/// Adds a run of a diamond whose instances are in these states, where d's rule is this and its pool has no slots.
fn add_diamond(
    alloc: Global,
    state: &mut State,
    rule: Rule,
    states: &[TaskState],
) -> Result<(), Fail> {
    add_pool(alloc, state, "p", 0)?;
    add_g(alloc, state, diamond(alloc, rule)?, false)?;
    add_r(alloc, state, states)
}

/// Whether the states of a diamond's tasks d, a, b and c, added to a new state, are those of a row after a tick, where a has
/// succeeded and the pool of d has no slots.
fn becomes(alloc: Global, state: &mut State, row: &Row) -> Result<bool, Fail> {
    let (rule, b, c, wanted) = *row;
    add_diamond(alloc, state, rule, &[NoStatus, Success, b, c])?;
    let _changes = state.tick(alloc, moment(7)?)?;
    Ok(first_are(state, &[wanted, Success, b, c]))
}

/// Whether a diamond goes by the rule of a row.
fn goes(alloc: Global, row: &Row) -> Result<bool, Fail> {
    let mut state = State::new(alloc)?;
    let goes = becomes(alloc, &mut state, row);
    drop(state);
    goes
}

/// A rule, the states of b and c, and what d becomes.
type Row = (Rule, TaskState, TaskState, TaskState);

const TABLE: &[Row] = &[
    (Rule::AllSuccess, Success, Success, Scheduled),
    (Rule::AllSuccess, Failed, Running, UpstreamFailed),
    (Rule::AllSuccess, Success, Skipped, Skipped),
    (Rule::AllSuccess, Success, Running, NoStatus),
    (Rule::AllFailed, Failed, UpstreamFailed, Scheduled),
    (Rule::AllFailed, Success, Running, Skipped),
    (Rule::AllDone, Failed, Skipped, Scheduled),
    (Rule::AllDone, Failed, Running, NoStatus),
    (Rule::OneSuccess, Success, Running, Scheduled),
    (Rule::OneSuccess, Skipped, Skipped, Skipped),
    (Rule::OneSuccess, Failed, Skipped, UpstreamFailed),
    (Rule::OneFailed, Running, UpstreamFailed, Scheduled),
    (Rule::OneFailed, Success, Skipped, Skipped),
    (Rule::OneDone, Running, Failed, Scheduled),
    (Rule::OneDone, Skipped, UpstreamFailed, Skipped),
    (Rule::NoneFailed, Skipped, Success, Scheduled),
    (Rule::NoneFailed, Running, Failed, UpstreamFailed),
    (Rule::NoneFailedMinOneSuccess, Skipped, Skipped, Skipped),
    (Rule::NoneFailedMinOneSuccess, Skipped, Success, Scheduled),
    (Rule::NoneSkipped, Failed, Success, Scheduled),
    (Rule::NoneSkipped, Skipped, Running, Skipped),
    (Rule::AllSkipped, Skipped, Skipped, Scheduled),
    (Rule::AllSkipped, Success, Running, Skipped),
    (Rule::Always, Running, Running, Scheduled),
];

#[test]
fn a_diamond_goes_by_its_rule(rt: HostRuntime) -> Result<(), Fail> {
    for (place, row) in TABLE.iter().enumerate() {
        let goes = goes(rt.alloc(), row)?;
        row_holds(&rt, goes, place);
    }
    Ok(())
}
