// What holds of entries, from the types of what they hold.
ghost use Rattle.af_names.specs.Names.{id_grammar, run_id_grammar};
ghost use Rattle.af_store.specs.EntryFacts.{IfRead, IsAct, IsActor, IsBackfill, IsClaim, IsClear, IsEntry, IsInstant, IsOp, IsPool, IsPoolOp, IsShort, IsTrigger, IsVariable, IsVariableOp};
ghost use Rattle.af_store.specs.Names.{AreNames, IfThere, IsName};

use crate::facts::{show_name, show_names};
use af_audit::{Act, Actor, Entry};
use af_graph::TaskIds;
use af_names::{DagId, Instant, RunId};
use af_ops::{Backfill, BodyFault, Clear, Op, PoolOp, Trigger, VariableOp};
use af_pool::Pool;
use af_sched::Claim;
use af_vars::Variable;

/// Names are names of their kinds, numbers fit, and instants are within their range.
pub(crate) fn show_entry(entry: &Entry)
    ensures { IsEntry entry.now }
{
    show_short(entry.seq);
    show_instant(entry.moment);
    show_actor(&entry.actor);
    show_short(entry.version);
    show_act(&entry.act);
}

fn show_short(count: u32)
    ensures { IsShort count }
{
    let _count = count;
}

fn show_instant(instant: Instant)
    ensures { IsInstant instant }
{
    let _micros = instant.micros();
}

fn show_actor(actor: &Actor)
    ensures { IsActor actor.now }
{
    if let Actor::User(user) = actor {
        show_name(user);
    }
}

fn show_act(act: &Act)
    ensures { IsAct act.now }
{
    match act {
        Act::Did(op) => show_op(op),
        Act::Tick => {}
        Act::Claim(claim) | Act::Report(claim, _) => show_claim(claim),
    }
}

fn show_claim(claim: &Claim)
    ensures { IsClaim claim.now }
{
    let _run_number = claim.run_number;
    show_name(&claim.dag_id);
    show_name(&claim.run_id);
    show_name(&claim.task_id);
    show_short(claim.try_number);
}

fn show_op(op: &Op)
    ensures { IsOp op.now }
{
    match op {
        Op::PauseDag(dag_id, _) => show_name(dag_id),
        Op::TriggerRun(dag_id, input) => {
            show_name(dag_id);
            show_trigger(input);
        }
        Op::MarkRun(dag_id, run_id, _) => show_run(dag_id, run_id),
        Op::DeleteRun(dag_id, run_id) => show_run(dag_id, run_id),
        Op::ClearRun(dag_id, run_id, _) => show_run(dag_id, run_id),
        Op::ClearInstances(dag_id, input) => {
            show_name(dag_id);
            show_clear(input);
        }
        Op::BackfillDag(dag_id, input) => {
            show_name(dag_id);
            show_backfill(input);
        }
        Op::Pool(op) => show_pool_op(op),
        Op::Variable(op) => show_variable_op(op),
        Op::Version
        | Op::ListDags(_)
        | Op::GetDag(_)
        | Op::ListTasks(_)
        | Op::ListRuns(_, _)
        | Op::GetRun(_, _)
        | Op::ListInstances(_, _, _)
        | Op::GetInstance(_, _, _) => {}
    }
}

fn show_run(dag_id: &DagId, run_id: &RunId)
    ensures dag { IsName id_grammar dag_id.now }
    ensures run { IsName run_id_grammar run_id.now }
{
    show_name(dag_id);
    show_name(run_id);
}

fn show_trigger(input: &Result<Trigger, BodyFault>)
    ensures { IfRead IsTrigger input.now }
{
    if let Ok(asked) = input {
        show_run_there(&asked.dag_run_id);
        show_instant_there(asked.logical_date);
    }
}

fn show_clear(input: &Result<Clear, BodyFault>)
    ensures { IfRead IsClear input.now }
{
    if let Ok(asked) = input {
        show_tasks_there(&asked.task_ids);
        show_run_there(&asked.dag_run_id);
        show_instant_there(asked.start_date);
        show_instant_there(asked.end_date);
    }
}

fn show_backfill(input: &Result<Backfill, BodyFault>)
    ensures { IfRead IsBackfill input.now }
{
    if let Ok(asked) = input {
        show_instant(asked.start_date);
        show_instant(asked.end_date);
    }
}

fn show_pool_op(op: &PoolOp)
    ensures { IsPoolOp op.now }
{
    match op {
        PoolOp::Add(input) => show_pool(input),
        PoolOp::Change(name, input) => {
            show_name(name);
            show_slots(input);
        }
        PoolOp::Delete(name) => show_name(name),
        PoolOp::List(_) | PoolOp::Get(_) => {}
    }
}

fn show_pool(input: &Result<Pool, BodyFault>)
    ensures { IfRead IsPool input.now }
{
    if let Ok(added) = input {
        show_name(&added.name);
        show_short(added.slots);
    }
}

fn show_slots(input: &Result<u32, BodyFault>)
    ensures { IfRead IsShort input.now }
{
    if let Ok(slots) = input {
        show_short(*slots);
    }
}

fn show_variable_op(op: &VariableOp)
    ensures { IsVariableOp op.now }
{
    match op {
        VariableOp::Add(input) => show_variable(input),
        VariableOp::Change(key, _) => show_name(key),
        VariableOp::Delete(key) => show_name(key),
        VariableOp::List(_) | VariableOp::Get(_) => {}
    }
}

fn show_variable(input: &Result<Variable, BodyFault>)
    ensures { IfRead IsVariable input.now }
{
    if let Ok(added) = input {
        show_name(&added.key);
    }
}

fn show_run_there(run_id: &Option<RunId>)
    ensures { IfThere (IsName run_id_grammar) run_id.now }
{
    if let Some(run_id) = run_id {
        show_name(run_id);
    }
}

fn show_instant_there(instant: Option<Instant>)
    ensures { IfThere IsInstant instant }
{
    if let Some(instant) = instant {
        show_instant(instant);
    }
}

fn show_tasks_there(task_ids: &Option<TaskIds>)
    ensures { IfThere (AreNames id_grammar) task_ids.now }
{
    if let Some(ids) = task_ids {
        show_names(ids.as_slice());
    }
}
