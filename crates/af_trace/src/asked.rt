// What a step asks for, by its method, its target and its body.
ghost use Rattle.std.specs.Prelude.{◌≡◌};
ghost use Rattle.af_base.specs.JsonValue.{view};
ghost use Rattle.af_base.specs.Readings.{OrMemory};
ghost use Rattle.af_trace.specs.declared.trace_fault.TraceFault.{TraceFault};
ghost use Rattle.af_trace.specs.Asked.{asked_in, call_in, call_was_read, change, change_in, got_in, on_plane, on_plane_in, on_policy, op_was_read, policy_was_read, pool_was_read, read_whole, reading, reading_in, variable_was_read, was_read, whole};

use crate::members::text;
use crate::trace_fault::TraceFault;
use af_base::Json;
use af_http::{RouteFault, Routes};
use af_ops::{BodyFault, Call, Op, PolicyOp, PoolOp, VariableOp, route_of};

/// What is asked of the plane: an operation on the state that is not open, or event logs.
pub fn read_on_plane(routes: &mut Routes, step: &Json<'_>) -> Result<Call, TraceFault>
    ensures { OrMemory TraceFault.OutOfMemory (on_plane_in (view step.now)) result }
{
    let call = read_asked(routes, step)?;
    Ok(on_plane(call)?)
}

/// Who is asked for, or a reading of roles or users: what a GET of the target asks for.
pub fn read_reading(routes: &mut Routes, step: &Json<'_>) -> Result<PolicyOp, TraceFault>
    ensures { OrMemory TraceFault.OutOfMemory (reading_in (view step.now)) result }
{
    let call = read_got(routes, step)?;
    let it = on_policy(call)?;
    Ok(reading(it)?)
}

/// A change of the policy.
pub fn read_change(routes: &mut Routes, step: &Json<'_>) -> Result<PolicyOp, TraceFault>
    ensures { OrMemory TraceFault.OutOfMemory (change_in (view step.now)) result }
{
    let call = read_asked(routes, step)?;
    let it = on_policy(call)?;
    Ok(change(it)?)
}

fn on_plane(call: Call) -> Result<Call, TraceFault>
    ensures { result ≡ on_plane call }
{
    match call {
        Call::State(op) => {
            if route_of(op.endpoint()).is_open {
                Err(TraceFault::Form)
            } else {
                Ok(Call::State(op))
            }
        }
        Call::Entries(asked) => Ok(Call::Entries(asked)),
        Call::Policy(_) => Err(TraceFault::Form),
    }
}

fn on_policy(call: Call) -> Result<PolicyOp, TraceFault>
    ensures { result ≡ on_policy call }
{
    match call {
        Call::State(_) | Call::Entries(_) => Err(TraceFault::Form),
        Call::Policy(op) => Ok(op),
    }
}

fn reading(op: PolicyOp) -> Result<PolicyOp, TraceFault>
    ensures { result ≡ reading op }
{
    match op {
        PolicyOp::Me => Ok(PolicyOp::Me),
        PolicyOp::Read(asked) => Ok(PolicyOp::Read(asked)),
        PolicyOp::Change(_) | PolicyOp::Unread(_) => Err(TraceFault::Form),
    }
}

fn change(op: PolicyOp) -> Result<PolicyOp, TraceFault>
    ensures { result ≡ change op }
{
    match op {
        PolicyOp::Change(ask) => Ok(PolicyOp::Change(ask)),
        PolicyOp::Me | PolicyOp::Read(_) | PolicyOp::Unread(_) => Err(TraceFault::Form),
    }
}

/// What the method, the target and the body of a step ask for.
fn read_asked(routes: &mut Routes, step: &Json<'_>) -> Result<Call, TraceFault>
    ensures { OrMemory TraceFault.OutOfMemory (asked_in (view step.now)) result }
{
    let method = text(step, "method")?;
    let target = text(step, "target")?;
    let body = text(step, "body")?;
    read_call(routes, method, target, body)
}

/// What a GET of the target of a step asks for.
fn read_got(routes: &mut Routes, step: &Json<'_>) -> Result<Call, TraceFault>
    ensures { OrMemory TraceFault.OutOfMemory (got_in (view step.now)) result }
{
    let target = text(step, "target")?;
    read_call(routes, "GET", target, "")
}

/// What a method, a target and a body ask for, whole.
fn read_call(
    routes: &mut Routes,
    method: &str,
    target: &str,
    body: &str,
) -> Result<Call, TraceFault>
    ensures { OrMemory TraceFault.OutOfMemory (call_in method.now target.now body.now) result }
{
    whole(routes.read_call(method.as_bytes(), target.as_bytes(), body.as_bytes()))
}

/// The call that was found, if nothing of it was left unread.
fn whole(found: Result<Call, RouteFault>) -> Result<Call, TraceFault>
    ensures { result ≡ whole found }
{
    match found {
        Ok(call) => read_whole(call),
        Err(RouteFault::OutOfMemory) => Err(TraceFault::OutOfMemory),
        Err(RouteFault::NoPath) => Err(TraceFault::Form),
        Err(RouteFault::BadMethod(_)) => Err(TraceFault::Form),
    }
}

/// This call, if nothing of it was left unread.
fn read_whole(call: Call) -> Result<Call, TraceFault>
    ensures { result ≡ read_whole call }
{
    if call_was_read(&call) {
        Ok(call)
    } else {
        Err(TraceFault::OutOfMemory)
    }
}

/// Whether nothing of a call was left unread for lack of memory.
fn call_was_read(call: &Call) -> bool
    ensures { result ≡ call_was_read call.now }
{
    match call {
        Call::State(op) => op_was_read(op),
        Call::Entries(_) => true,
        Call::Policy(op) => policy_was_read(op),
    }
}

fn policy_was_read(op: &PolicyOp) -> bool
    ensures { result ≡ policy_was_read op.now }
{
    match op {
        PolicyOp::Me | PolicyOp::Read(_) | PolicyOp::Change(_) => true,
        PolicyOp::Unread(_) => false,
    }
}

fn op_was_read(op: &Op) -> bool
    ensures { result ≡ op_was_read op.now }
{
    match op {
        Op::PauseDag(_, input) => was_read(input),
        Op::TriggerRun(_, input) => was_read(input),
        Op::MarkRun(_, _, input) => was_read(input),
        Op::ClearRun(_, _, input) => was_read(input),
        Op::ClearInstances(_, input) => was_read(input),
        Op::BackfillDag(_, input) => was_read(input),
        Op::Pool(op) => pool_was_read(op),
        Op::Variable(op) => variable_was_read(op),
        Op::Version
        | Op::ListDags(_)
        | Op::GetDag(_)
        | Op::ListTasks(_)
        | Op::ListRuns(_, _)
        | Op::GetRun(_, _)
        | Op::DeleteRun(_, _)
        | Op::ListInstances(_, _, _)
        | Op::GetInstance(_, _, _) => true,
    }
}

fn pool_was_read(op: &PoolOp) -> bool
    ensures { result ≡ pool_was_read op.now }
{
    match op {
        PoolOp::Add(input) => was_read(input),
        PoolOp::Change(_, input) => was_read(input),
        PoolOp::List(_) | PoolOp::Get(_) | PoolOp::Delete(_) => true,
    }
}

fn variable_was_read(op: &VariableOp) -> bool
    ensures { result ≡ variable_was_read op.now }
{
    match op {
        VariableOp::Add(input) => was_read(input),
        VariableOp::Change(_, input) => was_read(input),
        VariableOp::List(_) | VariableOp::Get(_) | VariableOp::Delete(_) => true,
    }
}

/// Whether a body was read, whatever it holds.
fn was_read<T>(input: &Result<T, BodyFault>) -> bool
    ensures { result ≡ was_read input.now }
{
    match input {
        Ok(_) | Err(BodyFault::BadBody) | Err(BodyFault::BadMember(_)) => true,
        Err(BodyFault::OutOfMemory) => false,
    }
}
