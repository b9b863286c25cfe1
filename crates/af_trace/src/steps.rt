// Reading a step.
ghost use Rattle.std.specs.Prelude.{◌≡◌};
ghost use Rattle.af_base.specs.JsonValue.{view};
ghost use Rattle.af_base.specs.Readings.{OrMemory};
ghost use Rattle.af_trace.specs.declared.trace_fault.TraceFault.{TraceFault};
ghost use Rattle.af_trace.specs.Steps.{act_in, claim_in, look_in, me_in, narrow_in, narrowed, outcome_in, publish_in, report_in, session_in, session_or, step_in, step_of, tick_in, try_in};

use crate::asked::{read_change, read_on_plane, read_reading};
use crate::kind::{Kind, kind_of};
use crate::members::{count, instant, task_id, text, token, value};
use crate::trace_fault::TraceFault;
use af_base::Json;
use af_http::Routes;
use af_sched::Outcome;
use af_world::{Step, TryReport};
use std::alloc::Global;

/// Reads a step of a trace of so many sessions. It has a member of just one name of a kind.
pub fn read_step(
    alloc: Global,
    routes: &mut Routes,
    sessions: u32,
    row: &Json<'_>,
) -> Result<Step, TraceFault>
    ensures { OrMemory TraceFault.OutOfMemory (step_in sessions (view row.now)) result }
{
    let kind = kind_of(row)?;
    read_of_kind(alloc, routes, sessions, row, kind)
}

fn read_of_kind(
    alloc: Global,
    routes: &mut Routes,
    sessions: u32,
    row: &Json<'_>,
    kind: Kind,
) -> Result<Step, TraceFault>
    ensures { OrMemory TraceFault.OutOfMemory (step_of sessions (view row.now) kind) result }
{
    match kind {
        Kind::Look => Ok(read_look(sessions, row)?),
        Kind::Act => read_act(alloc, routes, sessions, row),
        Kind::Me => read_me(alloc, routes, sessions, row),
        Kind::Publish => read_publish(alloc, routes, sessions, row),
        Kind::Tick => Ok(read_tick(row)?),
        Kind::Claim => Ok(read_claim(row)?),
        Kind::Report => read_report(alloc, row),
    }
}

fn read_look(sessions: u32, row: &Json<'_>) -> Result<Step, TraceFault>
    ensures { result ≡ look_in sessions (view row.now) }
{
    let session = session(row, "look", sessions)?;
    Ok(Step::Look(session))
}

fn read_act(
    alloc: Global,
    routes: &mut Routes,
    sessions: u32,
    row: &Json<'_>,
) -> Result<Step, TraceFault>
    ensures { OrMemory TraceFault.OutOfMemory (act_in sessions (view row.now)) result }
{
    let session = session(row, "act", sessions)?;
    let token = token(alloc, row)?;
    let call = read_on_plane(routes, row)?;
    let now = instant(row, "now")?;
    Ok(Step::Act(session, token, call, now))
}

fn read_me(
    alloc: Global,
    routes: &mut Routes,
    sessions: u32,
    row: &Json<'_>,
) -> Result<Step, TraceFault>
    ensures { OrMemory TraceFault.OutOfMemory (me_in sessions (view row.now)) result }
{
    let session = session(row, "me", sessions)?;
    let token = token(alloc, row)?;
    let asked = read_reading(routes, row)?;
    Ok(Step::Me(session, token, asked))
}

fn read_publish(
    alloc: Global,
    routes: &mut Routes,
    sessions: u32,
    row: &Json<'_>,
) -> Result<Step, TraceFault>
    ensures { OrMemory TraceFault.OutOfMemory (publish_in sessions (view row.now)) result }
{
    let session = session(row, "publish", sessions)?;
    let at = narrow(row, "at")?;
    let token = token(alloc, row)?;
    let asked = read_change(routes, row)?;
    Ok(Step::Publish(session, at, token, asked))
}

fn read_tick(row: &Json<'_>) -> Result<Step, TraceFault>
    ensures { result ≡ tick_in (view row.now) }
{
    let now = instant(row, "tick")?;
    Ok(Step::Tick(now))
}

fn read_claim(row: &Json<'_>) -> Result<Step, TraceFault>
    ensures { result ≡ claim_in (view row.now) }
{
    let now = instant(row, "claim")?;
    Ok(Step::Claim(now))
}

fn read_report(alloc: Global, row: &Json<'_>) -> Result<Step, TraceFault>
    ensures { OrMemory TraceFault.OutOfMemory (report_in (view row.now)) result }
{
    let it = read_try(alloc, value(row, "report")?)?;
    let now = instant(row, "now")?;
    Ok(Step::Report(it, now))
}

/// A try that ended.
fn read_try(alloc: Global, row: &Json<'_>) -> Result<TryReport, TraceFault>
    ensures { OrMemory TraceFault.OutOfMemory (try_in (view row.now)) result }
{
    let run_number = count(row, "run")?;
    let task_id = task_id(alloc, row, "task")?;
    let try_number = narrow(row, "try")?;
    let outcome = read_outcome(row)?;
    Ok(TryReport {
        run_number,
        task_id,
        try_number,
        outcome,
    })
}

fn read_outcome(row: &Json<'_>) -> Result<Outcome, TraceFault>
    ensures { result ≡ outcome_in (view row.now) }
{
    let text = text(row, "outcome")?;
    match Outcome::read(text) {
        Some(outcome) => Ok(outcome),
        None => Err(TraceFault::Form),
    }
}

/// The number of one of so many sessions, counted from 0.
fn session(row: &Json<'_>, name: &str, sessions: u32) -> Result<u32, TraceFault>
    ensures { result ≡ session_in sessions name.now (view row.now) }
{
    let number = count(row, name)?;
    session_or(sessions, number)
}

fn session_or(sessions: u32, number: u64) -> Result<u32, TraceFault>
    ensures { result ≡ session_or sessions number }
{
    if number < u64::from(sessions) {
        Ok(number as u32)
    } else {
        Err(TraceFault::Form)
    }
}

/// The number of a version or of a try, from 0 on; one past 32 bits is taken as the last of 32 bits.
fn narrow(row: &Json<'_>, name: &str) -> Result<u32, TraceFault>
    ensures { result ≡ narrow_in name.now (view row.now) }
{
    Ok(narrowed(count(row, name)?))
}

fn narrowed(number: u64) -> u32
    ensures { result ≡ narrowed number }
{
    if number <= u64::from(u32::MAX) {
        number as u32
    } else {
        u32::MAX
    }
}
