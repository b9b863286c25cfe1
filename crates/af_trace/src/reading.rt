// Reading the members of a trace, and its steps one after another.
ghost use Rattle.std.specs.Prelude.{◌≡◌, map};
ghost use Rattle.af_base.specs.JsonValue.{view};
ghost use Rattle.af_base.specs.Members.{as_list};
ghost use Rattle.af_base.specs.Readings.{Makes, seen, taking};
ghost use Rattle.af_trace.specs.declared.trace_fault.TraceFault.{TraceFault};
ghost use Rattle.af_trace.specs.Traces.{entries_in, entry_taken, sessions_in, sessions_or, step_taken, two_of};

use crate::answers::read_answer;
use crate::members::count;
use crate::steps::read_step;
use crate::trace::Trace;
use crate::trace_fault::TraceFault;
use af_base::{Json, required_list};
use af_http::Routes;
use af_ops::Shown;
use std::alloc::Global;

/// The most sessions.
const SESSIONS: u64 = 1_024;

/// How many sessions there are.
pub fn sessions_of(row: &Json<'_>) -> Result<u32, TraceFault>
    ensures { result ≡ sessions_in (view row.now) }
{
    sessions_or(count(row, "sessions")?)
}

fn sessions_or(sessions: u64) -> Result<u32, TraceFault>
    ensures { result ≡ sessions_or sessions }
{
    if sessions <= SESSIONS {
        Ok(sessions as u32)
    } else {
        Err(TraceFault::Form)
    }
}

/// The steps, each with its answer.
pub fn entries_of<'v, 'a>(row: &'v Json<'a>) -> Result<&'v [Json<'a>], TraceFault>
    ensures { seen (λ values. map view values.now) result ≡ entries_in (view row.now) }
{
    required_list(row, "steps", TraceFault::Form)
}

/// Adds these steps, each with its answer, to a trace.
pub fn add_entries(
    alloc: Global,
    routes: &mut Routes,
    trace: &mut Trace,
    entries: &[Json<'_>],
) -> Result<(), TraceFault>
    ensures { Makes TraceFault.OutOfMemory (taking entry_taken trace.old (map view entries.now)) trace.new result }
{
    for entry in entries {
        add_entry(alloc, routes, trace, entry)?;
    }
    Ok(())
}

fn add_entry(
    alloc: Global,
    routes: &mut Routes,
    trace: &mut Trace,
    entry: &Json<'_>,
) -> Result<(), TraceFault>
    ensures { Makes TraceFault.OutOfMemory (entry_taken trace.old (view entry.now)) trace.new result }
{
    let (row, value) = two_of(entry)?;
    let answer = read_answer(alloc, value)?;
    add_step(alloc, routes, trace, row, answer)
}

/// Adds this step, with its answer.
fn add_step(
    alloc: Global,
    routes: &mut Routes,
    trace: &mut Trace,
    row: &Json<'_>,
    answer: Option<Option<Shown>>,
) -> Result<(), TraceFault>
    ensures { Makes TraceFault.OutOfMemory (step_taken trace.old answer (view row.now)) trace.new result }
{
    let step = read_step(alloc, routes, trace.sessions(), row);
    trace.add_read(step, answer)
}

/// The two values that a list of two has.
fn two_of<'v, 'a>(entry: &'v Json<'a>) -> Result<(&'v Json<'a>, &'v Json<'a>), TraceFault>
    ensures { seen (λ two. (view two.0.now, view two.1.now)) result ≡ two_of (as_list (view entry.now)) }
{
    let Some(values) = entry.as_array() else {
        return Err(TraceFault::Form);
    };
    let Some((one, values)) = values.split_first() else {
        return Err(TraceFault::Form);
    };
    let Some((other, values)) = values.split_first() else {
        return Err(TraceFault::Form);
    };
    match values.split_first() {
        None => Ok((one, other)),
        Some(_) => Err(TraceFault::Form),
    }
}
