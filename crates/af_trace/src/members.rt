// Reading the members of a trace, of its steps and of its answers.
ghost use Rattle.std.specs.Prelude.{◌≡◌};
ghost use Rattle.af_base.specs.JsonValue.{view};
ghost use Rattle.af_base.specs.Readings.{OrMemory, seen};
ghost use Rattle.af_trace.specs.declared.trace_fault.TraceFault.{TraceFault};
ghost use Rattle.af_trace.specs.Members.{count_in, instant_in, optional_count_in, task_id_in, text_in, token_in, value_in};

use crate::trace_fault::TraceFault;
use af_base::{Json, member, optional_text, required_text};
use af_names::{Instant, NameError, TaskId};
use af_world::Token;
use std::alloc::Global;

/// A member that has to be there.
pub fn value<'v, 'a>(row: &'v Json<'a>, name: &str) -> Result<&'v Json<'a>, TraceFault>
    ensures { seen (λ value. view value.now) result ≡ value_in name.now (view row.now) }
{
    match member(row, name) {
        Some(value) => Ok(value),
        None => Err(TraceFault::Form),
    }
}

/// The text of a member that has to be there.
pub fn text<'a>(row: &Json<'a>, name: &str) -> Result<&'a str, TraceFault>
    ensures { seen (λ text. text.now) result ≡ text_in name.now (view row.now) }
{
    required_text(row, name, TraceFault::Form)
}

/// The integer of a member that has to be there, from 0 on.
pub fn count(row: &Json<'_>, name: &str) -> Result<u64, TraceFault>
    ensures { result ≡ count_in name.now (view row.now) }
{
    match member(row, name) {
        Some(value) => value.as_u64().ok_or(TraceFault::Form),
        None => Err(TraceFault::Form),
    }
}

/// The integer of a member, from 0 on, where it is there.
pub fn optional_count(row: &Json<'_>, name: &str) -> Result<Option<u64>, TraceFault>
    ensures { result ≡ optional_count_in name.now (view row.now) }
{
    let Some(value) = member(row, name) else {
        return Ok(None);
    };
    match value.as_u64() {
        Some(number) => Ok(Some(number)),
        None => Err(TraceFault::Form),
    }
}

/// The instant of a member that has to be there.
pub fn instant(row: &Json<'_>, name: &str) -> Result<Instant, TraceFault>
    ensures { result ≡ instant_in name.now (view row.now) }
{
    let text = text(row, name)?;
    match Instant::read(text) {
        Ok(instant) => Ok(instant),
        Err(_) => Err(TraceFault::Form),
    }
}

/// The id of a task of a member that has to be there.
pub fn task_id(alloc: Global, row: &Json<'_>, name: &str) -> Result<TaskId, TraceFault>
    ensures { OrMemory TraceFault.OutOfMemory (task_id_in name.now (view row.now)) result }
{
    let text = text(row, name)?;
    match TaskId::parse(alloc, text) {
        Ok(id) => Ok(id),
        Err(NameError::OutOfMemory) => Err(TraceFault::OutOfMemory),
        Err(NameError::BadName | NameError::TooLong) => Err(TraceFault::Form),
    }
}

/// The token of a request, where there is one.
pub fn token(alloc: Global, row: &Json<'_>) -> Result<Option<Token>, TraceFault>
    ensures { OrMemory TraceFault.OutOfMemory (token_in (view row.now)) result }
{
    match optional_text(row, "token", TraceFault::Form)? {
        None => Ok(None),
        Some(text) => {
            let bytes = Vec::from_slice(alloc, text.as_bytes())?;
            Ok(Some(Token::of(bytes)))
        }
    }
}
