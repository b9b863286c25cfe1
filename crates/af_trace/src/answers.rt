// Reading the answer to a step.
ghost use Rattle.std.specs.Prelude.{◌≡◌, IfOk};
ghost use Rattle.af_base.specs.JsonValue.{view};
ghost use Rattle.af_base.specs.Readings.{OrMemory};
ghost use Rattle.af_trace.specs.declared.trace_fault.TraceFault.{TraceFault};
ghost use Rattle.af_trace.specs.Answers.{answer_in, answer_of, content_of, numbers_in, or_none, short, shown_in, status_of};

use crate::members::{count, optional_count, text};
use crate::trace_fault::TraceFault;
use af_base::Json;
use af_ops::{Body, Shown, Status};
use std::alloc::{AllocError, Global};

/// Every status that an answer has.
const STATUSES: [Status; 14] = [
    Status::Ok,
    Status::NoContent,
    Status::BadRequest,
    Status::Unauthorized,
    Status::Forbidden,
    Status::NotFound,
    Status::MethodNotAllowed,
    Status::Conflict,
    Status::ContentTooLarge,
    Status::HeadTooLarge,
    Status::InternalError,
    Status::NotImplemented,
    Status::Unavailable,
    Status::InsufficientStorage,
];

/// The numbers of an answer: its status, and the version and the number of entries that it names.
#[derive(Clone, Copy)]
pub struct Numbers {
    pub status: u64,
    pub version: Option<u64>,
    pub seq: Option<u64>,
}

/// Reads an answer: null where the step gives none. None where it is an answer that nothing gives.
pub fn read_answer(alloc: Global, value: &Json<'_>) -> Result<Option<Option<Shown>>, TraceFault>
    ensures { OrMemory TraceFault.OutOfMemory (answer_in (view value.now)) result }
{
    if value.is_null() {
        return Ok(Some(None));
    }
    let answer = read_shown(alloc, value)?;
    Ok(or_none(answer))
}

fn or_none(answer: Option<Shown>) -> Option<Option<Shown>>
    ensures { result ≡ or_none answer }
{
    match answer {
        Some(shown) => Some(Some(shown)),
        None => None,
    }
}

fn read_shown(alloc: Global, row: &Json<'_>) -> Result<Option<Shown>, TraceFault>
    ensures { OrMemory TraceFault.OutOfMemory (shown_in (view row.now)) result }
{
    let numbers = read_numbers(row)?;
    let text = text(row, "body")?;
    Ok(answer_of(alloc, numbers, text)?)
}

fn read_numbers(row: &Json<'_>) -> Result<Numbers, TraceFault>
    ensures { result ≡ numbers_in (view row.now) }
{
    let status = count(row, "status")?;
    let version = optional_count(row, "version")?;
    let seq = optional_count(row, "seq")?;
    Ok(Numbers {
        status,
        version,
        seq,
    })
}

/// The answer that is recorded by these numbers and this text, if it is one that may be given.
fn answer_of(alloc: Global, numbers: Numbers, text: &str) -> Result<Option<Shown>, AllocError>
    ensures { IfOk result (λ answer. answer ≡ answer_of numbers text.now) }
{
    let Some(status) = status_of(numbers.status) else {
        return Ok(None);
    };
    let Some(version) = short(numbers.version) else {
        return Ok(None);
    };
    let Some(seq) = short(numbers.seq) else {
        return Ok(None);
    };
    let body = content_of(alloc, status, text)?;
    Ok(Some(Shown {
        status,
        version,
        seq,
        body,
    }))
}

/// The status of a number.
fn status_of(number: u64) -> Option<Status>
    ensures { result ≡ status_of number }
{
    STATUSES
        .iter()
        .copied()
        .find(|status| u64::from(status.code()) == number)
}

/// A number of 32 bits, where there is one.
fn short(number: Option<u64>) -> Option<Option<u32>>
    ensures { result ≡ short number }
{
    match number {
        None => Some(None),
        Some(number) if number <= u64::from(u32::MAX) => Some(Some(number as u32)),
        Some(_) => None,
    }
}

/// The content of an answer of this status.
fn content_of(alloc: Global, status: Status, text: &str) -> Result<Option<Body>, AllocError>
    ensures { IfOk result (λ content. content ≡ content_of status text.now) }
{
    if text.is_empty() && status.code() == 204 {
        return Ok(None);
    }
    let bytes = Vec::from_slice(alloc, text.as_bytes())?;
    Ok(Some(Body::of(bytes)))
}
