// What asks for a backfill, and how a request's body says it.
ghost use Rattle.std.specs.Prelude.{◌≡◌};
ghost use Rattle.af_base.specs.JsonValue.{view};
ghost use Rattle.af_base.specs.Readings.{OrMemory};
ghost use Rattle.af_ops.specs.Bodies.{backfill_in, in_order, instant_in, required_in};

use crate::bodies::body_in;
use crate::body_fault::{BodyFault, Member};
use crate::member_name::name_of;
use af_base::{Json, member};
use af_names::Instant;
use json::Scratch;
use std::alloc::Global;

/// The range of dates for whose points a DAG is to have runs, both ends included.
#[derive(Clone, Copy, Debug, PartialEq, Eq)]
pub struct Backfill {
    pub start_date: Instant,
    pub end_date: Instant,
}

/// Reads the range of a backfill. The first fault decides: `BadBody` where the bytes are no JSON object, then `BadMember` where
/// `start_date` is no instant, and where `end_date` is none or comes before it; `OutOfMemory` only where a growth was refused.
pub fn read_backfill(
    alloc: Global,
    bytes: &[u8],
    scratch: &mut Scratch,
) -> Result<Backfill, BodyFault>
    ensures { OrMemory BodyFault.OutOfMemory (backfill_in bytes.now) result }
{
    let body = body_in(alloc, bytes, scratch)?;
    let start_date = required_instant(&body, Member::StartDate)?;
    let end_date = required_instant(&body, Member::EndDate)?;
    in_order(start_date, end_date)
}

/// An instant, which has to be there.
fn required_instant(body: &Json<'_>, it: Member) -> Result<Instant, BodyFault>
    ensures { result ≡ required_in instant_in it (view body.now) }
{
    match member(body, name_of(it)) {
        Some(value) => instant_in(value).ok_or(BodyFault::BadMember(it)),
        None => Err(BodyFault::BadMember(it)),
    }
}

/// The instant that a text is.
fn instant_in(value: &Json<'_>) -> Option<Instant>
    ensures { result ≡ instant_in (view value.now) }
{
    let text = value.as_str()?;
    Instant::read(text).ok()
}

/// A range that does not end before it begins.
fn in_order(start_date: Instant, end_date: Instant) -> Result<Backfill, BodyFault>
    ensures { result ≡ in_order start_date end_date }
{
    if start_date <= end_date {
        Ok(Backfill {
            start_date,
            end_date,
        })
    } else {
        Err(BodyFault::BadMember(Member::EndDate))
    }
}
