//! Plays rows on a server for one thread. Who owns a server, a call or what is told lends it, and hands it to `drop`, which is proved once,
//! and not at each way out.
use crate::tests::plane::calls::{Asked, call};
use crate::tests::plane::told::{Row, is_told};
use crate::tests::plane::users::token;
use af_audit::Presented;
use af_names::Instant;
use af_ops::{Method, Served, Status, route_of};
use af_plane::{Grounds, Request, Session, Solo};
use std::alloc::Global;
use std::sync::Wait;
use std::test::Fail;

/// Whether a row says that a version was made.
fn is_made(row: Row) -> bool {
    let ((_, endpoint, _, _), status, (_, seq), _) = row;
    let is_done = status == Status::Ok || status == Status::NoContent;
    is_done && seq.is_none() && route_of(endpoint).method != Method::Get
}

/// Whether a session holds the receipt of a change that made this version of the one before.
fn has_receipt(session: &Session, version: u32) -> bool {
    match session.grounds() {
        Grounds::Made(receipt) => {
            receipt.mark().version() == version
                && version.checked_sub(1) == Some(receipt.base().version())
        }
        _ => false,
    }
}

/// Whether a session has seen the version that a row says, and holds its mark; where the row says that it was made, with the receipt.
fn holds(session: &Session, row: Row) -> bool {
    let (_, _, (version, _), _) = row;
    match version {
        Some(version) => {
            session.seen().0 == version
                && session.mark().version() == version
                && has_receipt(session, version) == is_made(row)
        }
        None => true,
    }
}

/// What is answered to a call, a microsecond after 2024 begins.
pub fn answer(
    rt: &impl Wait,
    alloc: Global,
    solo: &mut Solo,
    asked: Asked,
) -> Result<Served, Fail> {
    let at = Instant::read("2024-01-01T00:00:00.000001Z")?;
    let call = call(alloc, asked)?;
    let presented = Presented::of(token(asked.0));
    let request = Request {
        token: presented.as_ref(),
        call: &call,
        at,
    };
    let gave = solo.answer(rt, alloc, &request);
    drop(call);
    Ok(gave)
}

/// Whether a call is answered as its row says.
fn goes(rt: &impl Wait, alloc: Global, solo: &mut Solo, row: Row) -> Result<bool, Fail> {
    let gave = answer(rt, alloc, solo, row.0)?;
    let is_told = is_told(&gave, row);
    drop(gave);
    Ok(is_told? && holds(solo.session(), row))
}

/// How many calls are answered as their rows say, up to the first that is not.
pub fn answered(
    rt: &impl Wait,
    alloc: Global,
    solo: &mut Solo,
    rows: &[Row],
) -> Result<usize, Fail> {
    for (place, row) in rows.iter().enumerate() {
        if !goes(rt, alloc, solo, *row)? {
            return Ok(place);
        }
    }
    Ok(rows.len())
}
