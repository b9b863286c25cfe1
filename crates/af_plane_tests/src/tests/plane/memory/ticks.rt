//! A tick at which the run of a month is due.
use crate::tests::plane::asserts::holds;
use crate::tests::plane::memory::due::{OF_FEBRUARY, has_made, is_at};
use crate::tests::plane::memory::outcome::{is_replay, once_refused};
use crate::tests::plane::opening::{Dags, MONTHLY, opened};
use crate::tests::plane::users::OF_PLANES;
use af_audit::AuditFault;
use af_names::Instant;
use af_plane::{Parts, Plane};
use std::alloc::Global;
use std::process::Abort;
use std::test::*;

/// Whether a tick changes the state, its moment, and how many entries there then are.
type Row = (bool, &'static str, u32);

/// The last microsecond of February.
const BEFORE: &[Row] = &[(false, "2024-02-29T23:59:59.999999Z", 0)];

const MARCH: &str = "2024-03-01T00:00:00Z";

/// After a tick that made the run there is no other.
const MADE: &[Row] = &[(false, MARCH, 1)];

/// After a tick that made none, for want of memory, the next one makes it.
const NOT_MADE: &[Row] = &[(true, MARCH, 1), (false, MARCH, 1)];

/// A plane with a DAG that is due each month.
fn make_plane(alloc: Global) -> Result<Plane, Fail> {
    let (policy, state) = opened(alloc, OF_PLANES, Dags::AndDue(MONTHLY))?;
    let (board, plane) = Parts::open(alloc, policy, 9, state, 1_000_000)?.apart();
    drop(board);
    Ok(plane)
}

/// Whether a tick goes as its row says.
fn goes_row(alloc: Global, plane: &mut Plane, row: Row) -> Result<bool, Fail> {
    let at = Instant::read(row.1)?;
    let changes = plane.tick(alloc, at)?;
    Ok(changes == row.0 && plane.ledger().audit().count() == row.2)
}

/// How many of these ticks go as they say, up to the first that does not.
fn played(alloc: Global, plane: &mut Plane, rows: &[Row]) -> Result<usize, Fail> {
    for (place, row) in rows.iter().enumerate() {
        if !goes_row(alloc, plane, *row)? {
            return Ok(place);
        }
    }
    Ok(rows.len())
}

/// Whether nothing is done yet: there is no run and no entry, and the cursor is where it was.
fn is_untouched(plane: &Plane) -> Result<bool, Fail> {
    let has_none = plane.ledger().state().runs().is_empty();
    let count = plane.ledger().audit().count();
    Ok(is_at(plane, "2024-02-01T00:00:00Z")? && has_none && count == 0)
}

/// Whether the run of February is made, and the cursor is a month later.
fn is_made(plane: &Plane) -> Result<bool, Fail> {
    let has_made = has_made(plane, OF_FEBRUARY)?;
    Ok(is_at(plane, OF_FEBRUARY.2)? && has_made)
}

/// Whether these rows go as they say, the run of February is then made, and the entries make the state.
fn goes_on(alloc: Global, plane: &mut Plane, rows: &[Row]) -> Result<bool, Fail> {
    let told = played(alloc, plane, rows)?;
    let is_made = is_made(plane)?;
    let is_replay = is_replay(alloc, plane, Dags::AndDue(MONTHLY))?;
    Ok(told == rows.len() && is_made && is_replay)
}

/// Whether the run is made once.
fn stands_made(alloc: Global, plane: &mut Plane) -> Result<bool, Fail> {
    let is_made = is_made(plane)?;
    Ok(is_made && goes_on(alloc, plane, MADE)?)
}

/// Whether nothing is done yet, and the run is made then.
fn stands_not_made(alloc: Global, plane: &mut Plane) -> Result<bool, Fail> {
    let is_untouched = is_untouched(plane)?;
    Ok(is_untouched && goes_on(alloc, plane, NOT_MADE)?)
}

/// Whether the tick in March makes the run of February, or leaves all as it was.
fn ticks(rt: &impl Abort, alloc: Global, plane: &mut Plane) -> Result<bool, Fail> {
    let march = Instant::read(MARCH)?;
    match plane.tick(alloc, march) {
        Ok(true) => stands_made(alloc, plane),
        Err(AuditFault::OutOfMemory) => once_refused(rt, true, stands_not_made(alloc, plane)),
        _ => Ok(false),
    }
}

/// Whether a plane on which nothing is due before March goes so.
fn goes(rt: &impl Abort, alloc: Global, plane: &mut Plane) -> Result<bool, Fail> {
    let told = played(alloc, plane, BEFORE)?;
    Ok(told == BEFORE.len() && ticks(rt, alloc, plane)?)
}

#[test]
fn a_month_is_made_or_nothing_is_done(rt: HostRuntime) -> Result<(), Fail> {
    let mut plane = make_plane(rt.alloc())?;
    let goes = goes(&rt, rt.alloc(), &mut plane);
    drop(plane);
    holds(&rt, goes?, "what stands after a tick");
    Ok(())
}
