//! What comes of a request for which there may be no memory.
use crate::tests::plane::asserts::holds;
use crate::tests::plane::memory::same::is_same;
use crate::tests::plane::opening::{Dags, state};
use crate::tests::plane::told::{Row, is_shown};
use af_audit::replay;
use af_ops::Served;
use af_plane::Plane;
use std::alloc::Global;
use std::process::Abort;
use std::test::Fail;

/// What comes of a request.
#[derive(Clone, Copy, PartialEq, Eq)]
pub enum Outcome {
    /// It is told what its row says.
    Told,
    /// There was no memory, and nothing is done.
    NothingDone,
    Other,
}

/// What came of the request of a row.
pub fn outcome_of(gave: &Served, row: Row) -> Outcome {
    match gave {
        Served::Shown(shown) if is_shown(shown, row) => Outcome::Told,
        Served::Shown(_) => Outcome::Other,
        Served::NothingDone => Outcome::NothingDone,
    }
}

/// What is told, where memory may have been refused before. It is refused once a run: where it was, there is memory for all that comes then, and
/// an error ends the test, in words that do not say that memory was missed.
pub fn once_refused<T>(
    rt: &impl Abort,
    was_refused: bool,
    told: Result<T, Fail>,
) -> Result<T, Fail> {
    holds(rt, told.is_ok() || !was_refused, "an error after a refusal");
    told
}

/// Whether the entries of a plane make its state of these DAGs, with which it opened.
pub fn is_replay(alloc: Global, plane: &Plane, dags: Dags) -> Result<bool, Fail> {
    let again = replay(alloc, state(alloc, dags)?, plane.ledger().audit().entries())?;
    let is_same = is_same(&again, plane.ledger().state());
    drop(again);
    Ok(is_same)
}
