// What operations share: the faults that come first, and the pages of listings.
ghost use Rattle.std.specs.Prelude.{◌≡◌, IfOk, IsTrue, drop, length, map, take};
ghost use Rattle.serde_json.specs.Written.{compact_text};
ghost use Rattle.af_base.specs.Readings.{seen};
ghost use Rattle.af_listing.specs.Pages.{cut};
ghost use Rattle.af_ops.specs.Effects.{dag_or, input_fault, input_or, run_or, window_or};
ghost use Rattle.af_ops.specs.Fields.{listing_of, object_of};
ghost use Rattle.af_ops.specs.Listings.{read_rows};
ghost use Rattle.af_ops.specs.Texts.{is_name};

use crate::answer::OpFault;
use crate::backfill::Backfill;
use crate::body_fault::BodyFault;
use crate::clear::Clear;
use crate::row::{Row, rows_text};
use crate::trigger::Trigger;
use af_listing::Window;
use af_names::{DagId, NamesDag, RunId};
use af_policy::{Parameter, Reader};
use af_runs::{Mark, Run};
use af_sched::{DagRow, State};
use std::alloc::{AllocError, Global};

/// The DAG of an id.
pub(crate) fn dag_or<'a>(state: &'a State, dag_id: &DagId) -> Result<&'a DagRow, OpFault>
    ensures { seen (λ row. row.now) result ≡ dag_or state.now.rows dag_id.now }
{
    state.dag(dag_id).ok_or(OpFault::NoSuchDag)
}

/// The run of two ids.
pub(crate) fn run_or<'a>(
    state: &'a State,
    dag_id: &DagId,
    run_id: &RunId,
) -> Result<&'a Run, OpFault>
    ensures { seen (λ run. run.now) result ≡ run_or state.now.rows dag_id.now run_id.now }
{
    state.run(dag_id, run_id).ok_or(OpFault::NoSuchRun)
}

/// What was read of a body that triggers a run.
pub(crate) fn trigger_or(input: &Result<Trigger, BodyFault>) -> Result<&Trigger, OpFault>
    ensures { seen (λ asked. asked.now) result ≡ input_or input.now }
{
    match input {
        Ok(asked) => Ok(asked),
        Err(why) => Err(input_fault(*why)),
    }
}

/// The truth value that was read of a body.
pub(crate) fn truth_or(input: &Result<bool, BodyFault>) -> Result<bool, OpFault>
    ensures { result ≡ input_or input.now }
{
    match input {
        Ok(truth) => Ok(*truth),
        Err(why) => Err(input_fault(*why)),
    }
}

/// What was read of a body that marks a run.
pub(crate) fn mark_or(input: &Result<Mark, BodyFault>) -> Result<Mark, OpFault>
    ensures { result ≡ input_or input.now }
{
    match input {
        Ok(mark) => Ok(*mark),
        Err(why) => Err(input_fault(*why)),
    }
}

/// The range of dates that was read of a body.
pub(crate) fn backfill_or(input: &Result<Backfill, BodyFault>) -> Result<&Backfill, OpFault>
    ensures { seen (λ asked. asked.now) result ≡ input_or input.now }
{
    match input {
        Ok(asked) => Ok(asked),
        Err(why) => Err(input_fault(*why)),
    }
}

/// What was read of a body that clears instances.
pub(crate) fn clear_or(input: &Result<Clear, BodyFault>) -> Result<&Clear, OpFault>
    ensures { seen (λ asked. asked.now) result ≡ input_or input.now }
{
    match input {
        Ok(asked) => Ok(asked),
        Err(why) => Err(input_fault(*why)),
    }
}

/// The window that was read of a query.
pub(crate) fn window_or(asked: &Result<Window, Parameter>) -> Result<Window, OpFault>
    ensures { result ≡ window_or asked.now }
{
    match asked {
        Ok(window) => Ok(*window),
        Err(parameter) => Err(OpFault::BadParameter(*parameter)),
    }
}

pub(crate) fn input_fault(why: BodyFault) -> OpFault
    ensures { result ≡ input_fault why }
{
    match why {
        BodyFault::BadBody => OpFault::BadBody,
        BodyFault::BadMember(it) => OpFault::BadMember(it),
        BodyFault::OutOfMemory => OpFault::OutOfMemory,
    }
}

/// The rows whose DAG is read, borrowed, in their order. `AllocError` only where a growth was refused.
pub(crate) fn rows_read<'a, T: NamesDag, R: Reader>(
    alloc: Global,
    rows: &'a [T],
    reader: &R,
) -> Result<Vec<&'a T>, AllocError>
    ensures { IfOk result (λ listed. map (λ row. row.now) listed.items ≡ read_rows (R.reads reader.now).dags T.dag rows.now) }
{
    rows.iter()
        .filter(|row| reader.readable((*row).dag_id()))
        .collect(alloc)
}

/// The text of a page of rows that are all shown. No other row is looked at. `AllocError` only where a growth was refused.
pub(crate) fn page_text<T: Row>(
    alloc: Global,
    name: &str,
    rows: &[T],
    window: Window,
) -> Result<Vec<u8>, AllocError>
    requires { IsTrue (is_name name.now) }
    ensures { IfOk result (λ body. body.items ≡ compact_text (listing_of name.now (map (λ row. object_of (T.fields row)) (cut window rows.now)) (length rows.now))) }
{
    rows_text(alloc, name, cut(rows, window), rows.len())
}

/// The rows of a page, of those that are shown.
pub(crate) fn cut<T>(rows: &[T], window: Window) -> &[T]
    ensures { result.now ≡ cut window rows.now }
{
    page(rows, window.limit(), window.offset())
}

/// At most so many rows, after so many.
fn page<T>(rows: &[T], limit: usize, offset: usize) -> &[T]
    ensures { result.now ≡ take limit (drop offset rows.now) }
{
    let rest = &rows[offset.min(rows.len())..];
    &rest[..limit.min(rest.len())]
}
