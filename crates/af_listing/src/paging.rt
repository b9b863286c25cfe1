ghost use Rattle.std.specs.Prelude.{◌≡◌, IfOk, true};
ghost use Rattle.af_listing.specs.Pages.{page_of, shows_row};

use crate::{Listed, Page, Window};
use af_policy::Reader;
use std::alloc::{AllocError, Global};

/// The page of a list for a reader, who is shown the rows whose DAG is read and those that name none; and the rows of runs, and of
/// instances, where the runs of their DAG are read too. For a reader of all it is cut of the list itself, and takes as long as the page has
/// rows; else the list is gone through once. Memory is taken for the page's places alone. `AllocError` only where a growth was refused.
pub fn page<T: Listed, R: Reader>(
    alloc: Global,
    rows: &[T],
    reader: &R,
    window: Window,
) -> Result<Page, AllocError>
    ensures { IfOk result (λ page. page ≡ page_of (shows_row (R.reads reader.now) T.named T.of_run) window rows.now) }
{
    if shows_all::<T, R>(reader) {
        let page = Page::of_all(alloc, rows.len(), window)?;
        return Ok(page);
    }
    shown_page(alloc, rows, reader, window)
}

/// Whether a reader is shown each row, whatever DAG it names. False says nothing.
fn shows_all<T: Listed, R: Reader>(reader: &R) -> bool
    ensures { result ≡ true → (row : T) → shows_row (R.reads reader.now) T.named T.of_run row ≡ true }
{
    if T::has_runs() && !reader.reads_all_runs() {
        return false;
    }
    reader.reads_all()
}

/// The page of the rows that are shown, each row looked at.
fn shown_page<T: Listed, R: Reader>(
    alloc: Global,
    rows: &[T],
    reader: &R,
    window: Window,
) -> Result<Page, AllocError>
    ensures { IfOk result (λ page. page ≡ page_of (shows_row (R.reads reader.now) T.named T.of_run) window rows.now) }
{
    let mut page = Page::empty(alloc);
    for (place, row) in rows.iter().enumerate() {
        page.see(place, is_shown(row, reader), window)?;
    }
    Ok(page)
}

/// Whether a row is shown to a reader.
fn is_shown<T: Listed, R: Reader>(row: &T, reader: &R) -> bool
    ensures { result ≡ shows_row (R.reads reader.now) T.named T.of_run row.now }
{
    match row.dag() {
        Some(dag) => reader.readable(dag) && (!row.of_run() || reader.runs_readable(dag)),
        None => true,
    }
}
