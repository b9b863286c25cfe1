// The page of event logs, as it is told.
ghost use Rattle.std.specs.Prelude.{◌≡◌, ◌++◌, [], IfOk, OnOk, map, slice_get};
ghost use Rattle.std.specs.List.{cons_option, filter_map};
ghost use Rattle.std.specs.Option.{option_copied};
ghost use Rattle.serde_json.specs.Written.{compact_text};
ghost use Rattle.af_audit.specs.Logs.{entries_data};

use crate::entry::Entry;
use crate::entry_row::entries_page;
use af_listing::Window;
use af_listing::laws::pages_tell_shown_rows;
use af_ops::listing_text;
use af_policy::Reader;
use std::alloc::{AllocError, Global};

/// The text of the page of event logs that a reader is shown: the entries that the window takes of those that are shown, and how
/// many are shown in all. The list is gone through once, and memory is taken for the page alone. `AllocError` only where a growth
/// was refused.
pub fn entries_text<R: Reader>(
    alloc: Global,
    entries: &[Entry],
    reader: &R,
    window: Window,
) -> Result<Vec<u8>, AllocError>
    ensures { IfOk result (λ text. text.items ≡ compact_text (entries_data (R.reads reader.now).dags window entries.now)) }
{
    pages_tell_shown_rows::<Entry>();
    let page = entries_page(alloc, entries, reader, window)?;
    let told = entries_at(alloc, entries, page.places())?;
    let text = listing_text(alloc, "event_logs", told.as_slice(), page.total())?;
    Ok(text)
}

/// The entries at these places, borrowed. `AllocError` only where a growth was refused.
fn entries_at<'a>(
    alloc: Global,
    entries: &'a [Entry],
    places: &[usize],
) -> Result<Vec<&'a Entry>, AllocError>
    ensures { IfOk result (λ told. map (λ entry. entry.now) told.items ≡ filter_map (slice_get entries.now) places.now) }
{
    let mut told = Vec::with_capacity(alloc, places.len())?;
    for place in places {
        add_found(&mut told, entries.get(*place))?;
    }
    Ok(told)
}

/// Adds an entry, if there is one.
fn add_found<'a>(told: &mut Vec<&'a Entry>, found: Option<&'a Entry>) -> Result<(), AllocError>
    ensures { OnOk result (map (λ entry. entry.now) told.new.items ≡ map (λ entry. entry.now) told.old.items ++ cons_option (option_copied found.entry) []) }
{
    if let Some(entry) = found {
        told.push(entry)?;
    }
    Ok(())
}
