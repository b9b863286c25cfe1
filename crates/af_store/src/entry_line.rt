ghost use Rattle.std.specs.Prelude.{◌≡◌, IfOk, Ok, string_bytes};
ghost use Rattle.af_base.specs.Readings.{OrMemory, seen};
ghost use Rattle.af_store.specs.EntryLines.{entry_body};
ghost use Rattle.af_store.specs.EntryReads.{entry_of, if_told_as};

use crate::entry_facts::show_entry;
use crate::entry_reading;
use crate::entry_telling::entry_text;
use crate::line_fault::LineFault;
use crate::row::row_of;
use af_audit::Entry;
use json::Scratch;
use std::alloc::Global;

/// The body of the line that tells an entry. `NotALine` exactly where no line tells it: its act is not its actor's, or one that changes nothing,
/// as one that only reads, or whose body is faulty; `OutOfMemory` only where a growth was refused.
pub fn entry_body(alloc: Global, entry: &Entry) -> Result<String, LineFault>
    ensures told { OrMemory LineFault.OutOfMemory (entry_body entry.now) (seen (λ text. string_bytes text) result) }
    ensures read_back { IfOk result (λ text. entry_of (string_bytes text) ≡ Ok entry.now) }
{
    show_entry(entry);
    let text = entry_text(alloc, entry)?;
    Ok(text)
}

/// The entry of which this is the body. `NotALine` exactly where it is that of none; `OutOfMemory` only where a growth was refused.
pub fn read_entry(alloc: Global, body: &str) -> Result<Entry, LineFault>
    ensures { OrMemory LineFault.OutOfMemory (entry_of body.now) result }
{
    let mut scratch = Scratch::new(alloc);
    let row = row_of(alloc, body, &mut scratch)?;
    let entry = entry_reading::read_entry(alloc, &row)?;
    told_as(alloc, entry, body)
}

/// The entry, if this is its body.
fn told_as(alloc: Global, entry: Entry, body: &str) -> Result<Entry, LineFault>
    ensures { OrMemory LineFault.OutOfMemory (if_told_as body.now entry) result }
{
    let told = entry_text(alloc, &entry)?;
    if told.as_str() == body {
        Ok(entry)
    } else {
        Err(LineFault::NotALine)
    }
}
