// The line that comes next, of a record.
ghost use Rattle.std.specs.Prelude.{◌≡◌, IfOk, string_bytes, Ok};
ghost use Rattle.af_base.specs.Readings.{OrMemory, seen};
ghost use Rattle.af_journal.specs.Lines.{entry_of};
ghost use Rattle.af_store.specs.Chains.{chained, mark_of};
ghost use Rattle.af_store.specs.OpeningLines.{opening_body, opening_of};
ghost use Rattle.af_book.specs.Books.{IsNext, after, opened, opening_line};
ghost use Rattle.af_book.specs.Groups.{change_taken, entry_taken};

use crate::group_fault::GroupFault;
use crate::place::Place;
use crate::record::Record;
use af_audit::Entry;
use af_journal::Line;
use af_names::UserName;
use af_policy::Change;
use af_store::{Chain, LineKind, change_body, entry_body, opening_body};
use std::alloc::{AllocError, Global};

/// The line of this kind and this body, with its mark, and the chain with it.
pub(crate) fn chained_line(
    alloc: Global,
    before: &Chain,
    kind: LineKind,
    body: String,
) -> Result<(Line, Chain), AllocError>
    ensures line { IfOk result (λ r. entry_of r.0 ≡ (mark_of before.now (string_bytes body) kind, string_bytes body)) }
    ensures chain { IfOk result (λ r. r.1 ≡ chained before.now (record { kind = kind; body = string_bytes body })) }
{
    let chain = before.with(kind, body.as_str());
    let mark = chain.mark(alloc, kind)?;
    Ok((Line { kind: mark, body }, chain))
}

/// The line of an entry after a place, and the place after it.
pub(crate) fn entry_line(
    alloc: Global,
    from: &Place,
    entry: &Entry,
) -> Result<(Line, Place), GroupFault>
    ensures taken { OrMemory GroupFault.OutOfMemory (entry_taken from.now.entries from.now.changes entry.now) (seen (λ _. tt) result) }
    ensures line { IfOk result (λ r. IsNext from.now (entry_of r.0) (Record.Entry entry.now)) }
    ensures place { IfOk result (λ r. r.1 ≡ after from.now (entry_of r.0).1 (Record.Entry entry.now)) }
{
    if !from.is_before(entry) {
        return Err(GroupFault::OutOfOrder);
    }
    let body = entry_body(alloc, entry)?;
    let (line, chain) = chained_line(alloc, &from.chain, LineKind::Entry, body)?;
    let place = Place {
        chain,
        entries: entry.seq,
        changes: from.changes,
    };
    Ok((line, place))
}

/// The line of a change after a place, and the place after it.
pub(crate) fn change_line(
    alloc: Global,
    from: &Place,
    by: &UserName,
    change: &Change,
) -> Result<(Line, Place), GroupFault>
    ensures taken { OrMemory GroupFault.OutOfMemory (change_taken from.now.changes) (seen (λ _. tt) result) }
    ensures line { IfOk result (λ r. IsNext from.now (entry_of r.0) (Record.Change (record { by = by.now; change = change.now }))) }
    ensures place { IfOk result (λ r. r.1 ≡ after from.now (entry_of r.0).1 (Record.Change (record { by = by.now; change = change.now }))) }
{
    if from.changes == u32::MAX {
        return Err(GroupFault::TooMany);
    }
    let body = change_body(alloc, by, change)?;
    let (line, chain) = chained_line(alloc, &from.chain, LineKind::Change, body)?;
    let place = Place {
        chain,
        entries: from.entries,
        changes: from.changes + 1,
    };
    Ok((line, place))
}

/// The line that opens a book with this configuration, and the place after it.
pub(crate) fn opening_line(alloc: Global, config: &str) -> Result<(Line, Place), AllocError>
    ensures line { IfOk result (λ r. entry_of r.0 ≡ opening_line config.now) }
    ensures place { IfOk result (λ r. r.1 ≡ opened config.now) }
    ensures read_back { IfOk result (λ _. opening_of (opening_body config.now) ≡ Ok config.now) }
{
    let body = opening_body(alloc, config)?;
    let (line, chain) = chained_line(alloc, &Chain::start(), LineKind::Opened, body)?;
    let place = Place {
        chain,
        entries: 0,
        changes: 0,
    };
    Ok((line, place))
}
