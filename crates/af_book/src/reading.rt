// The lines of a journal, read as records one after another.
ghost use Rattle.std.specs.Prelude.{◌≡◌, IfErr, IfNone, IfOk, IfSome};
ghost use Rattle.af_journal.specs.Lines.{entries_of, entry_of};
ghost use Rattle.af_book.specs.Books.{IsNext, Leads, Reaches, after, opened, opening_line};
ghost use Rattle.af_book.specs.Reads.{HasMark, IsWrong, IsWrongAfter, Opens, OpensAgain, OpensNothing, Says, WrongFrom};
ghost use Rattle.af_book.specs.Records.{saying};
ghost use Rattle.af_store.specs.Lines.{line_of};

use crate::book_fault::BookFault;
use crate::place::Place;
use crate::record::Record;
use af_journal::Line;
use af_store::laws::{
    marks_are_taken, nothing_else_is_a_mark, nothing_else_opens, openings_are_read_back,
};
use af_store::{Chain, ChangeLine, LineFault, LineKind, Opening, read_entry};
use std::alloc::Global;

/// The kind of the line, by its mark.
fn kind_of(alloc: Global, from: &Place, line: &Line) -> Result<LineKind, BookFault>
    ensures mark { IfOk result (λ kind. HasMark from.now (entry_of line.now) kind) }
    ensures wrong { IfErr result (IsWrongAfter from.now (entry_of line.now)) }
{
    marks_are_taken();
    nothing_else_is_a_mark();
    match from
        .chain
        .kind_of(alloc, line.kind.as_str(), line.body.as_str())
    {
        Ok(kind) => Ok(kind),
        Err(LineFault::NotALine) => Err(BookFault::Changed(from.next_number())),
        Err(LineFault::OutOfMemory) => Err(BookFault::OutOfMemory),
    }
}

/// The record that the line says by its mark, or none where it opens a book.
fn record_said(alloc: Global, from: &Place, line: &Line) -> Result<Option<Record>, BookFault>
    ensures some { IfOk result (λ found. IfSome found (λ it. Says from.now (entry_of line.now) (saying it))) }
    ensures none { IfOk result (λ found. IfNone found (OpensAgain from.now (entry_of line.now))) }
    ensures wrong { IfErr result (IsWrongAfter from.now (entry_of line.now)) }
{
    let kind = kind_of(alloc, from, line)?;
    match record_of(alloc, kind, line.body.as_str()) {
        Ok(found) => Ok(found),
        Err(LineFault::NotALine) => Err(BookFault::NotALine(from.next_number())),
        Err(LineFault::OutOfMemory) => Err(BookFault::OutOfMemory),
    }
}

/// The record that a line of this kind and this body says, or none where it opens a book.
fn record_of(alloc: Global, kind: LineKind, body: &str) -> Result<Option<Record>, LineFault>
    ensures some { IfOk result (λ found. IfSome found (λ it. line_of kind body.now ≡ Ok (saying it))) }
    ensures none { IfOk result (λ found. IfNone found (Opens kind body.now)) }
    ensures wrong { result ≡ Err LineFault.NotALine → line_of kind body.now ≡ Err LineFault.NotALine }
{
    match kind {
        LineKind::Opened => {
            let _opening = Opening::read(alloc, body)?;
            Ok(None)
        }
        LineKind::Entry => Ok(Some(Record::Entry(read_entry(alloc, body)?))),
        LineKind::Change => Ok(Some(Record::Change(ChangeLine::read(alloc, body)?))),
    }
}

/// The record that a line says, and the place after it.
fn next_record(alloc: Global, from: &Place, line: &Line) -> Result<(Record, Place), BookFault>
    ensures next { IfOk result (λ r. IsNext from.now (entry_of line.now) r.0) }
    ensures place { IfOk result (λ r. r.1 ≡ after from.now (entry_of line.now).1 r.0) }
    ensures wrong { IfErr result (IsWrongAfter from.now (entry_of line.now)) }
{
    let Some(found) = record_said(alloc, from, line)? else {
        return Err(BookFault::OutOfOrder(from.next_number()));
    };
    if !from.is_followed_by(&found) {
        return Err(BookFault::OutOfOrder(from.next_number()));
    }
    let place = from.with(line.body.as_str(), &found);
    Ok((found, place))
}

/// The records that lines say from a place on, and the place after them.
fn read_records(
    alloc: Global,
    from: Place,
    lines: &[Line],
) -> Result<(Vec<Record>, Place), BookFault>
    ensures leads { IfOk result (λ r. Leads from (entries_of lines.now) r.0.items r.1) }
    ensures wrong { IfErr result (WrongFrom from (entries_of lines.now)) }
{
    let mut records = Vec::new(alloc);
    let mut place = from;
    for line in lines {
        let (record, next) = next_record(alloc, &place, line)?;
        records.push(record)?;
        place = next;
    }
    Ok((records, place))
}

/// The configuration with which this line opens a book, and the place after it.
fn read_opening(alloc: Global, line: &Line) -> Result<(Opening, Place), BookFault>
    ensures opens { IfOk result (λ r. entry_of line.now ≡ opening_line r.0) }
    ensures place { IfOk result (λ r. r.1 ≡ opened r.0) }
    ensures wrong { IfErr result (OpensNothing (entry_of line.now)) }
{
    marks_are_taken();
    nothing_else_is_a_mark();
    openings_are_read_back();
    nothing_else_opens();
    let start = Chain::start();
    match start.kind_of(alloc, line.kind.as_str(), line.body.as_str()) {
        Ok(LineKind::Opened) => {}
        Err(LineFault::OutOfMemory) => return Err(BookFault::OutOfMemory),
        _ => return Err(BookFault::NoOpening),
    }
    let opening = match Opening::read(alloc, line.body.as_str()) {
        Ok(opening) => opening,
        Err(LineFault::NotALine) => return Err(BookFault::NoOpening),
        Err(LineFault::OutOfMemory) => return Err(BookFault::OutOfMemory),
    };
    let place = Place {
        chain: start.with(LineKind::Opened, line.body.as_str()),
        entries: 0,
        changes: 0,
    };
    Ok((opening, place))
}

/// The configuration and the records of a book that has these lines, and the place after the last.
pub(crate) fn read_book(
    alloc: Global,
    lines: &[Line],
) -> Result<(Opening, Vec<Record>, Place), BookFault>
    ensures reaches { IfOk result (λ r. Reaches (entries_of lines.now) r.0 r.1.items r.2) }
    ensures wrong { IfErr result (IsWrong (entries_of lines.now)) }
{
    let Some((first, rest)) = lines.split_first() else {
        return Err(BookFault::NoOpening);
    };
    let (opening, from) = read_opening(alloc, first)?;
    let (records, end) = read_records(alloc, from, rest)?;
    Ok((opening, records, end))
}
