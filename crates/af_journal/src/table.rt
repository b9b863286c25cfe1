ghost use Rattle.std.specs.Prelude.{◌≡◌, ◌++◌, false, List, length, IsTrue, IfOk, IfErr, OnOk};
ghost use Rattle.sqlite_disk.specs.Disk.{MoreFaults};
ghost use Rattle.sqlite_store.specs.Catalog.{wanted_of};
ghost use Rattle.sqlite_trees.specs.View.{IsClean, IsQuiet};
ghost use Rattle.af_journal.specs.Files.{journal_table};
ghost use Rattle.af_journal.specs.Lines.{Entry, entries_of, HasEntries};
ghost use Rattle.af_journal.specs.Refusal.{only_looks};
ghost use Rattle.af_journal.specs.Rest.{KeepsCommit, IsCause};

use crate::line::{Line, read_row, write_row};
use crate::refusal::Refusal;
use sqlite_trees::error::StoreError;
use sqlite_trees::schema::Object;
use sqlite_trees::store::{Direction, Shape, Store};
use sqlite_value::row::Row;
use std::alloc::Global;

/// The table of the journal is the first of the file.
const TABLE: u32 = 0;

/// The last number that a line may have.
const LAST: u64 = (1 << 63) - 1;

/// The text by which SQLite knows the table.
pub(crate) const SQL: &str =
    "CREATE TABLE journal (seq INTEGER PRIMARY KEY, kind TEXT NOT NULL, body TEXT NOT NULL) STRICT";

/// The one table of a journal's file, as SQLite lists it.
pub(crate) fn journal_table() -> Object<'static>
    ensures { wanted_of result ≡ journal_table }
{
    Object {
        shape: Shape::Table,
        kind: "table",
        name: "journal",
        table: "journal",
        reals: 0,
        sql: Some(SQL),
    }
}

/// Reads each row of the table, from the first on. A row that is not the line with the next number is refused.
pub(crate) fn read_all<S: Store>(alloc: Global, store: &mut S) -> Result<Vec<Line>, Refusal>
    ensures lines { IfOk result (λ lines. IsClean (S.Store.view store.new) → HasEntries (S.Store.view store.old).trees (entries_of lines.items)) }
    ensures same { OnOk result (IsClean (S.Store.view store.new) → S.Store.view store.new ≡ record (S.Store.view store.old) { cursors = (S.Store.view store.new).cursors }) }
    ensures quiet { IsQuiet S.Store.view S.Store.faults S.Store.recovers S.Store.is_shielded store.old store.new }
    ensures late { IfErr result (λ e. only_looks e ≡ false) }
{
    if store.shape(TABLE) != Shape::Table {
        return Err(Refusal::OtherTables);
    }
    let mut lines = Vec::new(alloc);
    let mut row = Row::new(alloc);
    let mut spare = Row::new(alloc);
    store.seek(0, TABLE, &row, Direction::Forward)?;
    for number in 1..LAST {
        if !store.next(0, &mut row)? {
            return Ok(lines);
        }
        let Some(line) = read_row(alloc, &row, number, &mut spare)? else {
            return Err(Refusal::NotALine(number));
        };
        lines.push(line)?;
    }
    Err(Refusal::NotALine(LAST))
}

/// Puts a row for each line, numbered on from `count`, and answers the last number. Nothing is committed.
pub(crate) fn put_all<S: Store>(
    store: &mut S,
    row: &mut Row,
    count: u64,
    lines: &[Line],
) -> Result<u64, StoreError>
    ensures ok { (before : List Entry) → count ≡ length before → HasEntries (S.Store.view store.old).trees before
        → IfOk result (λ n. IsClean (S.Store.view store.new) → HasEntries (S.Store.view store.new).trees (before ++ entries_of lines.now) × (n ≡ length (before ++ entries_of lines.now))) }
    ensures kept { IsClean (S.Store.view store.new) → IsTrue (S.Store.view store.new).is_open → KeepsCommit (S.Store.view store.old) (S.Store.view store.new) }
    ensures cause { IsClean (S.Store.view store.new) → IfErr result (IsCause (MoreFaults (S.Store.faults store.old) (S.Store.faults store.new))) }
    ensures quiet { IsQuiet S.Store.view S.Store.faults S.Store.recovers S.Store.is_shielded store.old store.new }
{
    if store.shape(TABLE) != Shape::Table {
        return Err(StoreError::Broken);
    }
    let mut number = count;
    for line in lines {
        if number >= LAST {
            return Err(StoreError::Unstorable);
        }
        number += 1;
        write_row(row, number, line.kind.as_str(), line.body.as_str())?;
        store.put(TABLE, row)?;
    }
    Ok(number)
}
