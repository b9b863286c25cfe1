ghost use Rattle.std.specs.Prelude.{◌≡◌, ◌↔◌, [], IsTrue, OnErr};
ghost use Rattle.af_base.specs.Readings.{Makes};
ghost use Rattle.af_book.specs.Books.{Leads};
ghost use Rattle.af_book.specs.Groups.{change_count, entry_count, with_change, with_entry};
ghost use Rattle.af_journal.specs.Lines.{entries_of};

use crate::group_fault::GroupFault;
use crate::next_line::{change_line, entry_line};
use crate::place::Place;
use af_audit::Entry;
use af_journal::Line;
use af_names::UserName;
use af_policy::Change;
use std::alloc::Global;
use std::marker::Model;

/// Records that are to be stored in one commit, as lines that follow a place of a book.
pub struct Group {
    start: Place,
    end: Place,
    lines: Vec<Line>,
}

impl Drop for Group {
    fn drop(self) {
        let Group {
            start: _,
            end: _,
            lines: _,
        } = self;
    }
}

impl Model for Group {
    ghost use Rattle.af_journal.specs.Lines.{entries_of};
    ghost use Rattle.af_book.specs.Books.{Leads};
    ghost use Rattle.af_book.specs.Groups.{Batch};
    ghost use Rattle.af_book.specs.Records.{records_in};

    ghost Value = { Batch };

    ghost view = { λ group. record { start = group.start; records = records_in (entries_of group.lines.items) } };

    ghost invariant = { λ group. Leads group.start (entries_of group.lines.items) (records_in (entries_of group.lines.items)) group.end };
}

impl Group {
    /// No records, to stand after this place.
    pub(crate) fn after(alloc: Global, start: Place) -> Group
        ensures { result ≡ record { start = start; records = [] } }
    {
        let end = start;
        Group {
            start,
            end,
            lines: Vec::new(alloc),
        }
    }

    /// Adds an entry. A fault leaves the group as it was.
    /// `OutOfOrder` exactly where its number is not the next, or its version of the policy is past the changes so far.
    /// Else `NotALine` exactly where no line tells it. `OutOfMemory` only where a growth was refused.
    pub fn add_entry(&mut self, alloc: Global, entry: &Entry) -> Result<(), GroupFault>
        ensures made { Makes GroupFault.OutOfMemory (with_entry self.old entry.now) self.new result }
        ensures err { OnErr result (self.new ≡ self.old) }
    {
        let (line, end) = entry_line(alloc, &self.end, entry)?;
        self.lines.push(line)?;
        self.end = end;
        Ok(())
    }

    /// Adds a change of this author. A fault leaves the group as it was.
    /// `TooMany` exactly where the book would have 2^32 changes with it. `OutOfMemory` only where a growth was refused.
    pub fn add_change(
        &mut self,
        alloc: Global,
        by: &UserName,
        change: &Change,
    ) -> Result<(), GroupFault>
        ensures made { Makes GroupFault.OutOfMemory (with_change self.old (record { by = by.now; change = change.now })) self.new result }
        ensures err { OnErr result (self.new ≡ self.old) }
    {
        let (line, end) = change_line(alloc, &self.end, by, change)?;
        self.lines.push(line)?;
        self.end = end;
        Ok(())
    }

    /// Whether there are no records.
    pub fn is_empty(&self) -> bool
        ensures { IsTrue result ↔ (self.now.records ≡ []) }
    {
        self.lines.is_empty()
    }

    /// How many entries the book has up to the last record, which is also the number of the last entry.
    pub fn entries(&self) -> u32
        ensures { result ≡ entry_count self.now }
    {
        self.end.entries
    }

    /// How many changes the book has up to the last record, which is also the version of the policy that they make.
    pub fn changes(&self) -> u32
        ensures { result ≡ change_count self.now }
    {
        self.end.changes
    }

    /// Its lines, and the place after them.
    pub(crate) fn into_parts(self) -> (Vec<Line>, Place)
        ensures { Leads self.start (entries_of result.0.items) self.records result.1 }
    {
        let Group {
            start: _,
            end,
            lines,
        } = self;
        (lines, end)
    }
}
