ghost use Rattle.std.specs.Prelude.{◌≡◌, ◌≢◌, ◌⊎◌, ◌++◌, [], ◌∷◌, length, IsTrue, IfOk, IfErr, MatchResult, OnOk, OnErr};
ghost use Rattle.sqlite_trees.specs.Tree.{Trees};

use crate::book_fault::BookFault;
use crate::group::Group;
use crate::next_line::opening_line;
use crate::place::Place;
use crate::reading::read_book;
use crate::record::Record;
use af_journal::{Journal, Line};
use af_store::Opening;
use af_store::laws::openings_are_read_back;
use sqlite_trees::error::StoreError;
use sqlite_trees::store::Store;
use std::alloc::Global;
use std::marker::Model;

/// A journal whose lines are those of one server: its opening, and its records in order.
#[derive(Drop)]
pub struct Book<S: Store> {
    journal: Journal<S>,
    /// The place after the last line.
    end: Place,
}

impl<S: Store> Model for Book<S> {
    ghost use Rattle.std.specs.Prelude.{IsTrue};
    ghost use Rattle.af_book.specs.Books.{Reaches};
    ghost use Rattle.af_book.specs.Kept.{Kept};
    ghost use Rattle.af_book.specs.Records.{config_in, records_in};

    ghost Value = { Kept S };

    ghost view = { λ b. record {
      is_open = b.journal.is_open;
      config = config_in b.journal.entries;
      records = records_in b.journal.entries;
      end = b.end;
      journal = b.journal;
    } };

    ghost invariant = { λ b. IsTrue b.journal.is_open → Reaches b.journal.entries (config_in b.journal.entries) (records_in b.journal.entries) b.end };
}

impl<S: Store> Book<S> {
    ghost use Rattle.af_journal.specs.Lines.{HasEntries, entries_of};
    ghost use Rattle.af_journal.specs.Shown.{GoesOn, HasCause, IsHonest, MayLeave};
    ghost use Rattle.af_book.specs.Books.{IsBook, Reaches, opening_line};
    ghost use Rattle.af_book.specs.Kept.{Adds, IsRefused, IsStored, Stays, journal_of};
    ghost use Rattle.af_book.specs.Reads.{IsWrong};
    ghost use Rattle.af_book.specs.Records.{changes_in, entries_in};

    /// Opens a new book with this configuration, in a journal with no line. At `Ok` its first line is on the disk.
    pub fn begin(
        alloc: Global,
        mut journal: Journal<S>,
        config: &str,
    ) -> Result<Book<S>, (BookFault, Journal<S>)>
        ensures new { IfOk result (λ book. IsTrue book.is_open → IsTrue journal.is_open × (journal.entries ≡ []) × (book.config ≡ config.now) × (book.records ≡ [])) }

        // A journal with a line is given back as it was.
        ensures not_new { IsTrue journal.is_open → journal.entries ≢ [] → result ≡ Err (BookFault.NotNew, journal) }
        ensures err { IfErr result (λ e. IsTrue e.1.is_open → IsTrue journal.is_open × (e.1.entries ≡ journal.entries)) }

        // A crash at any moment of the call leaves what one could leave before it, or just the line that opens the book.
        ensures crash { (db : Trees) → MayLeave S.Store (journal_of result) db
            → MayLeave S.Store journal db ⊎ (IsTrue journal.is_open × HasEntries db (opening_line config.now ∷ [])) }
        ensures cause { IfErr result (λ e. IsRefused journal (HasCause S.Store journal e.1) e.0) }
        ensures goes_on { GoesOn S.Store journal (journal_of result) }
    {
        if journal.count() != 0 {
            return Err((BookFault::NotNew, journal));
        }
        let (line, end) = match opening_line(alloc, config) {
            Ok(opening) => opening,
            Err(_) => return Err((BookFault::OutOfMemory, journal)),
        };
        match journal.append(&[line]) {
            Ok(()) => Ok(Book { journal, end }),
            Err(error) => Err((BookFault::Store(error), journal)),
        }
    }

    /// Makes a book of a journal and the lines that were just read of it, and gives what they say.
    pub fn take(
        alloc: Global,
        journal: Journal<S>,
        lines: Vec<Line>,
    ) -> Result<(Book<S>, Opening, Vec<Record>), (BookFault, Journal<S>)>
        requires { IsTrue journal.is_open → journal.entries ≡ entries_of lines.items }

        // The lines are those of a book of this configuration and these records.
        ensures read { IfOk result (λ r. IsBook (entries_of lines.items) r.1 r.2.items) }
        ensures book { IfOk result (λ r. IsTrue r.0.is_open → (r.0.config ≡ r.1) × (r.0.records ≡ r.2.items)) }

        // They are not, and the fault says what is wrong with the first that is wrong; or memory was refused.
        ensures wrong { IfErr result (λ e. IsWrong (entries_of lines.items) e.0) }

        // The journal is as it was.
        ensures same { MatchResult result (λ r. (r.0.is_open ≡ journal.is_open) × (r.0.journal ≡ journal)) (λ e. e.1 ≡ journal) }
    {
        openings_are_read_back();
        match read_book(alloc, lines.as_slice()) {
            Ok((opening, records, end)) => Ok((Book { journal, end }, opening, records)),
            Err(fault) => Err((fault, journal)),
        }
    }

    /// No records, to stand after the last line.
    pub fn group(&self, alloc: Global) -> Group
        ensures { result ≡ record { start = self.now.end; records = [] } }
    {
        Group::after(alloc, self.end)
    }

    /// Stores the records of the group in one commit. At `Ok` they are on the disk.
    pub fn append(&mut self, group: Group) -> Result<(), StoreError>
        requires { group.start ≡ self.old.end }

        // All of them, after those that were there.
        ensures ok { OnOk result (IsTrue self.new.is_open → Adds self.old self.new group.records) }

        // None of them, and a book that is still open can be used on.
        ensures err { OnErr result (IsTrue self.new.is_open → Stays self.old self.new) }

        // A crash at any moment of the call leaves what one could leave before it, or the book with all of them.
        ensures crash { (db : Trees) → MayLeave S.Store self.new.journal db
            → MayLeave S.Store self.old.journal db ⊎ (IsTrue self.old.is_open × IsStored db self.old.config (self.old.records ++ group.records)) }
        ensures cause { IfErr result (HasCause S.Store self.old.journal self.new.journal) }
        ensures goes_on { GoesOn S.Store self.old.journal self.new.journal }

        // After a success the book is open, unless a wrong answer of the disk was taken as true.
        ensures opened { OnOk result (IsHonest S.Store self.new.journal → IsTrue self.new.is_open) }
    {
        let (lines, end) = group.into_parts();
        self.journal.append(lines.as_slice())?;
        self.end = end;
        Ok(())
    }

    /// While the book is open its journal holds just its lines, and a crash leaves these lines and nothing else.
    /// No wrong answer of the disk has been taken as true.
    pub fn leaves_its_lines(&self)
        ensures open { self.now.is_open ≡ self.now.journal.is_open }
        ensures book { IsTrue self.now.is_open → Reaches self.now.journal.entries self.now.config self.now.records self.now.end }
        ensures left { IsTrue self.now.is_open → (db : Trees) → MayLeave S.Store self.now.journal db → IsStored db self.now.config self.now.records }
        ensures honest { IsTrue self.now.is_open → IsHonest S.Store self.now.journal }
    {
        self.journal.leaves_its_lines();
    }

    /// How many entries there are, which is also the number of the last one.
    pub fn entries(&self) -> u32
        ensures { IsTrue self.now.is_open → result ≡ length (entries_in self.now.records) }
    {
        self.end.entries
    }

    /// How many changes there are, which is also the version of the policy that they make.
    pub fn changes(&self) -> u32
        ensures { IsTrue self.now.is_open → result ≡ length (changes_in self.now.records) }
    {
        self.end.changes
    }

    /// The journal. Nothing is read or written.
    pub fn into_journal(self) -> Journal<S>
        ensures { result ≡ self.journal }
    {
        let Book { journal, end: _ } = self;
        journal
    }
}
