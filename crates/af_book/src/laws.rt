ghost use Rattle.af_book.specs.Laws.{BooksAreOne, BooksAreTaken, ChangesAreTold, EntriesAreNumbered, EntriesAreTold, VersionsAreThere};

use af_store::laws::{nothing_else_is_a_change, nothing_else_is_an_entry, openings_are_read_back};

/// Lines are those of one book: of one configuration, and of one list of records.
pub fn books_are_one()
    ensures { BooksAreOne }
{
    openings_are_read_back();
}

/// In the lines of a book nothing is wrong: only want of memory refuses them.
pub fn books_are_taken()
    ensures { BooksAreTaken }
{
    openings_are_read_back();
}

/// A line that says an entry has just the text by which the entry is told.
pub fn entries_are_told()
    ensures { EntriesAreTold }
{
    nothing_else_is_an_entry();
}

/// A line that says a change has just the text by which the change and its author are told.
pub fn changes_are_told()
    ensures { ChangesAreTold }
{
    nothing_else_is_a_change();
}

/// The entries of a book have the numbers from 1 on, without gaps.
pub fn entries_are_numbered()
    ensures { EntriesAreNumbered }
{}

/// Each entry of a book was made under a version of the policy that there was by then.
pub fn versions_are_there()
    ensures { VersionsAreThere }
{}
