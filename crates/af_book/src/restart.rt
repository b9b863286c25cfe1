ghost use Rattle.std.specs.Prelude.{◌≡◌, ◌⊎◌, ◌++◌, IfErr, IfOk, IsTrue};

use crate::book::Book;
use crate::book_fault::BookFault;
use crate::group::Group;
use crate::laws::{books_are_one, books_are_taken};
use crate::record::Record;
use af_journal::{Journal, Refusal, append_crash_and_read};
use af_store::Opening;
use sqlite_trees::store::Reopen;
use std::alloc::Global;

/// A theorem over a restart. A group is stored, the disk crashes, and what it left is read and taken as a book: that of the same configuration,
/// with the records that were there, and all of the group's, or none of them. It is never refused but for want of memory.
pub fn append_crash_and_take<S: Reopen + Drop>(
    alloc: Global,
    book: Book<S>,
    group: Group,
) -> Result<Result<(Book<S>, Opening, Vec<Record>), (BookFault, Journal<S>)>, Refusal>
    requires opened { IsTrue book.is_open }
    requires starts { group.start ≡ book.end }
    ensures config { IfOk result (λ taken. IfOk taken (λ r. IsTrue r.0.is_open → r.1 ≡ book.config)) }
    ensures records { IfOk result (λ taken. IfOk taken (λ r. IsTrue r.0.is_open
        → (r.2.items ≡ book.records) ⊎ (r.2.items ≡ book.records ++ group.records))) }
    ensures taken { IfOk result (λ taken. IfErr taken (λ e. IsTrue e.1.is_open → e.0 ≡ BookFault.OutOfMemory)) }
{
    books_are_one();
    books_are_taken();
    book.leaves_its_lines();
    let (lines, _end) = group.into_parts();
    let (journal, found) = append_crash_and_read(alloc, book.into_journal(), lines.as_slice())?;
    match Book::take(alloc, journal, found) {
        Ok(taken) => Ok(Ok(taken)),
        Err(refused) => Ok(Err(refused)),
    }
}
