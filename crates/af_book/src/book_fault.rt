ghost use Rattle.std.specs.Prelude.{◌≡◌};
ghost use Rattle.af_book.specs.declared.book_fault.BookFault.TheVariants.{OutOfMemory};

use sqlite_trees::error::StoreError;
use std::alloc::{AllocError, AllocFailed};

/// Why a journal does not become a book.
#[derive(Clone, Copy, Debug, PartialEq, Eq)]
pub enum BookFault {
    /// The journal has lines already.
    NotNew,
    /// The first line is not one that opens a book of this format, or there is none.
    NoOpening,
    /// The line of this number has a mark that does not fit its body and the lines before it: one of them was changed.
    Changed(u64),
    /// The line of this number has a body that is none of its kind.
    NotALine(u64),
    /// The line of this number opens a book again, or says a record that does not follow those before it.
    OutOfOrder(u64),
    /// The store could not be read or written.
    Store(StoreError),
    /// A growth of memory was refused.
    OutOfMemory,
}

impl From<AllocError> for BookFault {
    ghost from_gives = { λ _ fault. fault ≡ OutOfMemory };

    fn from(_error: AllocError) -> BookFault {
        BookFault::OutOfMemory
    }
}

impl<T: Drop> From<AllocFailed<T>> for BookFault {
    ghost from_gives = { λ _ fault. fault ≡ OutOfMemory };

    fn from(_error: AllocFailed<T>) -> BookFault {
        BookFault::OutOfMemory
    }
}
