use sqlite_store::OpenError;
use sqlite_trees::error::StoreError;
use std::alloc::{AllocError, AllocFailed};
use std::error::Error;
use std::{fmt, io};

/// Why the files of a journal are not opened.
#[derive(Clone, Copy, Debug, PartialEq, Eq)]
pub enum Refusal {
    /// The file is no SQLite database with pages of 4096 bytes. Nothing was written.
    Foreign,
    /// The log may hold lines, and its header was changed. Nothing was written.
    DamagedLogHeader,
    /// The database file is empty, and the log beside it may hold lines. Nothing was written.
    LogAlone,
    /// The file is a SQLite database with other tables than the journal's one.
    OtherTables,
    /// A page, a tree or the header of the database is not as it was written.
    Damaged,
    /// The row with this number is missing, or is not a line.
    NotALine(u64),
    /// The disk failed, or a file could not be read or written.
    Io,
    /// The disk has no room, or the file has met a limit of its format.
    Full,
    /// A growth of memory was refused.
    OutOfMemory,
}

impl fmt::Display for Refusal {
    fn fmt<W: fmt::Write>(&self, f: &mut fmt::Formatter<W>) -> fmt::Result {
        match self {
            Refusal::Foreign => f.write_str(
                "the file is not a journal: it is no SQLite database with pages of 4096 bytes",
            ),
            Refusal::DamagedLogHeader => f.write_str(
                "the header of the log is damaged, so the lines in it cannot be read",
            ),
            Refusal::LogAlone => f.write_str(
                "the database file is empty, and there is a log beside it that may hold lines",
            ),
            Refusal::OtherTables => f.write_str(
                "the file is not a journal: it is a database with other tables",
            ),
            Refusal::Damaged => f.write_str("the database is damaged"),
            Refusal::NotALine(number) => write!(
                f,
                "row {number} is missing, or is not a line of the journal"
            ),
            Refusal::Io => f.write_str("the files cannot be read or written"),
            Refusal::Full => f.write_str("the disk or the database is full"),
            Refusal::OutOfMemory => f.write_str("out of memory"),
        }
    }
}

impl Error for Refusal {}

impl From<AllocError> for Refusal {
    ghost use Rattle.std.specs.Prelude.{◌≡◌};
    ghost use Rattle.af_journal.specs.declared.refusal.Refusal.TheVariants.{OutOfMemory};

    ghost from_gives = { λ _ e. e ≡ OutOfMemory };

    fn from(_error: AllocError) -> Refusal {
        Refusal::OutOfMemory
    }
}

impl<T: Drop> From<AllocFailed<T>> for Refusal {
    ghost use Rattle.std.specs.Prelude.{◌≡◌};
    ghost use Rattle.af_journal.specs.declared.refusal.Refusal.TheVariants.{OutOfMemory};

    ghost from_gives = { λ _ e. e ≡ OutOfMemory };

    fn from(_error: AllocFailed<T>) -> Refusal {
        Refusal::OutOfMemory
    }
}

impl From<io::Error> for Refusal {
    ghost use Rattle.std.specs.Prelude.{◌≡◌};
    ghost use Rattle.af_journal.specs.declared.refusal.Refusal.TheVariants.{Io};

    ghost from_gives = { λ _ e. e ≡ Io };

    fn from(_error: io::Error) -> Refusal {
        Refusal::Io
    }
}

impl From<StoreError> for Refusal {
    ghost use Rattle.std.specs.Prelude.{◌≡◌, false};
    ghost use Rattle.af_journal.specs.Refusal.{only_looks};

    ghost from_gives = { λ _ e. only_looks e ≡ false };

    fn from(error: StoreError) -> Refusal {
        match error {
            StoreError::OutOfMemory => Refusal::OutOfMemory,
            StoreError::Io => Refusal::Io,
            StoreError::Full => Refusal::Full,
            StoreError::Corrupt | StoreError::Broken | StoreError::Unstorable => Refusal::Damaged,
        }
    }
}

impl From<OpenError> for Refusal {
    ghost use Rattle.std.specs.Prelude.{◌≡◌, false};
    ghost use Rattle.af_journal.specs.Refusal.{only_looks};

    ghost from_gives = { λ _ e. only_looks e ≡ false };

    fn from(error: OpenError) -> Refusal {
        match error {
            OpenError::OutOfMemory => Refusal::OutOfMemory,
            OpenError::Io => Refusal::Io,
            OpenError::Full => Refusal::Full,
            OpenError::Refused => Refusal::Damaged,
        }
    }
}

impl From<sqlite_wal::Error> for Refusal {
    ghost use Rattle.std.specs.Prelude.{◌≡◌, false};
    ghost use Rattle.af_journal.specs.Refusal.{only_looks};

    ghost from_gives = { λ _ e. only_looks e ≡ false };

    fn from(error: sqlite_wal::Error) -> Refusal {
        match error {
            sqlite_wal::Error::OutOfMemory => Refusal::OutOfMemory,
            sqlite_wal::Error::Io(_) => Refusal::Io,
            sqlite_wal::Error::Full => Refusal::Full,
            _ => Refusal::Damaged,
        }
    }
}
