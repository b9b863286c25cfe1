use af_audit::Entry;
use af_store::ChangeLine;

/// What a line says, other than the one that opens a book.
pub enum Record {
    /// This was done to the state.
    Entry(Entry),
    /// The policy was changed.
    Change(ChangeLine),
}

impl Drop for Record {
    fn drop(self) {
        match self {
            Record::Entry(_) => {}
            Record::Change(_) => {}
        }
    }
}
