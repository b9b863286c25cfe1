ghost use Rattle.std.specs.Prelude.{◌≡◌, ◌↔◌, ◌+◌, ◌&&◌, ◌==◌, IsTrue, nat_le};
ghost use Rattle.af_book.specs.Books.{Follows, after};
ghost use Rattle.af_book.specs.Reads.{next_number};

use crate::record::Record;
use af_audit::Entry;
use af_store::{Chain, LineKind};

/// A place in a book, after one of its lines.
#[derive(Clone, Copy)]
pub(crate) struct Place {
    /// The chain up to this line.
    pub(crate) chain: Chain,
    /// How many entries there are up to it, which is also the number of the last one.
    pub(crate) entries: u32,
    /// How many changes there are up to it, which is also the version of the policy that they make.
    pub(crate) changes: u32,
}

impl Place {
    /// Whether this entry may come next: it has the next number, and a version of the policy that there is by then.
    pub(crate) fn is_before(&self, entry: &Entry) -> bool
        ensures { result ≡ (entry.now.seq == self.now.entries + 1) && nat_le entry.now.version self.now.changes }
    {
        let (last, seq) = (self.entries, entry.seq);
        last < u32::MAX && seq == last + 1 && entry.version <= self.changes
    }

    /// Whether this record may come next.
    pub(crate) fn is_followed_by(&self, next: &Record) -> bool
        ensures { IsTrue result ↔ Follows self.now next.now }
    {
        match next {
            Record::Entry(entry) => self.is_before(entry),
            Record::Change(_) => self.changes < u32::MAX,
        }
    }

    /// The place after a line with this body, which says this record.
    pub(crate) fn with(&self, body: &str, next: &Record) -> Place
        requires { Follows self.now next.now }
        ensures { result ≡ after self.now body.now next.now }
    {
        match next {
            Record::Entry(entry) => Place {
                chain: self.chain.with(LineKind::Entry, body),
                entries: entry.seq,
                changes: self.changes,
            },
            Record::Change(_) => Place {
                chain: self.chain.with(LineKind::Change, body),
                entries: self.entries,
                changes: self.changes + 1,
            },
        }
    }

    /// The number of the line after it.
    pub(crate) fn next_number(&self) -> u64
        ensures { result ≡ next_number self.now }
    {
        u64::from(self.entries) + u64::from(self.changes) + 2
    }
}
