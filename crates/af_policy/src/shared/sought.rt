ghost use Rattle.std.specs.Prelude.{◌≡◌};
ghost use Rattle.std.specs.Ordering.{nat_cmp};
ghost use Rattle.std.specs.Cmp.Lexicographic.{slice_cmp};
ghost use Rattle.af_policy.specs.SharedRows.{same_key};

use crate::shared::Row;
use crate::shared::fronts::{front, order};
use std::cmp::Ordering;
use std::marker::Model;

/// A key that is searched for, with its front. Contracts see it as its bytes.
#[derive(Drop)]
pub(crate) struct Sought<'a> {
    front: u64,
    bytes: &'a [u8],
}

impl<'a> Model for Sought<'a> {
    ghost use Rattle.std.specs.Prelude.{◌≡◌, List, ℕ};
    ghost use Rattle.af_policy.specs.Fronts.{front_of};

    ghost Value = { List ℕ };

    ghost view = { λ sought. sought.bytes.now };

    ghost invariant = { λ sought. sought.front ≡ front_of sought.bytes.now };
}

impl<'a> Sought<'a> {
    /// These bytes.
    pub(crate) fn new(bytes: &'a [u8]) -> Sought<'a>
        ensures { result ≡ bytes.now }
    {
        Sought {
            front: front(bytes),
            bytes,
        }
    }

    /// The key of a row.
    pub(crate) fn of_row<T: Row>(row: &'a T) -> Sought<'a>
        ensures { result ≡ T.key row.now }
    {
        Sought {
            front: row.front(),
            bytes: row.key(),
        }
    }

    /// Whether it is the key of a row.
    pub(crate) fn is_of<T: Row>(&self, row: &T) -> bool
        ensures { result ≡ same_key self.now (T.key row.now) }
    {
        match self.order(row) {
            Ordering::Less => false,
            Ordering::Equal => true,
            Ordering::Greater => false,
        }
    }

    /// How the key lies to that of a row.
    #[inline(always)]
    pub(crate) fn order<T: Row>(&self, row: &T) -> Ordering
        ensures { result ≡ slice_cmp nat_cmp self.now (T.key row.now) }
    {
        order(self.front, self.bytes, row.front(), row.key())
    }
}

/// How the keys of two rows lie.
#[inline(always)]
pub(crate) fn row_order<T: Row>(one: &T, other: &T) -> Ordering
    ensures { result ≡ slice_cmp nat_cmp (T.key one.now) (T.key other.now) }
{
    order(one.front(), one.key(), other.front(), other.key())
}
