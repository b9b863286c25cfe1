ghost use Rattle.std.specs.Prelude.{◌≡◌, MatchResult};
ghost use Rattle.af_base.specs.Ordered.{AreInOrder, is_there};
ghost use Rattle.af_base.specs.Places.{StandsAt, FitsAt};

use crate::keyed::Keyed;

/// Where the row of this key stands among rows in order, or else where it would. It is found by binary search.
pub fn place_in<T: Keyed>(rows: &[T], key: &str) -> Result<usize, usize>
    requires { AreInOrder T.key_of rows.now }
    ensures { MatchResult result (StandsAt T.key_of rows.now key.now) (FitsAt T.key_of rows.now key.now) }
{
    rows.binary_search_by(|row| row.key().cmp(key))
}

/// Whether one of the rows, which are in order, has this key.
pub fn is_there<T: Keyed>(rows: &[T], key: &str) -> bool
    requires { AreInOrder T.key_of rows.now }
    ensures { result ≡ is_there T.key_of rows.now key.now }
{
    place_in(rows, key).is_ok()
}
