ghost use Rattle.std.specs.Prelude.{◌≡◌};

use std::marker::Model;

/// Some rows of a listing, in its order, and how many rows it has in all. Contracts see the rows and that number.
#[derive(Drop)]
pub struct Page<T: Drop> {
    rows: Vec<T>,
    total: usize,
}

impl<T: Drop> Model for Page<T> {
    ghost use Rattle.af_policy.specs.Shown.{PageRows};

    ghost Value = { PageRows T };

    ghost view = { λ page. record { rows = page.rows.items; total = page.total } };
}

impl<T: Drop> Page<T> {
    /// The page of these rows, of so many in all.
    pub(crate) fn new(rows: Vec<T>, total: usize) -> Page<T>
        ensures { result ≡ record { rows = rows.items; total = total } }
    {
        Page { rows, total }
    }

    /// The rows.
    pub fn rows(&self) -> &[T]
        ensures { result.now ≡ self.now.rows }
    {
        self.rows.as_slice()
    }

    /// How many rows the listing has in all.
    pub fn total(&self) -> usize
        ensures { result ≡ self.now.total }
    {
        self.total
    }
}
