ghost use Rattle.std.specs.Prelude.{◌≡◌, List, ℕ};

/// A row with a key, a text, by which rows are kept in order.
pub trait Keyed: Drop {
    /// The row's key.
    ghost key_of: { Self → List ℕ };

    /// The row's key.
    fn key(&self) -> &str
        ensures { result.now ≡ key_of self.now };
}

/// A change of a row that leaves its key as it is.
pub trait Change<T: Keyed>: Drop {
    /// The row as the change leaves it.
    ghost changed: { Self → T → T };

    /// Changes the row.
    fn change(self, row: &mut T)
        ensures { row.new ≡ changed self row.old };

    /// The key is as before.
    ghost keeps_key: { (change : Self) (row : T) → T.key_of (changed change row) ≡ T.key_of row };
}
