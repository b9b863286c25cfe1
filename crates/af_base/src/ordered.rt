ghost use Rattle.std.specs.Prelude.{◌≡◌, ◌+◌, ◌<◌, ◌≤◌, [], IsOk, OnOk, OnErr, MatchResult, option_copied, is_ok, Some, None, if◌then◌else◌};
ghost use Rattle.af_base.specs.Ordered.{AreInOrder, is_there, row_of, with_row, with_change, without_row};
ghost use Rattle.af_base.specs.Places.{StandsAt, FitsAt};

use crate::keyed::{Change, Keyed};
use crate::searching::{is_there, place_in};
use std::alloc::{AllocError, Global};
use std::marker::Model;

/// Rows in byte order of their keys, no two of one key. Contracts see that list of rows, beside the number of rows for which
/// memory is reserved. A row is found by binary search.
#[derive(Drop)]
pub struct Ordered<T: Keyed> {
    rows: Vec<T>,
}

impl<T: Keyed> Model for Ordered<T> {
    ghost use Rattle.std.specs.Prelude.{◌-◌, vec_len, vec_capacity};
    ghost use Rattle.af_base.specs.Ordered.{Kept, kept_coded, AreInOrder};

    ghost Value = { Kept T };

    ghost coded = { kept_coded T.code };

    ghost view = { λ ordered. record {
      rows = ordered.rows.items;
      spare = vec_capacity ordered.rows - vec_len ordered.rows;
    } };

    ghost invariant = { λ ordered. AreInOrder T.key_of ordered.rows.items };
}

impl<T: Keyed> Ordered<T> {
    /// No rows. It takes no memory.
    pub fn new(alloc: Global) -> Ordered<T>
        ensures { result.rows ≡ [] }
    {
        Ordered {
            rows: Vec::new(alloc),
        }
    }

    /// The rows, by key in byte order.
    pub fn rows(&self) -> &[T]
        ensures rows { result.now ≡ self.now.rows }
        ensures kept { AreInOrder T.key_of self.now.rows }
    {
        self.rows.as_slice()
    }

    /// For how many more rows memory is reserved.
    pub fn spare(&self) -> usize
        ensures { result ≡ self.now.spare }
    {
        self.rows.capacity() - self.rows.len()
    }

    /// Reserves memory for that many more rows. `AllocError` only where a growth was refused, so never where there is
    /// room already; then as before.
    pub fn reserve(&mut self, additional: usize) -> Result<(), AllocError>
        ensures ok { OnOk result (additional ≤ self.new.spare) }
        ensures roomy { additional ≤ self.old.spare → IsOk result }
        ensures err { OnErr result (self.new.spare ≡ self.old.spare) }
        ensures rows { self.new.rows ≡ self.old.rows }
        ensures spare { self.old.spare ≤ self.new.spare }
    {
        self.rows.reserve(additional)
    }

    /// Where the row of this key stands, or else where it would.
    pub fn place(&self, key: &str) -> Result<usize, usize>
        ensures { MatchResult result (StandsAt T.key_of self.now.rows key.now) (FitsAt T.key_of self.now.rows key.now) }
    {
        place_in(self.rows.as_slice(), key)
    }

    /// Whether a row has this key.
    pub fn has(&self, key: &str) -> bool
        ensures { result ≡ is_there T.key_of self.now.rows key.now }
    {
        is_there(self.rows.as_slice(), key)
    }

    /// The row of this key.
    pub fn get(&self, key: &str) -> Option<&T>
        ensures { option_copied result ≡ row_of T.key_of self.now.rows key.now }
    {
        match self.place(key) {
            Ok(place) => Some(&self.rows[place]),
            Err(_) => None,
        }
    }

    /// Adds a row at the place where its key would stand. `AllocError` only where a growth was refused, and never where
    /// memory is reserved; then the rows are as before.
    pub fn insert_at(&mut self, place: usize, row: T) -> Result<(), AllocError>
        requires { FitsAt T.key_of self.old.rows (T.key_of row) place }
        ensures ok { OnOk result (self.new.rows ≡ with_row T.key_of self.old.rows row) }
        ensures err { OnErr result (self.new.rows ≡ self.old.rows) }
        ensures roomy { 0 < self.old.spare → IsOk result }
        ensures spare { self.old.spare ≤ self.new.spare + (if is_ok result then 1 else 0) }
    {
        self.rows.insert(place, row)?;
        Ok(())
    }

    /// Changes the row of this key, which stands at this place.
    pub fn change_at<C: Change<T>>(&mut self, key: &str, place: usize, change: C)
        requires { StandsAt T.key_of self.old.rows key.now place }
        ensures rows { self.new.rows ≡ with_change T.key_of (C.changed change) self.old.rows key.now }
        ensures spare { self.new.spare ≡ self.old.spare }
    {
        let _ = key;
        change.change(&mut self.rows[place]);
    }

    /// Takes out the row of this key, which stands at this place.
    pub fn remove_at(&mut self, key: &str, place: usize) -> T
        requires { StandsAt T.key_of self.old.rows key.now place }
        ensures row { Some result ≡ row_of T.key_of self.old.rows key.now }
        ensures rows { self.new.rows ≡ without_row T.key_of self.old.rows key.now }
        ensures spare { self.new.spare ≡ self.old.spare + 1 }
    {
        let _ = key;
        self.rows.remove(place)
    }

    /// Takes out the row of this key, if there is one.
    pub fn remove(&mut self, key: &str) -> Option<T>
        ensures row { result ≡ row_of T.key_of self.old.rows key.now }
        ensures rows { self.new.rows ≡ without_row T.key_of self.old.rows key.now }
        ensures spare { self.old.spare ≤ self.new.spare }
    {
        match self.place(key) {
            Ok(place) => Some(self.remove_at(key, place)),
            Err(_) => None,
        }
    }
}
