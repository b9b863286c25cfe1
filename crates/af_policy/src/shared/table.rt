ghost use Rattle.std.specs.Prelude.{◌≡◌, ◌+◌, [], true, length, cond, take, IfOk, OnOk, OnErr};
ghost use Rattle.std.specs.Option.{option_copied, is_some};
ghost use Rattle.af_policy.specs.SharedRows.{Ascend, found, seen, with_row, without};

use crate::shared::node::{self, Link};
use crate::shared::sought::Sought;
use crate::shared::{Row, building, change, listing, search};
use std::alloc::{AllocError, Global};
use std::marker::Model;

/// Rows in the order of their keys, found in steps that grow with the logarithm of their number. A table with one row more
/// or one less shares all others with the table that it was made of, which stays as it is. Contracts see it as its rows.
pub struct Table<T: Row> {
    root: Link<T>,
    len: usize,
}

impl<T: Row> Drop for Table<T> {
    fn drop(self) {
        let Table { root: _, len: _ } = self;
    }
}

impl<T: Row> Model for Table<T> {
    ghost use Rattle.std.specs.Prelude.{◌≡◌, List, length};
    ghost use Rattle.af_policy.specs.SharedRows.{Ascend};
    ghost use Rattle.af_policy.specs.SharedTrees.{link_rows};

    ghost Value = { List T };

    ghost view = { λ table. link_rows table.root };

    ghost invariant = { λ table. Ascend T.key (link_rows table.root) × (table.len ≡ length (link_rows table.root)) };
}

impl<T: Row> Table<T> {
    /// No row.
    pub fn new() -> Table<T>
        ensures { result ≡ [] }
    {
        Table { root: None, len: 0 }
    }

    /// The table of these rows, whose keys ascend. Each row is looked at once.
    pub fn of_rows(alloc: Global, rows: Vec<T>) -> Result<Table<T>, AllocError>
        requires { Ascend T.key rows.items }
        ensures { IfOk result (λ table. table ≡ rows.items) }
    {
        let mut rows = rows;
        let len = rows.len();
        let root = building::built(alloc, &mut rows, len)?;
        Ok(Table { root, len })
    }

    /// How many rows there are.
    pub fn len(&self) -> usize
        ensures { result ≡ length self.now }
    {
        self.len
    }

    /// The row of a key.
    pub fn get(&self, key: &[u8]) -> Option<&T>
        ensures { option_copied result ≡ found T.key self.now key.now }
    {
        match &self.root {
            Some(root) => search::find(root, &Sought::new(key)),
            None => None,
        }
    }

    /// Whether there is a row of the key.
    pub fn has(&self, key: &[u8]) -> bool
        ensures { result ≡ is_some (found T.key self.now key.now) }
    {
        self.get(key).is_some()
    }

    /// The table once more, which shares all rows.
    pub fn copied(&self) -> Result<Table<T>, AllocError>
        ensures { IfOk result (λ table. table ≡ self.now) }
    {
        Ok(Table {
            root: node::copied(&self.root)?,
            len: self.len,
        })
    }

    /// The table with one more row, or with another in the place of the row of its key.
    pub fn with(&self, alloc: Global, row: T) -> Result<Table<T>, AllocError>
        ensures { IfOk result (λ table. table ≡ with_row T.key self.now row) }
    {
        let len = self.len_with(row.key())?;
        let root = change::with_link(alloc, &self.root, row)?;
        Ok(Table { root, len })
    }

    /// The table with another row in the place of the row of its key, which is there.
    pub fn replacing(&self, alloc: Global, row: T) -> Result<Table<T>, AllocError>
        requires { is_some (found T.key self.now (T.key row)) ≡ true }
        ensures { IfOk result (λ table. table ≡ with_row T.key self.now row) }
    {
        let len = self.len;
        let root = change::with_link(alloc, &self.root, row)?;
        Ok(Table { root, len })
    }

    /// How many rows there are with one of this key. More than a `usize` counts find no memory.
    fn len_with(&self, key: &[u8]) -> Result<usize, AllocError>
        ensures { IfOk result (λ len. len ≡ cond (is_some (found T.key self.now key.now)) (length self.now) (length self.now + 1)) }
    {
        if self.has(key) {
            return Ok(self.len);
        }
        match self.len.checked_add(1) {
            Some(len) => Ok(len),
            None => Err(AllocError),
        }
    }

    /// The table without the row of a key.
    pub fn without(&self, alloc: Global, key: &[u8]) -> Result<Table<T>, AllocError>
        ensures { IfOk result (λ table. table ≡ without T.key self.now key.now) }
    {
        if self.has(key) {
            let root = change::without_link(alloc, &self.root, &Sought::new(key))?;
            let len = self.len - 1;
            Ok(Table { root, len })
        } else {
            let copy = self.copied()?;
            Ok(copy)
        }
    }

    /// Adds a row, or puts it in the place of the row of its key.
    pub fn put(&mut self, alloc: Global, row: T) -> Result<(), AllocError>
        ensures ok { OnOk result (self.new ≡ with_row T.key self.old row) }
        ensures err { OnErr result (self.new ≡ self.old) }
    {
        *self = self.with(alloc, row)?;
        Ok(())
    }

    /// Puts a row in the place of the row of its key, which is there.
    pub fn replace(&mut self, alloc: Global, row: T) -> Result<(), AllocError>
        requires { is_some (found T.key self.old (T.key row)) ≡ true }
        ensures ok { OnOk result (self.new ≡ with_row T.key self.old row) }
        ensures err { OnErr result (self.new ≡ self.old) }
    {
        *self = self.replacing(alloc, row)?;
        Ok(())
    }

    /// Takes the row of a key out.
    pub fn remove(&mut self, alloc: Global, key: &[u8]) -> Result<(), AllocError>
        ensures ok { OnOk result (self.new ≡ without T.key self.old key.now) }
        ensures err { OnErr result (self.new ≡ self.old) }
    {
        *self = self.without(alloc, key)?;
        Ok(())
    }

    /// The rows, in the order of their keys.
    pub fn rows(&self, alloc: Global) -> Result<Vec<&T>, AllocError>
        ensures { IfOk result (λ list. seen list.items ≡ self.now) }
    {
        let mut list = Vec::with_capacity(alloc, self.len)?;
        if let Some(root) = &self.root {
            listing::list(root, &mut list)?;
        }
        Ok(list)
    }

    /// The first rows, so many at most, in the order of their keys.
    pub fn front(&self, alloc: Global, bound: usize) -> Result<Vec<&T>, AllocError>
        ensures { IfOk result (λ list. seen list.items ≡ take bound self.now) }
    {
        let mut list = Vec::with_capacity(alloc, bound.min(self.len))?;
        if let Some(root) = &self.root {
            listing::fill(root, bound, &mut list)?;
        }
        Ok(list)
    }

    /// How many nodes a search looks at, at most. Each has 25 rows at most. No clause says so.
    pub fn height(&self) -> usize {
        usize::from(node::height(&self.root))
    }

    /// What holds of each table: keys ascend, so no two rows have one.
    pub fn facts(&self)
        ensures { Ascend T.key self.now }
    {
        let _len = self.len;
    }
}
