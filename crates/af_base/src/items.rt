ghost use Rattle.std.specs.Prelude.{◌≡◌, IfOk, slice_set};

use crate::again::Again;
use std::alloc::{AllocError, Global};
use std::marker::Model;

/// A list. Contracts see it as its items, in order.
#[derive(Drop)]
pub struct Items<T: Drop> {
    items: Vec<T>,
}

impl<T: Drop> Model for Items<T> {
    ghost use Rattle.std.specs.Prelude.{List};
    ghost use Rattle.std.specs.Coded.{coded_list};

    ghost Value = { List T };

    ghost coded = { coded_list T.code };

    ghost view = { λ list. list.items.items };
}

impl<T: Drop> Items<T> {
    /// These items, in their order.
    pub fn of(items: Vec<T>) -> Items<T>
        ensures { result ≡ items.items }
    {
        Items { items }
    }

    /// The items, in order.
    pub fn as_slice(&self) -> &[T]
        ensures { result.now ≡ self.now }
    {
        self.items.as_slice()
    }

    /// The items, given back.
    pub fn into_vec(self) -> Vec<T>
        ensures { result.items ≡ self }
    {
        let Items { items } = self;
        items
    }

    /// Puts an item in the place of another; past the last place nothing changes.
    pub fn set(&mut self, place: usize, item: T)
        ensures { self.new ≡ slice_set self.old place item }
    {
        if place < self.items.len() {
            self.items[place] = item;
        }
    }
}

impl<T: Again> Items<T> {
    /// The same items again. `AllocError` only where a growth was refused.
    pub fn copied(&self, alloc: Global) -> Result<Items<T>, AllocError>
        ensures { IfOk result (λ copy. copy ≡ self.now) }
    {
        let mut items = Vec::with_capacity(alloc, self.items.len())?;
        for item in &self.items {
            items.push(item.copied(alloc)?)?;
        }
        Ok(Items { items })
    }
}
