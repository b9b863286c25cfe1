ghost use Rattle.std.specs.Prelude.{◌≡◌, ℕ, ◌+◌, ◌<◌, ◌≤◌, List, [], ◌∷◌, ◌++◌, All, Some, length, map, nat_eq, IfNone, OnOk, slice_index_or, unwrap_or, vec_capacity, vec_len, if◌then◌else◌};
ghost use Rattle.std.specs.HashMap.{get, spare};
ghost use Rattle.std.specs.List.{remove};
ghost use Rattle.std.specs.List.Sorted.{IsStrictlySortedBy};
ghost use Rattle.std.specs.Ordering.{nat_cmp};
ghost use Rattle.af_runs.specs.Chains.{AreChains, HasRoom, last_of, out};

use indexmap::IndexMap;
use std::alloc::{AllocError, Global};

/// For each code the numbers of the rows of that code, from the last one back to the first. A number is above 0.
pub(crate) struct Chains {
    /// By code, the number of the last row of that code.
    last: IndexMap<u64, u64>,
    /// At the place of each row the number of the last row of its code before it, 0 where there is none.
    earlier: Vec<u64>,
}

impl Drop for Chains {
    fn drop(self) {
        let Chains {
            last: _,
            earlier: _,
        } = self;
    }
}

impl Chains {
    /// The chains of no rows. It takes no memory.
    pub(crate) fn new(alloc: Global) -> Chains
        ensures { AreChains [] result }
    {
        Chains {
            last: IndexMap::new(alloc),
            earlier: Vec::new(alloc),
        }
    }

    /// The number of the last row of a code, 0 where there is none.
    pub(crate) fn last(&self, code: u64) -> u64
        ensures { result ≡ last_of self.now code }
    {
        match self.last.get(&code) {
            Some(number) => *number,
            None => 0,
        }
    }

    /// A place where the last row of a code is likely to stand: where it does if no row was taken out and each row has a code of
    /// its own, since codes are kept in the order in which they came. None only where no row has the code.
    pub(crate) fn likely(&self, code: u64) -> Option<usize>
        ensures { IfNone result (last_of self.now code ≡ 0) }
    {
        self.last.get_index_of(&code)
    }

    /// The number of the last row before the one at this place that has its code, 0 where there is none.
    pub(crate) fn before(&self, place: usize) -> u64
        requires { place < length self.now.earlier.items }
        ensures { (d : ℕ) → result ≡ slice_index_or self.now.earlier.items place d }
    {
        self.earlier[place]
    }

    /// How many rows are chained.
    pub(crate) fn len(&self) -> usize
        ensures { result ≡ vec_len self.now.earlier }
    {
        self.earlier.len()
    }

    /// Reserves memory for that many more rows. `AllocError` only where a growth was refused.
    pub(crate) fn reserve(&mut self, additional: usize) -> Result<(), AllocError>
        ensures ok { OnOk result (HasRoom additional self.new) }
        ensures room { (rows : ℕ) → HasRoom rows self.old → HasRoom rows self.new }
        ensures rows { (rows : List (ℕ × ℕ)) → AreChains rows self.old → AreChains rows self.new }
        ensures len { vec_len self.new.earlier ≡ vec_len self.old.earlier }
    {
        self.last.reserve(additional)?;
        self.earlier.reserve(additional)
    }

    /// Chains one more row, where memory is reserved for it.
    pub(crate) fn push(&mut self, number: u64, code: u64)
        requires { HasRoom 1 self.old }
        ensures rows { (rows : List (ℕ × ℕ)) → AreChains rows self.old → AreChains (rows ++ (number, code) ∷ []) self.new }
        ensures room { (rows : ℕ) → HasRoom (rows + 1) self.old → HasRoom rows self.new }
        ensures len { vec_len self.new.earlier ≡ vec_len self.old.earlier + 1 }
    {
        let before = put(&mut self.last, code, number);
        // There is room, so it succeeds.
        let _pushed = self.earlier.push(before);
    }

    /// Takes out the row at this place, which has this number and this code.
    pub(crate) fn remove(&mut self, place: usize, number: u64, code: u64)
        requires { place < length self.old.earlier.items }
        ensures rows { (rows : List (ℕ × ℕ)) → AreChains rows self.old → place < length rows → ((d : ℕ × ℕ) → slice_index_or rows place d ≡ (number, code)) → 0 < number → IsStrictlySortedBy nat_cmp (map (λ row. row.0) rows) → AreChains (remove rows place) self.new }
        ensures room { (rows : ℕ) → HasRoom rows self.old → HasRoom rows self.new }
        ensures len { vec_len self.new.earlier + 1 ≡ vec_len self.old.earlier }
    {
        let before = take_out(&mut self.earlier, place, number);
        if self.last(code) == number {
            if before == 0 {
                let _last = self.last.swap_remove(&code);
            } else if let Some(last) = self.last.get_mut(&code) {
                *last = before;
            }
        }
    }
}

/// Puts a number at a code, where there is room for one more, and tells that which was there, 0 where there was none.
fn put(numbers: &mut IndexMap<u64, u64>, code: u64, number: u64) -> u64
    requires { 0 < spare numbers.old }
    ensures before { result ≡ unwrap_or (get nat_eq numbers.old code) 0 }
    ensures numbers { (other : ℕ) → get nat_eq numbers.new other ≡ (if nat_eq code other then Some number else get nat_eq numbers.old other) }
    ensures spare { spare numbers.old ≤ spare numbers.new + 1 }
{
    // There is room, so it succeeds.
    match numbers.insert(code, number) {
        Ok(before) => before.unwrap_or(0),
        Err(_) => 0,
    }
}

/// Takes out the number at this place, and puts it wherever another number stands.
fn take_out(numbers: &mut Vec<u64>, place: usize, other: u64) -> u64
    requires { place < vec_len numbers.old }
    ensures value { result ≡ slice_index_or numbers.old.items place result }
    ensures items { numbers.new.items ≡ map (out other result) (remove numbers.old.items place) }
    ensures len { vec_len numbers.new + 1 ≡ vec_len numbers.old }
    ensures capacity { vec_capacity numbers.new ≡ vec_capacity numbers.old }
{
    let taken = numbers.remove(place);
    replace(numbers.as_mut_slice(), other, taken);
    taken
}

/// Puts the second number in the place of the first.
fn replace(numbers: &mut [u64], from: u64, to: u64)
    ensures { numbers.new ≡ map (out from to) numbers.old }
{
    for number in numbers.iter_mut() {
        *number = if *number == from { to } else { *number };
    }
}
