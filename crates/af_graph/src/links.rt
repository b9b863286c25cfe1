ghost use Rattle.std.specs.Prelude.{◌≡◌, ◌<◌, ◌≤◌, ℕ, false, [], length, map, All, replicate, slice_set, IfOk, OnOk};
ghost use Rattle.af_graph.specs.Rows.{row_at, is_among, turned, ends_with, with_last, with_each, IsWithin};

use std::alloc::{AllocError, Global};
use std::marker::Model;

/// For each place of a definition a row of other places. Contracts see it as the list of rows.
#[derive(Drop)]
pub(crate) struct Links {
    rows: Vec<Vec<u16>>,
}

impl Model for Links {
    ghost use Rattle.std.specs.Prelude.{List, ℕ, map};

    ghost Value = { List (List ℕ) };

    ghost view = { λ links. map (λ row. row.items) links.rows.items };
}

impl Links {
    /// These rows.
    pub(crate) fn of(rows: Vec<Vec<u16>>) -> Links
        ensures { result ≡ map (λ row. row.items) rows.items }
    {
        Links { rows }
    }

    /// So many empty rows.
    fn empty(alloc: Global, count: usize) -> Result<Links, AllocError>
        ensures { IfOk result (λ links. links ≡ replicate count []) }
    {
        let mut rows = Vec::with_capacity(alloc, count)?;
        for _ in 0..count {
            rows.push(Vec::new(alloc))?;
        }
        Ok(Links { rows })
    }

    /// How many rows there are.
    pub(crate) fn len(&self) -> usize
        ensures { result ≡ length self.now }
    {
        self.rows.len()
    }

    /// The row of a place.
    pub(crate) fn row(&self, place: usize) -> &[u16]
        requires { place < length self.now }
        ensures { result.now ≡ row_at self.now place }
    {
        self.rows[place].as_slice()
    }

    /// The same rows again.
    pub(crate) fn copied(&self, alloc: Global) -> Result<Links, AllocError>
        ensures { IfOk result (λ links. links ≡ self.now) }
    {
        let mut rows = Vec::with_capacity(alloc, self.len())?;
        for place in 0..self.len() {
            rows.push(Vec::from_slice(alloc, self.row(place))?)?;
        }
        Ok(Links { rows })
    }

    /// The rows the other way round: at each place those whose row has it, in order, each once.
    pub(crate) fn turned(&self, alloc: Global) -> Result<Links, AllocError>
        requires within { IsWithin self.now }
        requires few { length self.now ≤ 65_536 }
        ensures { IfOk result (λ links. links ≡ turned self.now) }
    {
        let mut links = Links::empty(alloc, self.len())?;
        for place in 0..self.len() {
            links.add_to_each(self.row(place), place as u16)?;
        }
        Ok(links)
    }

    /// Adds a place at the end of each of these rows, once however often a row stands there.
    fn add_to_each(&mut self, rows: &[u16], place: u16) -> Result<(), AllocError>
        requires within { All (λ row. row < length self.old) rows.now }
        requires fresh { (row : ℕ) → is_among (row_at self.old row) place ≡ false }
        ensures count { OnOk result (length self.new ≡ length self.old) }
        ensures rows { OnOk result ((row : ℕ) → row < length self.old → row_at self.new row ≡ with_each (is_among rows.now row) (row_at self.old row) place) }
    {
        for row in rows {
            self.add_once(*row as usize, place)?;
        }
        Ok(())
    }

    /// Adds a place at the end of a row that doesn't end with it.
    fn add_once(&mut self, row: usize, place: u16) -> Result<(), AllocError>
        requires { row < length self.old }
        ensures { OnOk result (self.new ≡ slice_set self.old row (with_last (row_at self.old row) place)) }
    {
        push_once(&mut self.rows[row], place)
    }
}

/// Adds a place at the end of a row that doesn't end with it.
fn push_once(row: &mut Vec<u16>, place: u16) -> Result<(), AllocError>
    ensures { OnOk result (row.new.items ≡ with_last row.old.items place) }
{
    if !ends_with(row.as_slice(), place) {
        row.push(place)?;
    }
    Ok(())
}

/// Whether a place is the last of a row.
fn ends_with(row: &[u16], place: u16) -> bool
    ensures { result ≡ ends_with row.now place }
{
    match row.last() {
        Some(last) => *last == place,
        None => false,
    }
}
