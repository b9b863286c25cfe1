ghost use Rattle.std.specs.Prelude.{◌≡◌, ◌+◌, ◌^◌, [], MatchOption, None, Some, nat_lt, if◌then◌else◌};
ghost use Rattle.af_runs.specs.Runs.{AreRuns};
ghost use Rattle.af_runs.specs.Places.{StandsAt, StandsNowhere};

use crate::index::Index;
use crate::places::place_of;
use crate::run::Run;
use std::alloc::Global;
use std::marker::Model;

mod adding;
mod changing;
mod clearing;
mod copying;
mod finding;
mod marking;

/// The most runs that a DAG has.
pub const MOST_RUNS: usize = 65_536;

/// For how many runs memory is reserved at once, where one is added and none is reserved.
pub(crate) const MORE_RUNS: usize = 64;

/// The runs of all DAGs, in order of number. Contracts see them as that list of rows, each with its instances, beside
/// the number that the next run gets and the number of rows for which memory is reserved.
pub struct Runs {
    rows: Vec<Run>,
    last: u64,
    index: Index,
    spare: usize,
}

impl Drop for Runs {
    fn drop(self) {
        let Runs {
            rows: _,
            last: _,
            index: _,
            spare: _,
        } = self;
    }
}

impl Model for Runs {
    ghost use Rattle.std.specs.Prelude.{◌+◌, ◌≤◌, vec_len, vec_capacity};
    ghost use Rattle.af_runs.specs.Index.{HasRoomFor, IsIndex};
    ghost use Rattle.af_runs.specs.Runs.{RunRows, AreRuns};

    ghost Value = { RunRows };

    ghost view = { λ runs. record {
      rows = runs.rows.items;
      next = runs.last + 1;
      spare = runs.spare;
    } };

    ghost invariant = { λ runs.
        AreRuns runs.rows.items (runs.last + 1)
        × IsIndex runs.rows.items runs.index
        × HasRoomFor runs.spare runs.index
        × (vec_len runs.rows + runs.spare ≤ vec_capacity runs.rows) };
}

impl Runs {
    /// No runs; the first gets number 1.
    pub fn new(alloc: Global) -> Runs
        ensures rows { result.rows ≡ [] }
        ensures next { result.next ≡ 1 }
    {
        Runs::after(alloc, 0)
    }

    /// No runs; the first gets the number after this one. It takes no memory.
    pub(crate) fn after(alloc: Global, last: u64) -> Runs
        ensures rows { result.rows ≡ [] }
        ensures next { result.next ≡ last + 1 }
    {
        Runs {
            rows: Vec::new(alloc),
            last,
            index: Index::new(alloc),
            spare: 0,
        }
    }

    /// The rows, in order of number.
    pub fn rows(&self) -> &[Run]
        ensures rows { result.now ≡ self.now.rows }
        ensures kept { AreRuns self.now.rows self.now.next }
    {
        self.rows.as_slice()
    }

    /// For how many more runs memory is reserved.
    pub fn spare(&self) -> usize
        ensures { result ≡ self.now.spare }
    {
        self.spare
    }

    /// The number that the next run gets; none where no number is left.
    pub fn next_number(&self) -> Option<u64>
        ensures { result ≡ (if nat_lt self.now.next (2 ^ 64) then Some self.now.next else None) }
    {
        self.last.checked_add(1)
    }

    /// The number of the last run, 0 before the first.
    pub(crate) fn last(&self) -> u64
        ensures next { result + 1 ≡ self.now.next }
        ensures kept { AreRuns self.now.rows self.now.next }
    {
        self.last
    }

    /// The rows, given back, and the number of the last run.
    pub(crate) fn into_rows(self) -> (Vec<Run>, u64)
        ensures rows { result.0.items ≡ self.rows }
        ensures next { result.1 + 1 ≡ self.next }
    {
        let Runs {
            rows,
            last,
            index: _,
            spare: _,
        } = self;
        (rows, last)
    }

    /// Where the row of the run of this number stands.
    fn place_of(&self, number: u64) -> Option<usize>
        ensures { MatchOption result (StandsNowhere self.now.rows number) (StandsAt self.now.rows number) }
    {
        place_of(self.rows.as_slice(), self.last, number)
    }
}
