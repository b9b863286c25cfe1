ghost use Rattle.std.specs.Prelude.{◌≡◌, ℕ, ◌+◌, ◌<◌, List, [], ◌∷◌, ◌++◌, OnOk, length, map, slice_index_or, slice_set};
ghost use Rattle.std.specs.List.{remove};
ghost use Rattle.std.specs.List.Sorted.{IsStrictlySortedBy};
ghost use Rattle.std.specs.Ordering.{nat_cmp};
ghost use Rattle.af_runs.specs.Index.{CanKeep, HasRoomFor, IsIndex};
ghost use Rattle.af_runs.specs.Runs.{HasKeyOf};
ghost use Rattle.af_runs.specs.declared.run.Run.{Run};

use crate::busy::{keep, put_last, reserve_all, take_out};
use crate::chains::Chains;
use crate::codes::{date_code, ids_code};
use crate::dag_lists::DagLists;
use crate::run::Run;
use std::alloc::{AllocError, Global};

/// What stands beside the rows of the runs, so that no look-up goes over all of them.
pub(crate) struct Index {
    /// By the ids of DAG and run.
    pub(crate) ids: Chains,
    /// By DAG and logical date.
    pub(crate) dates: Chains,
    /// The runs of each DAG.
    pub(crate) dags: DagLists,
    /// The numbers of the busy runs, in order.
    pub(crate) busy: Vec<u64>,
    /// The numbers of the runs that hold slots, in order.
    pub(crate) holders: Vec<u64>,
}

impl Drop for Index {
    fn drop(self) {
        let Index {
            ids: _,
            dates: _,
            dags: _,
            busy: _,
            holders: _,
        } = self;
    }
}

impl Index {
    /// The index of no runs. It takes no memory.
    pub(crate) fn new(alloc: Global) -> Index
        ensures runs { IsIndex [] result }
        ensures room { HasRoomFor 0 result }
    {
        Index {
            ids: Chains::new(alloc),
            dates: Chains::new(alloc),
            dags: DagLists::new(alloc),
            busy: Vec::new(alloc),
            holders: Vec::new(alloc),
        }
    }

    /// Reserves memory for that many more runs. `AllocError` only where a growth was refused.
    pub(crate) fn reserve(&mut self, additional: usize) -> Result<(), AllocError>
        ensures ok { OnOk result (HasRoomFor additional self.new) }
        ensures room { (rows : ℕ) → HasRoomFor rows self.old → HasRoomFor rows self.new }
        ensures runs { (runs : List Run) → IsIndex runs self.old → IsIndex runs self.new }
    {
        self.ids.reserve(additional)?;
        self.dates.reserve(additional)?;
        let rows = self.ids.len();
        reserve_all(&mut self.busy, rows, additional)?;
        reserve_all(&mut self.holders, rows, additional)
    }

    /// Lists those of these runs by DAG that are not listed yet, as far as there is memory for it.
    pub(crate) fn list_rest(&mut self, runs: &[Run])
        ensures runs { IsIndex runs.now self.old → IsIndex runs.now self.new }
        ensures room { (rows : ℕ) → HasRoomFor rows self.old → HasRoomFor rows self.new }
    {
        self.dags.list_rest(runs);
    }

    /// Puts a run after the others, where memory is reserved for it.
    pub(crate) fn push(&mut self, run: &Run)
        requires { HasRoomFor 1 self.old }
        ensures runs { (runs : List Run) → IsIndex runs self.old → IsIndex (runs ++ run.now ∷ []) self.new }
        ensures room { (rows : ℕ) → HasRoomFor (rows + 1) self.old → HasRoomFor rows self.new }
    {
        put_last(&mut self.busy, run.number, run.is_busy());
        put_last(&mut self.holders, run.number, run.holds_any());
        self.ids
            .push(run.number, ids_code(&run.dag_id, run.run_id.as_str()));
        self.dates
            .push(run.number, date_code(&run.dag_id, run.logical_date));
    }

    /// Puts runs after the others, one after the other, where memory is reserved for them.
    pub(crate) fn push_all(&mut self, added: &[Run])
        requires { HasRoomFor (length added.now) self.old }
        ensures runs { (runs : List Run) → IsIndex runs self.old → IsIndex (runs ++ added.now) self.new }
        ensures room { (rows : ℕ) → HasRoomFor (rows + length added.now) self.old → HasRoomFor rows self.new }
    {
        for run in added {
            self.push(run);
        }
    }

    /// Takes out the run at this place.
    pub(crate) fn remove(&mut self, place: usize, run: &Run)
        requires ids { place < length self.old.ids.earlier.items }
        requires dates { place < length self.old.dates.earlier.items }
        ensures runs { (runs : List Run) → IsIndex runs self.old → place < length runs → ((d : Run) → slice_index_or runs place d ≡ run.now) → 0 < run.now.number → IsStrictlySortedBy nat_cmp (map (λ run. run.number) runs) → IsIndex (remove runs place) self.new }
        ensures room { (rows : ℕ) → HasRoomFor rows self.old → HasRoomFor rows self.new }
    {
        let number = run.number;
        self.ids
            .remove(place, number, ids_code(&run.dag_id, run.run_id.as_str()));
        self.dates
            .remove(place, number, date_code(&run.dag_id, run.logical_date));
        self.dags.remove(place, run);
        take_out(&mut self.busy, number);
        take_out(&mut self.holders, number);
    }

    /// Sees to it that a run is among the busy ones, or not, and among those that hold slots, or not, after a change that keeps
    /// its number, its ids and its date.
    pub(crate) fn keep_numbers(&mut self, run: &Run)
        requires { CanKeep run.now self.old }
        ensures runs { (runs : List Run) (place : ℕ) → IsIndex runs self.old → place < length runs → ((d : Run) → HasKeyOf (slice_index_or runs place d) run.now) → IsStrictlySortedBy nat_cmp (map (λ run. run.number) runs) → IsIndex (slice_set runs place run.now) self.new }
        ensures room { (rows : ℕ) → HasRoomFor rows self.old → HasRoomFor rows self.new }
    {
        keep(&mut self.busy, run.number, run.is_busy());
        keep(&mut self.holders, run.number, run.holds_any());
    }
}
