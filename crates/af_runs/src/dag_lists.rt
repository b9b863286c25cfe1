ghost use Rattle.std.specs.Prelude.{◌≡◌, ℕ, ◌+◌, ◌<◌, List, [], ◌∷◌, ◌++◌, OnOk, OnErr, length, map, filter, not, ◌==◌, if◌then◌else◌, slice_index_or};
ghost use Rattle.std.specs.List.{remove};
ghost use Rattle.std.specs.List.Sorted.{IsStrictlySortedBy};
ghost use Rattle.std.specs.Ordering.{nat_cmp};
ghost use Rattle.std.specs.Str.{bytes_eq};
ghost use Rattle.af_runs.specs.DagLists.{AreDagLists, numbers_in};
ghost use Rattle.af_runs.specs.Runs.{is_of};
ghost use Rattle.af_runs.specs.declared.run.Run.{Run};

use crate::run::Run;
use af_names::DagId;
use std::alloc::{AllocError, Global};
use std::collections::HashMap;

/// The numbers of the runs of each DAG, in order, of the first rows of all. The rows after those are few: they were added
/// where memory was reserved, and are listed when the next tick is planned, or memory is reserved again.
pub(crate) struct DagLists {
    alloc: Global,
    /// By the id of a DAG, the numbers of its runs among the rows that are listed.
    lists: HashMap<String, Vec<u64>>,
    /// How many rows are listed, from the first on.
    listed: usize,
}

impl Drop for DagLists {
    fn drop(self) {
        let DagLists {
            alloc: _,
            lists: _,
            listed: _,
        } = self;
    }
}

impl DagLists {
    /// The lists of no rows. It takes no memory.
    pub(crate) fn new(alloc: Global) -> DagLists
        ensures { AreDagLists [] result }
    {
        DagLists {
            alloc,
            lists: HashMap::new(alloc),
            listed: 0,
        }
    }

    /// How many rows are listed.
    pub(crate) fn listed(&self) -> usize
        ensures { result ≡ self.now.listed }
    {
        self.listed
    }

    /// The numbers that are listed of a DAG.
    pub(crate) fn of(&self, dag_id: &DagId) -> &[u64]
        ensures { result.now ≡ numbers_in self.now dag_id.now }
    {
        match self.lists.get(dag_id.as_str()) {
            Some(list) => list.as_slice(),
            None => &[],
        }
    }

    /// Lists those of these rows that are not listed yet, as far as there is memory for it.
    pub(crate) fn list_rest(&mut self, rows: &[Run])
        ensures { AreDagLists rows.now self.old → AreDagLists rows.now self.new }
    {
        while self.listed < rows.len() {
            if self.list(&rows[self.listed]).is_err() {
                return;
            }
            self.listed += 1;
        }
    }

    /// Takes out the row at this place, if it is listed.
    pub(crate) fn remove(&mut self, place: usize, run: &Run)
        ensures { (runs : List Run) → AreDagLists runs self.old → place < length runs → ((d : Run) → slice_index_or runs place d ≡ run.now) → IsStrictlySortedBy nat_cmp (map (λ run. run.number) runs) → AreDagLists (remove runs place) self.new }
    {
        if place < self.listed {
            self.take_out(run.dag_id.as_str(), run.number);
            self.listed -= 1;
        }
    }

    /// Puts a run's number into its DAG's list. `AllocError` only where a growth was refused; then the lists stay.
    fn list(&mut self, run: &Run) -> Result<(), AllocError>
        ensures listed { self.new.listed ≡ self.old.listed }
        ensures ok { OnOk result ((dag_id : List ℕ) → numbers_in self.new dag_id ≡ numbers_in self.old dag_id ++ (if is_of dag_id run.now then run.now.number ∷ [] else [])) }
        ensures err { OnErr result ((dag_id : List ℕ) → numbers_in self.new dag_id ≡ numbers_in self.old dag_id) }
    {
        if let Some(list) = self.lists.get_mut(run.dag_id.as_str()) {
            list.push(run.number)?;
            return Ok(());
        }
        let key = String::from_str(self.alloc, run.dag_id.as_str())?;
        let list = vec![in self.alloc; run.number]?;
        self.lists.insert(key, list)?;
        Ok(())
    }

    /// Takes a number out of the list of the DAG of this id.
    fn take_out(&mut self, dag_id: &str, number: u64)
        ensures listed { self.new.listed ≡ self.old.listed }
        ensures out { (id : List ℕ) → numbers_in self.new id ≡ (if bytes_eq dag_id.now id then filter (λ other. not (other == number)) (numbers_in self.old id) else numbers_in self.old id) }
    {
        if let Some(list) = self.lists.get_mut(dag_id) {
            list.retain(|other| *other != number);
        }
    }
}
