ghost use Rattle.std.specs.Prelude.{◌≡◌, IfSome, MatchResult, option_copied, true};
ghost use Rattle.af_sched.specs.State.{AreInOrder, FitsAt, dag_of, tasks_of};
ghost use Rattle.af_sched.specs.Steps.{StandsAt};
ghost use Rattle.af_sched.specs.Weights.{NoneIsHeavier};

use crate::dag_row::DagRow;
use crate::guesses::{Guesses, beside, code_of};
use af_graph::TaskSpec;
use af_names::DagId;
use std::marker::Model;

/// The DAGs of a state, borrowed: in byte order of their ids, each id once. Contracts see them as that list of rows.
#[derive(Drop)]
pub(crate) struct Dags<'a> {
    rows: &'a [DagRow],
    guesses: &'a Guesses,
    /// No task of a DAG is heavier.
    heaviest: i32,
}

impl<'a> Model for Dags<'a> {
    ghost use Rattle.std.specs.Prelude.{List};
    ghost use Rattle.af_sched.specs.State.{AreInOrder};
    ghost use Rattle.af_sched.specs.Weights.{NoneIsHeavier};
    ghost use Rattle.af_sched.specs.declared.dag_row.DagRow.{DagRow};

    ghost Value = { List DagRow };

    ghost view = { λ dags. dags.rows.now };

    ghost invariant = { λ dags. AreInOrder dags.rows.now × NoneIsHeavier dags.heaviest dags.rows.now };
}

impl<'a> Dags<'a> {
    pub(crate) fn of(rows: &'a [DagRow], guesses: &'a Guesses, heaviest: i32) -> Dags<'a>
        requires in_order { AreInOrder rows.now }
        requires heaviest { NoneIsHeavier heaviest rows.now }
        ensures { result ≡ rows.now }
    {
        Dags {
            rows,
            guesses,
            heaviest,
        }
    }

    /// A weight: no task of a DAG is heavier.
    pub(crate) fn heaviest(&self) -> i32
        ensures { NoneIsHeavier result self.now }
    {
        self.heaviest
    }

    /// The rows, by id.
    pub(crate) fn rows(&self) -> &'a [DagRow]
        ensures { result.now ≡ self.now }
    {
        self.rows
    }

    /// The DAG of this id.
    pub(crate) fn get(&self, dag_id: &DagId) -> Option<&'a DagRow>
        ensures { option_copied result ≡ dag_of self.now dag_id.now }
    {
        let Ok(place) = self.place_of(dag_id) else {
            return None;
        };
        let rows = self.rows();
        Some(&rows[place])
    }

    /// Where the row of the DAG of this id stands, or where it would. It is guessed, and searched for where no guess is right.
    pub(crate) fn place_of(&self, dag_id: &DagId) -> Result<usize, usize>
        ensures { MatchResult result (StandsAt self.now dag_id.now) (FitsAt self.now dag_id.now) }
    {
        match self.guessed(dag_id) {
            Some(place) => Ok(place),
            None => self.searched(dag_id),
        }
    }

    /// Where the row of the DAG of this id stands, if one of its two guesses is right.
    fn guessed(&self, dag_id: &DagId) -> Option<usize>
        ensures { IfSome result (StandsAt self.now dag_id.now) }
    {
        let code = code_of(dag_id);
        let first = usize::from(self.guesses.at(code));
        if self.is_at(first, dag_id) {
            return Some(first);
        }
        let second = usize::from(self.guesses.at(beside(code)));
        if self.is_at(second, dag_id) {
            return Some(second);
        }
        None
    }

    /// Whether the row at a place is that of the DAG of this id.
    fn is_at(&self, place: usize, dag_id: &DagId) -> bool
        ensures { result ≡ true → StandsAt self.now dag_id.now place }
    {
        let rows = self.rows;
        if place >= rows.len() {
            return false;
        }
        rows[place].dag.dag_id() == dag_id
    }

    /// Where the row of the DAG of this id stands, or where it would, found by binary search.
    fn searched(&self, dag_id: &DagId) -> Result<usize, usize>
        ensures { MatchResult result (StandsAt self.now dag_id.now) (FitsAt self.now dag_id.now) }
    {
        self.rows
            .binary_search_by(|row| row.dag.dag_id().cmp(dag_id))
    }

    /// The tasks of the DAG of this id; none where it is not there.
    pub(crate) fn tasks_of(&self, dag_id: &DagId) -> &'a [TaskSpec]
        ensures { result.now ≡ tasks_of self.now dag_id.now }
    {
        match self.get(dag_id) {
            Some(row) => row.dag.tasks(),
            None => &[],
        }
    }
}
