ghost use Rattle.std.specs.Prelude.{◌≡◌, ◌≤◌, [], ◌∷◌, ◌++◌, IfOk, OnErr, OnOk, insert, length};
ghost use Rattle.std.specs.Int.Signed.{◌≤ℤ◌};
ghost use Rattle.af_sched.specs.Plan.{with_cursors};
ghost use Rattle.af_sched.specs.State.{AreInOrder, with_paused};
ghost use Rattle.af_sched.specs.Weights.{NoTaskIsHeavier, NoneIsHeavier};

use crate::dag_row::DagRow;
use crate::dags::Dags;
use crate::guesses::{Guesses, code_of};
use af_graph::TaskSpec;
use af_names::{DagId, Instant};
use std::alloc::{AllocError, Global};
use std::marker::Model;

/// The rows of DAGs. Contracts see them as a list.
pub(crate) struct DagTable {
    rows: Vec<DagRow>,
    /// Where the rows stand, so that none is searched for.
    guesses: Guesses,
    /// No task of a DAG is heavier.
    heaviest: i32,
}

impl Drop for DagTable {
    fn drop(self) {
        let DagTable {
            rows: _,
            guesses: _,
            heaviest: _,
        } = self;
    }
}

impl Model for DagTable {
    ghost use Rattle.std.specs.Prelude.{List};
    ghost use Rattle.af_sched.specs.Weights.{NoneIsHeavier};
    ghost use Rattle.af_sched.specs.declared.dag_row.DagRow.{DagRow};

    ghost Value = { List DagRow };

    ghost view = { λ dags. dags.rows.items };

    ghost invariant = { λ dags. NoneIsHeavier dags.heaviest dags.rows.items };
}

impl DagTable {
    /// No DAGs. It takes no memory.
    pub(crate) fn new(alloc: Global) -> DagTable
        ensures { result ≡ [] }
    {
        DagTable {
            rows: Vec::new(alloc),
            guesses: Guesses::new(alloc),
            heaviest: i32::MIN,
        }
    }

    /// The same rows again. `AllocError` only where a growth was refused.
    pub(crate) fn copied(&self, alloc: Global) -> Result<DagTable, AllocError>
        ensures { IfOk result (λ dags. dags ≡ self.now) }
    {
        let mut copy = DagTable::new(alloc);
        for row in self.rows() {
            copy.push(row.copied(alloc)?)?;
        }
        Ok(copy)
    }

    /// Puts a row after the others. `AllocError` only where a growth was refused; then the rows are as before.
    fn push(&mut self, row: DagRow) -> Result<(), AllocError>
        ensures { OnOk result (self.new ≡ self.old ++ row ∷ []) }
    {
        let place = self.rows.len();
        self.insert(place, row)
    }

    /// The rows.
    pub(crate) fn rows(&self) -> &[DagRow]
        ensures { result.now ≡ self.now }
    {
        self.rows.as_slice()
    }

    /// The DAGs, borrowed, where they are by id.
    pub(crate) fn by_id(&self) -> Dags<'_>
        requires { AreInOrder self.now }
        ensures { result ≡ self.now }
    {
        Dags::of(self.rows.as_slice(), &self.guesses, self.heaviest)
    }

    /// A weight: no task of a DAG is heavier.
    fn heaviest(&self) -> i32
        ensures { NoneIsHeavier result self.now }
    {
        self.heaviest
    }

    /// Puts a row at a place, before those that stand from there on. `AllocError` only where a growth was refused; then the
    /// rows are as before.
    pub(crate) fn insert(&mut self, place: usize, row: DagRow) -> Result<(), AllocError>
        requires { place ≤ length self.old }
        ensures ok { OnOk result (self.new ≡ insert self.old place row) }
        ensures err { OnErr result (self.new ≡ self.old) }
    {
        self.guesses.open()?;
        let code = code_of(row.dag.dag_id());
        let was_last = place == self.rows.len();
        let heaviest = heaviest_of(self.heaviest(), row.dag.tasks());
        self.rows.insert(place, row)?;
        self.heaviest = heaviest;
        self.guesses.put(code, place, was_last);
        Ok(())
    }

    /// Pauses the DAG of this id, or lets it go on. Where there is no such DAG nothing changes.
    pub(crate) fn set_paused(&mut self, dag_id: &DagId, is_paused: bool)
        requires { AreInOrder self.old }
        ensures { self.new ≡ with_paused self.old dag_id.now is_paused }
    {
        if let Ok(place) = self.by_id().place_of(dag_id) {
            self.rows[place].is_paused = is_paused;
        }
    }

    /// Gives each DAG its cursor.
    pub(crate) fn set_cursors(&mut self, cursors: &[Option<Instant>])
        requires { length cursors.now ≡ length self.old }
        ensures { self.new ≡ with_cursors self.old cursors.now }
    {
        set_cursors(self.rows.as_mut_slice(), cursors);
    }
}

/// Gives each of these DAGs its cursor.
fn set_cursors(dags: &mut [DagRow], cursors: &[Option<Instant>])
    requires { length cursors.now ≡ length dags.old }
    ensures { dags.new ≡ with_cursors dags.old cursors.now }
{
    for (place, row) in dags.iter_mut().enumerate() {
        row.cursor = cursors[place];
    }
}

/// The weight of the heaviest of these tasks, or a weight that is given where they are lighter.
fn heaviest_of(weight: i32, tasks: &[TaskSpec]) -> i32
    ensures given { weight ≤ℤ result }
    ensures tasks { NoTaskIsHeavier result tasks.now }
{
    let mut heaviest = weight;
    for task in tasks {
        heaviest = heavier(heaviest, task);
    }
    heaviest
}

/// A weight, or that of a task where it is heavier.
fn heavier(weight: i32, task: &TaskSpec) -> i32
    ensures given { weight ≤ℤ result }
    ensures task { task.now.priority_weight ≤ℤ result }
{
    if task.priority_weight > weight {
        task.priority_weight
    } else {
        weight
    }
}
