ghost use Rattle.std.specs.Prelude.{◌≡◌, ◌||◌, ◌&&◌, [], List, ℕ, nat_eq, OnErr, OnOk, MatchResult};
ghost use Rattle.std.specs.Cmp.Lexicographic.{pointwise};
ghost use Rattle.af_base.specs.Ordered.{AreInOrder};
ghost use Rattle.af_base.specs.Places.{FitsAt, StandsAt};
ghost use Rattle.af_role.specs.declared.action.Action.{Action};
ghost use Rattle.af_role.specs.ActionSets.{has};
ghost use Rattle.af_role.specs.declared.dag_part.DagPart.{DagPart};
ghost use Rattle.af_role.specs.Resources.{same_action, same_part};
ghost use Rattle.af_role.specs.DagMasks.{actions_on, dag_has, id_of};

use crate::dag_marks::DagMarks;
use crate::{Action, Actions, DagPart};
use af_base::{Keyed, place_in};
use af_names::DagId;
use std::alloc::{AllocError, Global};
use std::cmp::Ordering;
use std::marker::Model;

/// The actions on one DAG, and those on its runs.
#[derive(Drop)]
pub struct DagActions {
    pub dag: DagId,
    pub actions: Actions,
    pub runs: Actions,
}

impl Keyed for DagActions {
    ghost key_of = { λ row. row.dag };

    fn key(&self) -> &str {
        self.dag.as_str()
    }
}

impl DagActions {
    /// What the row has on the DAG itself, or on its runs.
    pub fn on(&self, part: DagPart) -> Actions
        ensures { result ≡ actions_on part self.now }
    {
        match part {
            DagPart::Itself => self.actions,
            DagPart::Runs => self.runs,
        }
    }

    /// Adds an action on the DAG itself, or on its runs.
    fn add(&mut self, part: DagPart, action: Action)
        ensures dag { self.new.dag ≡ self.old.dag }
        ensures has { (p : DagPart) (a : Action) → has (actions_on p self.new) a ≡ ((same_part part p && same_action action a) || has (actions_on p self.old) a) }
    {
        match part {
            DagPart::Itself => self.actions = self.actions.with(action),
            DagPart::Runs => self.runs = self.runs.with(action),
        }
    }

    /// The row of a DAG with one action.
    fn of(dag: DagId, part: DagPart, action: Action) -> DagActions
        ensures dag { result.dag ≡ dag }
        ensures has { (p : DagPart) (a : Action) → has (actions_on p result) a ≡ (same_part part p && same_action action a) }
    {
        let one = Actions::none().with(action);
        match part {
            DagPart::Itself => DagActions {
                dag,
                actions: one,
                runs: Actions::none(),
            },
            DagPart::Runs => DagActions {
                dag,
                actions: Actions::none(),
                runs: one,
            },
        }
    }
}

/// The actions on single DAGs and on their runs. Contracts see it as a row for each of these DAGs, in byte order of their ids.
#[derive(Drop)]
pub struct DagMask {
    rows: Vec<DagActions>,
    marks: DagMarks,
}

impl Model for DagMask {
    ghost use Rattle.std.specs.Prelude.{List};
    ghost use Rattle.af_base.specs.Ordered.{AreInOrder};
    ghost use Rattle.af_role.specs.DagMarks.{AreMarked};
    ghost use Rattle.af_role.specs.declared.dag_mask.DagActions.{DagActions};

    ghost Value = { List DagActions };

    ghost view = { λ mask. mask.rows.items };

    ghost invariant = { λ mask. AreInOrder (λ row. row.dag) mask.rows.items × AreMarked mask.marks mask.rows.items };
}

impl DagMask {
    /// No action on any DAG.
    pub fn new(alloc: Global) -> DagMask
        ensures { result ≡ [] }
    {
        DagMask {
            rows: Vec::new(alloc),
            marks: DagMarks::new(),
        }
    }

    /// The rows.
    pub fn rows(&self) -> &[DagActions]
        ensures rows { result.now ≡ self.now }
        ensures order { AreInOrder id_of self.now }
    {
        self.rows.as_slice()
    }

    /// The actions on a DAG, or on its runs. Where there are few rows, most DAGs without one are known by their mark. A row is found by
    /// binary search.
    pub fn on(&self, part: DagPart, dag: &DagId) -> Actions
        ensures { (action : Action) → has result action ≡ dag_has self.now part dag.now action }
    {
        if !self.marks.has(dag) {
            return Actions::none();
        }
        match place_in(self.rows.as_slice(), dag.as_str()) {
            Ok(place) => self.rows[place].on(part),
            Err(_) => Actions::none(),
        }
    }

    /// Whether an action on a DAG, or on its runs, is there. It is looked for as `on` does.
    pub fn has(&self, part: DagPart, action: Action, dag: &DagId) -> bool
        ensures { result ≡ dag_has self.now part dag.now action }
    {
        self.on(part, dag).has(action)
    }

    /// Adds an action on a DAG, or on its runs. `AllocError` only where a growth was refused; then the rows are as before.
    pub fn add(
        &mut self,
        alloc: Global,
        part: DagPart,
        action: Action,
        dag: &DagId,
    ) -> Result<(), AllocError>
        ensures err { OnErr result (self.new ≡ self.old) }
        ensures ok { OnOk result ((p : DagPart) (other : List ℕ) (a : Action) → dag_has self.new p other a ≡ ((pointwise nat_eq dag.now other && (same_part part p && same_action action a)) || dag_has self.old p other a)) }
    {
        match place_from_end(self.rows.as_slice(), dag.as_str()) {
            Ok(place) => {
                let row = &mut self.rows[place];
                row.add(part, action);
            }
            Err(place) => {
                let row = DagActions::of(dag.copied(alloc)?, part, action);
                self.marks.put(&row.dag);
                self.rows.insert(place, row)?;
            }
        }
        Ok(())
    }
}

/// The place of a DAG's row, or where it would stand. The last row is tried first, since permissions are added in their order.
fn place_from_end(rows: &[DagActions], dag: &str) -> Result<usize, usize>
    requires { AreInOrder id_of rows.now }
    ensures { MatchResult result (StandsAt id_of rows.now dag.now) (FitsAt id_of rows.now dag.now) }
{
    let Some(last) = rows.len().checked_sub(1) else {
        return place_in(rows, dag);
    };
    match rows[last].key().cmp(dag) {
        Ordering::Less => Err(rows.len()),
        Ordering::Equal => Ok(last),
        Ordering::Greater => place_in(rows, dag),
    }
}
