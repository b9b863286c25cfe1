//! DAGs that masks name, put together in order.
ghost use Rattle.std.specs.Prelude.{◌≡◌, ◌||◌, List, ℕ, nat_eq, OnOk};
ghost use Rattle.std.specs.Cmp.Lexicographic.{pointwise};
ghost use Rattle.af_role.specs.declared.action.Action.TheVariants.{Read};
ghost use Rattle.af_role.specs.declared.dag_part.DagPart.TheVariants.{Itself};
ghost use Rattle.af_role.specs.DagMasks.{dag_has, row_has};
ghost use Rattle.af_policy.specs.Views.{is_named};

use af_base::{Keyed, Ordered};
use af_names::DagId;
use af_role::{Action, DagActions, DagMask};
use std::alloc::AllocError;
use std::marker::Model;

/// A DAG that a view names, whether it is there or not. Contracts see it as its id.
#[derive(Drop)]
pub struct NamedDag<'a> {
    dag: &'a DagId,
}

impl<'a> Model for NamedDag<'a> {
    ghost use Rattle.std.specs.Prelude.{List, ℕ};

    ghost Value = { List ℕ };

    ghost view = { λ named. named.dag.now };
}

impl<'a> NamedDag<'a> {
    /// The DAG's id.
    pub fn dag_id(&self) -> &'a DagId
        ensures { result.now ≡ self.now }
    {
        self.dag
    }
}

impl<'a> Keyed for NamedDag<'a> {
    ghost key_of = { λ id. id };

    fn key(&self) -> &str {
        self.dag.as_str()
    }
}

/// Adds the DAGs that a mask lets one read.
pub(crate) fn add_readable<'a>(
    named: &mut Ordered<NamedDag<'a>>,
    mask: &'a DagMask,
) -> Result<(), AllocError>
    ensures { OnOk result ((dag : List ℕ) → is_named named.new.rows dag ≡ (is_named named.old.rows dag || dag_has mask.now Itself dag Read)) }
{
    for row in mask.rows() {
        add_row(named, row)?;
    }
    Ok(())
}

/// Adds the DAG of a row, if it may be read.
fn add_row<'a>(named: &mut Ordered<NamedDag<'a>>, row: &'a DagActions) -> Result<(), AllocError>
    ensures { OnOk result ((dag : List ℕ) → is_named named.new.rows dag ≡ (is_named named.old.rows dag || row_has Itself dag Read row.now)) }
{
    if row.actions.has(Action::Read) {
        add(named, &row.dag)?;
    }
    Ok(())
}

/// Adds a DAG, unless it is named already.
fn add<'a>(named: &mut Ordered<NamedDag<'a>>, dag: &'a DagId) -> Result<(), AllocError>
    ensures { OnOk result ((other : List ℕ) → is_named named.new.rows other ≡ (is_named named.old.rows other || pointwise nat_eq dag.now other)) }
{
    match named.place(dag.as_str()) {
        Ok(_) => Ok(()),
        Err(place) => {
            named.insert_at(place, NamedDag { dag })?;
            Ok(())
        }
    }
}
