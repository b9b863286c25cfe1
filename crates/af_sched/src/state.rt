ghost use Rattle.std.specs.Prelude.{◌≡◌, [], ◌∷◌, IfOk, option_copied};
ghost use Rattle.af_pool.specs.Pools.{ArePools, default_name};
ghost use Rattle.af_sched.specs.State.{AreRows, dag_of};

use crate::dag_row::DagRow;
use crate::dag_table::DagTable;
use crate::dags::Dags;
use af_names::DagId;
use af_pool::{Pool, Pools};
use af_runs::Runs;
use af_vars::Variables;
use std::alloc::{AllocError, Global};
use std::marker::Model;

mod adding;
mod backfilling;
mod changing;
mod claiming;
mod clearing;
mod copying;
mod holding;
mod marking;
mod pooling;
mod reading;
mod reporting;
mod reserving;
mod ticking;
mod varying;

/// The scheduler's state: its DAGs, their runs with the instances, the pools and the variables. Contracts see the lists of
/// rows, beside the numbers of runs, pools and variables for which memory is reserved.
pub struct State {
    dags: DagTable,
    runs: Runs,
    pools: Pools,
    variables: Variables,
}

impl Drop for State {
    fn drop(self) {
        let State {
            dags: _,
            runs: _,
            pools: _,
            variables: _,
        } = self;
    }
}

impl Model for State {
    ghost use Rattle.af_sched.specs.State.{AreRows, StateWithRoom};

    ghost Value = { StateWithRoom };

    ghost view = { λ state. record {
      rows = record {
        dags = state.dags;
        runs = state.runs.rows;
        next_run = state.runs.next;
        pools = state.pools.rows;
        variables = state.variables.rows;
      };
      spare_runs = state.runs.spare;
      spare_pools = state.pools.spare;
      spare_variables = state.variables.spare;
    } };

    ghost invariant = { λ state. AreRows state.dags state.runs.rows };
}

impl State {
    /// No DAGs, no runs and no variables; of pools the default one alone. `AllocError` only where a growth was refused.
    pub fn new(alloc: Global) -> Result<State, AllocError>
        ensures dags { IfOk result (λ state. state.rows.dags ≡ []) }
        ensures runs { IfOk result (λ state. state.rows.runs ≡ []) }
        ensures next { IfOk result (λ state. state.rows.next_run ≡ 1) }
        ensures pools { IfOk result (λ state. state.rows.pools ≡ record { name = default_name; slots = 128 } ∷ []) }
        ensures variables { IfOk result (λ state. state.rows.variables ≡ []) }
    {
        let pools = Pools::new(alloc)?;
        Ok(State {
            dags: DagTable::new(alloc),
            runs: Runs::new(alloc),
            pools,
            variables: Variables::new(alloc),
        })
    }

    /// The DAGs, by id.
    pub fn dags(&self) -> &[DagRow]
        ensures rows { result.now ≡ self.now.rows.dags }
        ensures kept { AreRows self.now.rows.dags self.now.rows.runs }
    {
        self.dags.rows()
    }

    /// The DAG of this id, found where it is guessed to stand, or else by binary search.
    pub fn dag(&self, dag_id: &DagId) -> Option<&DagRow>
        ensures { option_copied result ≡ dag_of self.now.rows.dags dag_id.now }
    {
        self.by_id().get(dag_id)
    }

    /// The DAGs, borrowed.
    fn by_id(&self) -> Dags<'_>
        ensures { result ≡ self.now.rows.dags }
    {
        self.dags.by_id()
    }

    /// The pools, by name.
    pub fn pools(&self) -> &[Pool]
        ensures rows { result.now ≡ self.now.rows.pools }
        ensures kept { ArePools self.now.rows.pools }
    {
        self.pools.rows()
    }
}
