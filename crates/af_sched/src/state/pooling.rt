ghost use Rattle.std.specs.Prelude.{◌≡◌, ◌≤◌, Err, IfSome, IsNone, IsOk, OnErr, OnOk, option_copied};
ghost use Rattle.af_pool.specs.Pools as pools;
ghost use Rattle.af_sched.specs.State.{pools_of_row};

use crate::state::State;
use af_names::PoolName;
use af_pool::{Pool, PoolFault};

impl State {
    /// The pool of this name.
    pub fn pool(&self, name: &PoolName) -> Option<&Pool>
        ensures { option_copied result ≡ pools.pool_of self.now.rows.pools name.now }
    {
        self.pools.get(name)
    }

    /// Why a pool of this name with these slots would not be added, memory aside: the fault of `Pools::add_fault`.
    pub fn add_pool_fault(&self, name: &PoolName, slots: u64) -> Option<PoolFault>
        ensures { result ≡ pools.add_fault self.now.rows.pools name.now slots }
    {
        self.pools.add_fault(name, slots)
    }

    /// Why the pool of this name would not get these slots: the fault of `Pools::set_fault`.
    pub fn set_slots_fault(&self, name: &PoolName, slots: u64) -> Option<PoolFault>
        ensures { result ≡ pools.set_fault self.now.rows.pools name.now slots }
    {
        self.pools.set_fault(name, slots)
    }

    /// Why the pool of this name would not be removed: the fault of `Pools::remove_fault`. A pool is in use where a task of a
    /// DAG names it.
    pub fn remove_pool_fault(&self, name: &PoolName) -> Option<PoolFault>
        ensures { result ≡ pools.remove_fault pools_of_row self.now.rows.dags self.now.rows.pools name.now }
    {
        self.pools.remove_fault(name, self.dags.rows())
    }

    /// Removes a pool. Its faults are those of `remove_pool_fault`; a fault leaves the state as it was. The default pool stays,
    /// and so does each pool that a task of a DAG names.
    pub fn remove_pool(&mut self, name: &PoolName) -> Result<(), PoolFault>
        ensures refused { IfSome (pools.remove_fault pools_of_row self.old.rows.dags self.old.rows.pools name.now) (λ fault. result ≡ Err fault) }
        ensures accepted { IsNone (pools.remove_fault pools_of_row self.old.rows.dags self.old.rows.pools name.now) → IsOk result }
        ensures ok { OnOk result (self.new.rows ≡ record self.old.rows {
          pools = pools.without_pool self.old.rows.pools name.now;
        }) }
        ensures err { OnErr result (self.new ≡ self.old) }
        ensures needed { pools.NeededStay pools_of_row self.old.rows.dags self.old.rows.pools self.new.rows.pools }
        ensures spare { self.old.spare_pools ≤ self.new.spare_pools }
        ensures spare_runs { self.new.spare_runs ≡ self.old.spare_runs }
        ensures spare_variables { self.new.spare_variables ≡ self.old.spare_variables }
    {
        self.pools.remove(name, self.dags.rows())
    }
}
