ghost use Rattle.std.specs.Prelude.{◌≡◌, ◌≤◌, IsOk, OnErr, OnOk};

use crate::state::State;
use std::alloc::AllocError;

impl State {
    /// Reserves memory for that many more runs. `AllocError` only where a growth was refused, so never where there is
    /// room already; then the state is as before.
    pub fn reserve_runs(&mut self, additional: usize) -> Result<(), AllocError>
        ensures ok { OnOk result (additional ≤ self.new.spare_runs) }
        ensures roomy { additional ≤ self.old.spare_runs → IsOk result }
        ensures err { OnErr result (self.new ≡ self.old) }
        ensures rest { self.new ≡ record self.old { spare_runs = self.new.spare_runs } }
        ensures spare { self.old.spare_runs ≤ self.new.spare_runs }
    {
        self.runs.reserve(additional)
    }

    /// Reserves memory for that many more pools. `AllocError` only where a growth was refused, so never where there is
    /// room already; then the state is as before.
    pub fn reserve_pools(&mut self, additional: usize) -> Result<(), AllocError>
        ensures ok { OnOk result (additional ≤ self.new.spare_pools) }
        ensures roomy { additional ≤ self.old.spare_pools → IsOk result }
        ensures err { OnErr result (self.new ≡ self.old) }
        ensures rest { self.new ≡ record self.old { spare_pools = self.new.spare_pools } }
        ensures spare { self.old.spare_pools ≤ self.new.spare_pools }
    {
        self.pools.reserve(additional)
    }

    /// Reserves memory for that many more variables. `AllocError` only where a growth was refused, so never where there is
    /// room already; then the state is as before.
    pub fn reserve_variables(&mut self, additional: usize) -> Result<(), AllocError>
        ensures ok { OnOk result (additional ≤ self.new.spare_variables) }
        ensures roomy { additional ≤ self.old.spare_variables → IsOk result }
        ensures err { OnErr result (self.new ≡ self.old) }
        ensures rest { self.new ≡ record self.old { spare_variables = self.new.spare_variables } }
        ensures spare { self.old.spare_variables ≤ self.new.spare_variables }
    {
        self.variables.reserve(additional)
    }
}
