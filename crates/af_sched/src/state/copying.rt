ghost use Rattle.std.specs.Prelude.{◌≡◌, IfOk};

use crate::state::State;
use std::alloc::{AllocError, Global};

impl State {
    /// The same state again, its rows copied. `AllocError` only where a growth was refused.
    pub fn copied(&self, alloc: Global) -> Result<State, AllocError>
        ensures { IfOk result (λ state. state.rows ≡ self.now.rows) }
    {
        let dags = self.dags.copied(alloc)?;
        let runs = self.runs.copied(alloc)?;
        let pools = self.pools.copied(alloc)?;
        let variables = self.variables.copied(alloc)?;
        Ok(State {
            dags,
            runs,
            pools,
            variables,
        })
    }
}
