ghost use Rattle.std.specs.Prelude.{◌≡◌, IfOk};
ghost use Rattle.af_runs.specs.Runs.{SameRuns};

use crate::run::Run;
use crate::runs::Runs;
use std::alloc::{AllocError, Global};

impl Runs {
    /// The same runs again, and the same number for the next one. `AllocError` only where a growth was refused.
    pub fn copied(&self, alloc: Global) -> Result<Runs, AllocError>
        ensures { IfOk result (SameRuns self.now) }
    {
        let rows = rows_copied(alloc, self.rows())?;
        let mut copy = Runs::new(alloc);
        copy.reserve(rows.len())?;
        copy.append(rows, self.last());
        Ok(copy)
    }
}

/// The same rows again. `AllocError` only where a growth was refused.
fn rows_copied(alloc: Global, rows: &[Run]) -> Result<Vec<Run>, AllocError>
    ensures { IfOk result (λ copy. copy.items ≡ rows.now) }
{
    let mut copy = Vec::with_capacity(alloc, rows.len())?;
    for row in rows {
        copy.push(row.copied(alloc)?)?;
    }
    Ok(copy)
}
