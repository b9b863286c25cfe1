ghost use Rattle.std.specs.Prelude.{◌≡◌, ◌↔◌, IfOk, true};
ghost use Rattle.af_runs.specs.Busy.{busy_of};

use af_runs::{Run, Runs};
use std::alloc::{AllocError, Global};

/// Copies of those of these runs that are busy, with room for more. `AllocError` only where a growth was refused.
pub(crate) fn busy_of(alloc: Global, runs: &Runs, more: usize) -> Result<Vec<Run>, AllocError>
    ensures { IfOk result (λ busy. busy.items ≡ busy_of runs.now.rows) }
{
    let mut busy = Vec::with_capacity(alloc, runs.busy_count().saturating_add(more))?;
    for run in runs.busy() {
        busy.push(run.copied(alloc)?)?;
    }
    Ok(busy)
}

/// Whether these runs, one after the other, are the busy ones of the first.
pub(crate) fn are_busy_of(runs: &Runs, moved: &[Run]) -> bool
    ensures { (result ≡ true) ↔ (moved.now ≡ busy_of runs.now.rows) }
{
    let mut place = 0;
    for run in runs.busy() {
        if place >= moved.len() || !run.is_same(&moved[place]) {
            return false;
        }
        place += 1;
    }
    place == moved.len()
}
