ghost use Rattle.std.specs.Prelude.{◌≡◌};

use af_names::Instant;
use af_runs::Run;
use std::marker::Model;

/// A tick or a backfill that is worked out and not yet done, with all the memory that it takes. Contracts see the cursors of the DAGs,
/// runs of the state as it will leave them, the runs that it will add, the number that the next one gets, and whether these
/// are a change.
#[derive(Drop)]
pub struct Plan {
    pub(crate) cursors: Vec<Option<Instant>>,
    /// Those runs of the state that are busy, as they will be.
    pub(crate) moved: Vec<Run>,
    pub(crate) added: Vec<Run>,
    /// The number of the last run of all.
    pub(crate) last: u64,
    pub(crate) is_change: bool,
}

impl Model for Plan {
    ghost use Rattle.std.specs.Prelude.{◌+◌};
    ghost use Rattle.af_sched.specs.Plan.{PlanRows};

    ghost Value = { PlanRows };

    ghost view = { λ plan. record {
      cursors = plan.cursors.items;
      moved = plan.moved.items;
      added = plan.added.items;
      next_run = plan.last + 1;
      changes = plan.is_change;
    } };
}

impl Plan {
    /// Whether it changes the state.
    pub fn changes(&self) -> bool
        ensures { result ≡ self.now.changes }
    {
        self.is_change
    }

    /// The runs that it adds, in order of number.
    pub fn added(&self) -> &[Run]
        ensures { result.now ≡ self.now.added }
    {
        self.added.as_slice()
    }
}
