ghost use Rattle.std.specs.Prelude.{◌≡◌};
ghost use Rattle.af_runs.specs.Marks.{with_marked};

use crate::state::State;
use af_names::Instant;
use af_runs::Mark;

impl State {
    /// Marks the run of this number at a moment: it and its instances are put into the states that the mark says, and what
    /// ends has that moment as its end; what is in its state already stays whole. Where there is no such run nothing changes.
    /// It takes no memory.
    pub fn mark_run(&mut self, number: u64, mark: Mark, at: Instant)
        ensures { self.new ≡ record self.old {
          rows = record self.old.rows { runs = with_marked self.old.rows.runs number mark at };
        } }
    {
        self.runs.mark(number, mark, at);
    }
}
