ghost use Rattle.std.specs.Prelude.{◌≡◌};
ghost use Rattle.af_runs.specs.Marks.{with_marked};

use crate::mark::Mark;
use crate::runs::Runs;
use af_names::Instant;

impl Runs {
    /// Marks the run of this number at a moment, as `Run::mark` does. Where there is no such run nothing changes. It takes no
    /// memory.
    pub fn mark(&mut self, number: u64, mark: Mark, at: Instant)
        ensures { self.new ≡ record self.old { rows = with_marked self.old.rows number mark at } }
    {
        if let Some(place) = self.place_of(number) {
            self.rows[place].mark(mark, at);
            self.index.keep_numbers(&self.rows[place]);
        }
    }
}
