ghost use Rattle.std.specs.Prelude.{◌≡◌};
ghost use Rattle.af_runs.specs.Busy.{busy_of};

use crate::run::Run;
use crate::runs::Runs;
use std::marker::Model;

/// Runs that are busy, one after the other, in order of number. Contracts see the list of those that are still to come.
#[derive(Drop)]
pub struct BusyRuns<'a> {
    runs: &'a Runs,
    /// How many came already.
    place: usize,
}

impl<'a> Model for BusyRuns<'a> {
    ghost use Rattle.std.specs.Prelude.{List, drop};
    ghost use Rattle.af_runs.specs.Busy.{busy_of};
    ghost use Rattle.af_runs.specs.declared.run.Run.{Run};

    ghost Value = { List Run };

    ghost view = { λ busy. drop busy.place (busy_of busy.runs.now.rows) };
}

impl<'a> BusyRuns<'a> {
    /// The busy ones of these runs.
    pub(crate) fn of(runs: &'a Runs) -> BusyRuns<'a>
        ensures { result ≡ busy_of runs.now.rows }
    {
        BusyRuns { runs, place: 0 }
    }
}

impl<'a> Iterator for BusyRuns<'a> {
    ghost use Rattle.std.specs.Iterator.{YieldsFirstRef, item_count};

    type Item = &'a Run;

    ghost next_gives = { YieldsFirstRef (λ runs. runs) };

    ghost remaining = { item_count (λ runs. runs) };

    fn next(&mut self) -> Option<&'a Run> {
        if self.place >= self.runs.busy_count() {
            return None;
        }
        let run = self.runs.busy_at(self.place);
        self.place += 1;
        run
    }
}
