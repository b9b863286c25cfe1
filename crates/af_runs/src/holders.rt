ghost use Rattle.std.specs.Prelude.{◌≡◌};
ghost use Rattle.af_runs.specs.Busy.{holders_of};

use crate::run::Run;
use crate::runs::Runs;
use std::marker::Model;

/// Runs that hold slots, one after the other, in order of number. Contracts see the list of those that are still to come.
#[derive(Drop)]
pub struct Holders<'a> {
    runs: &'a Runs,
    /// How many came already.
    place: usize,
}

impl<'a> Model for Holders<'a> {
    ghost use Rattle.std.specs.Prelude.{List, drop};
    ghost use Rattle.af_runs.specs.Busy.{holders_of};
    ghost use Rattle.af_runs.specs.declared.run.Run.{Run};

    ghost Value = { List Run };

    ghost view = { λ holders. drop holders.place (holders_of holders.runs.now.rows) };
}

impl<'a> Holders<'a> {
    /// Those of these runs that hold slots.
    pub(crate) fn of(runs: &'a Runs) -> Holders<'a>
        ensures { result ≡ holders_of runs.now.rows }
    {
        Holders { runs, place: 0 }
    }
}

impl<'a> Iterator for Holders<'a> {
    ghost use Rattle.std.specs.Iterator.{YieldsFirstRef, item_count};

    type Item = &'a Run;

    ghost next_gives = { YieldsFirstRef (λ runs. runs) };

    ghost remaining = { item_count (λ runs. runs) };

    fn next(&mut self) -> Option<&'a Run> {
        if self.place >= self.runs.holder_count() {
            return None;
        }
        let run = self.runs.holder_at(self.place);
        self.place += 1;
        run
    }
}
