ghost use Rattle.std.specs.Prelude.{◌≡◌, drop, length, map, option_copied, slice_get, take};
ghost use Rattle.af_runs.specs.Runs.{runs_of};

use crate::run::Run;
use crate::runs::Runs;
use af_names::DagId;
use std::marker::Model;

/// Runs of one DAG, one after the other, in order of number. Contracts see the list of those that are still to come.
#[derive(Drop)]
pub struct RunsOf<'a, 'd> {
    runs: &'a Runs,
    dag_id: &'d DagId,
    /// The numbers of the first ones of the DAG's runs.
    listed: &'a [u64],
    /// How many of the DAG's runs are before the next one.
    place: usize,
}

impl<'a, 'd> Model for RunsOf<'a, 'd> {
    ghost use Rattle.std.specs.Prelude.{◌≡◌, List, drop, length, map, take};
    ghost use Rattle.af_runs.specs.Runs.{AreRuns, runs_of};
    ghost use Rattle.af_runs.specs.declared.run.Run.{Run};

    ghost Value = { List Run };

    ghost view = { λ of. drop of.place (runs_of of.runs.now.rows of.dag_id.now) };

    ghost invariant = { λ of.
        AreRuns of.runs.now.rows of.runs.now.next
        × (of.listed.now ≡ take (length of.listed.now) (map (λ run. run.number) (runs_of of.runs.now.rows of.dag_id.now))) };
}

impl<'a, 'd> RunsOf<'a, 'd> {
    /// Those runs of a DAG that come from a place among them on, where these are the numbers of its first ones.
    pub(crate) fn from(
        runs: &'a Runs,
        dag_id: &'d DagId,
        listed: &'a [u64],
        from: usize,
    ) -> RunsOf<'a, 'd>
        requires { listed.now ≡ take (length listed.now) (map (λ run. run.number) (runs_of runs.now.rows dag_id.now)) }
        ensures { result ≡ drop from (runs_of runs.now.rows dag_id.now) }
    {
        // No two runs have one number.
        let _rows = runs.rows();
        RunsOf {
            runs,
            dag_id,
            listed,
            place: from,
        }
    }

    /// The first that is still to come.
    fn first(&self) -> Option<&'a Run>
        ensures { option_copied result ≡ slice_get self.now 0 }
    {
        match self.listed.get(self.place) {
            Some(number) => self.runs.get(*number),
            None => self.runs.nth_of(self.dag_id, self.place),
        }
    }
}

impl<'a, 'd> Iterator for RunsOf<'a, 'd> {
    ghost use Rattle.std.specs.Iterator.{YieldsFirstRef, item_count};

    type Item = &'a Run;

    ghost next_gives = { YieldsFirstRef (λ runs. runs) };

    ghost remaining = { item_count (λ runs. runs) };

    fn next(&mut self) -> Option<&'a Run> {
        let run = self.first()?;
        self.place += 1;
        Some(run)
    }
}
