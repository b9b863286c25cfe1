ghost use Rattle.std.specs.Prelude.{◌≡◌, Err, IfSome, IsNone, IsOk, OnErr, OnOk};
ghost use Rattle.af_pool.specs.Pools as pools;
ghost use Rattle.af_runs.specs.Runs.{with_advanced, without_run};
ghost use Rattle.af_sched.specs.Additions.{HasAsManyInstances};
ghost use Rattle.af_sched.specs.State.{with_paused};

use crate::state::State;
use af_names::{DagId, PoolName};
use af_pool::PoolFault;
use af_runs::Run;

impl State {
    /// Pauses the DAG of this id, or lets it go on. Where there is no such DAG nothing changes. It takes no memory.
    pub fn set_paused(&mut self, dag_id: &DagId, is_paused: bool)
        ensures { self.new ≡ record self.old {
          rows = record self.old.rows { dags = with_paused self.old.rows.dags dag_id.now is_paused };
        } }
    {
        self.dags.set_paused(dag_id, is_paused);
    }

    /// Advances the run of the later one's number to it: its state, its start, its end and its instances become those of
    /// the later one, which has as many. Where there is no such run nothing changes. It takes no memory.
    pub fn advance(&mut self, later: Run)
        requires { HasAsManyInstances self.old.rows.runs later }
        ensures { self.new ≡ record self.old {
          rows = record self.old.rows { runs = with_advanced self.old.rows.runs later };
        } }
    {
        // No two runs have one number.
        let _rows = self.runs.rows();
        self.runs.advance(later);
    }

    /// Takes the run of this number out; the number is not used again. Where there is no such run nothing changes. It takes
    /// no memory.
    pub fn remove_run(&mut self, number: u64)
        ensures { self.new ≡ record self.old {
          rows = record self.old.rows { runs = without_run self.old.rows.runs number };
        } }
    {
        self.runs.remove(number);
    }

    /// Gives a pool other slots. Its faults are those of `Pools::set_slots`; a fault leaves the state as it was.
    pub fn set_slots(&mut self, name: &PoolName, slots: u64) -> Result<(), PoolFault>
        ensures refused { IfSome (pools.set_fault self.old.rows.pools name.now slots) (λ fault. result ≡ Err fault) }
        ensures accepted { IsNone (pools.set_fault self.old.rows.pools name.now slots) → IsOk result }
        ensures ok { OnOk result (self.new ≡ record self.old {
          rows = record self.old.rows { pools = pools.with_slots self.old.rows.pools name.now slots };
        }) }
        ensures err { OnErr result (self.new ≡ self.old) }
    {
        self.pools.set_slots(name, slots)
    }
}
