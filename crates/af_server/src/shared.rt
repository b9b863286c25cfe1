ghost use Rattle.std.specs.Prelude.{◌≡◌, ℕ, List, [], length};
ghost use Rattle.std.specs.declared.time.Duration.{Duration};
ghost use Rattle.af_sched.specs.Scripts.{ScriptRow};
ghost use Rattle.af_plane.specs.Visits.{SessionRows};
ghost use Rattle.af_server.specs.Connections.{CameAt, ConnectionRows};
ghost use Rattle.af_server.specs.Reports.{EndsBy, SchedulerRows};

use crate::gate::Gate;
use crate::host::{Listener, Stop};
use crate::machine::Machine;
use crate::scheduler_report::SchedulerReport;
use crate::serving::Serving;
use crate::ticker::Ticker;
use crate::worker::Worker;
use crate::worker_report::WorkerReport;
use af_plane::{Control, Named, SessionPermit};
use af_sched::Scripted;
use std::alloc::Global;
use std::sync::Wait;
use std::time::Duration;

/// What threads share. Each works on it with the one session that its permit is for, and gives the session back when it ends.
pub trait Shared<T> {
    /// Whether a worker may have served these connections with this session, where the clock may tell these instants.
    ghost serves: { Self → (ℕ → Type 0) → List ConnectionRows → SessionRows → Type 0 };

    /// Whether a scheduler by these scripts, with a round after each period until so many workers have reported, may report this, where the
    /// clock may tell these instants.
    ghost schedules: { Self → (ℕ → Type 0) → List ScriptRow → ℕ → Duration → SchedulerRows → Type 0 };

    /// Serves the connections that come in, one after another, each noted in the log. It ends after so many if there is a number, and if the
    /// machine gives no more. A peer has so much time for each of its turns.
    fn serve<R: Wait + Machine, G: Gate>(
        &self,
        permit: T,
        log: R::Log,
        rt: &R,
        alloc: Global,
        gate: &G,
        listener: &Listener,
        time: Duration,
        connections: Option<u32>,
    ) -> WorkerReport<R::Log>
        requires { R.Log.connections log ≡ [] }
        ensures serves { serves self.now R.behaviour.tells result.connections result.session }
        ensures came { CameAt listener.now result.connections }
        ensures ended { EndsBy R.behaviour.ends connections (length result.connections) result.error };

    /// Ticks once in each period, and then runs what is queued by scripts, until it is told to stop.
    fn schedule<R: Wait + Machine>(
        &self,
        permit: T,
        log: R::Log,
        rt: &R,
        alloc: Global,
        scripted: &mut Scripted,
        period: Duration,
        stop: &Stop,
    ) -> SchedulerReport<R::Log>
        requires waits { R.Log.waits log ≡ [] }
        requires connections { R.Log.connections log ≡ [] }
        ensures { schedules self.now R.behaviour.tells scripted.old stop.now period result };
}

impl<N: Named> Shared<SessionPermit<N>> for Control<N> {
    ghost use Rattle.af_server.specs.Rounds.{HasScheduled};
    ghost use Rattle.af_server.specs.Workers.{HasServed};

    ghost serves = { λ control tells connections session. HasServed tells N.name connections session };

    ghost schedules = { λ control tells scripts workers period scheduler. HasScheduled tells N.name scripts workers period scheduler };

    fn serve<R: Wait + Machine, G: Gate>(
        &self,
        permit: SessionPermit<N>,
        log: R::Log,
        rt: &R,
        alloc: Global,
        gate: &G,
        listener: &Listener,
        time: Duration,
        connections: Option<u32>,
    ) -> WorkerReport<R::Log> {
        let mut log = log;
        let mut serving = Serving::by(alloc, Worker::open(rt, alloc, self, permit, gate));
        let (count, error) = serving.serve_each(rt, listener, time, connections, &mut log);
        WorkerReport::of(serving.into_service().end(), log, count, error)
    }

    fn schedule<R: Wait + Machine>(
        &self,
        permit: SessionPermit<N>,
        log: R::Log,
        rt: &R,
        alloc: Global,
        scripted: &mut Scripted,
        period: Duration,
        stop: &Stop,
    ) -> SchedulerReport<R::Log> {
        let mut log = log;
        let mut ticker = Ticker::open(rt, alloc, self, permit);
        ticker.run(scripted, period, stop, &mut log);
        SchedulerReport {
            session: ticker.end(),
            log,
        }
    }
}
