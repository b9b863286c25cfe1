ghost use Rattle.std.specs.Prelude.{◌≡◌, ◌≤◌, All, IfOk, None, length};
ghost use Rattle.std.specs.Duration.{as_nanos};
ghost use Rattle.std.specs.declared.time.Duration.{Duration};
ghost use Rattle.af_plane.specs.Closings.{IsWithin};
ghost use Rattle.af_plane.specs.Names.{IsNamed, IsOfName};
ghost use Rattle.af_server.specs.Connections.{CameAt};
ghost use Rattle.af_server.specs.Listenings.{server_of};
ghost use Rattle.af_server.specs.Reports.{EndsBy};
ghost use Rattle.af_server.specs.Rounds.{HasScheduled, second};
ghost use Rattle.af_server.specs.Servers.{IsServerOf, IsServerReport};
ghost use Rattle.af_server.specs.Workers.{IsWorkerReport};

use crate::config::Configuration;
use crate::gate::Open;
use crate::host::{Listener, Stop};
use crate::permits::Permits;
use crate::ports::Ports;
use crate::scheduler_report::SchedulerReport;
use crate::server_report::ServerReport;
use crate::shared::Shared;
use crate::worker_count::WorkerCount;
use crate::worker_reports::WorkerReports;
use crate::workers::Workers;
use af_board::OutOfMemory;
use af_plane::{Control, Named, Parts};
use af_sched::Scripted;
use std::alloc::Global;
use std::marker::Brand;
use std::sync::Wait;
use std::thread;
use std::thread::Threads;
use std::time::Duration;

/// What a server runs: a board with a plane over it, and the scripts by which its tasks end.
pub struct Server {
    pub parts: Parts,
    pub scripted: Scripted,
}

impl Drop for Server {
    fn drop(self) {
        let Server {
            parts: _,
            scripted: _,
        } = self;
    }
}

impl Server {
    /// What a configuration says. `OutOfMemory` if an allocation failed.
    pub fn open(alloc: Global, configuration: Configuration) -> Result<Server, OutOfMemory>
        ensures { IfOk result (λ s. IsServerOf configuration (server_of s.parts.board s.parts.plane s.scripted)) }
    {
        let Configuration {
            policy,
            state,
            scripts,
            limits,
        } = configuration;
        let parts = Parts::open(alloc, policy, limits.versions, state, limits.history)?;
        Ok(Server {
            parts,
            scripted: Scripted::new(scripts),
        })
    }

    /// Serves with so many workers until each has ended. Meanwhile the scheduler has rounds, with a second between two. Then the plane takes in
    /// the session of each.
    pub fn run<N: Named + Send + Sync, R: Threads + Wait + Ports + Sync>(
        self,
        rt: &R,
        alloc: Global,
        listener: &Listener,
        count: u32,
    ) -> ServerReport<R::Log>
    where
        R::Log: Send,
        requires board { self.parts.board ≡ N.name.site }
        requires plane { IsOfName N.name self.parts.plane }
        requires few { count ≤ 16 }
        ensures all { length result.workers ≡ count }
        ensures each { All (IsWorkerReport R.behaviour N.name listener.now None) result.workers }
        ensures scheduled { (period : Duration) × (as_nanos period ≡ second) × HasScheduled R.behaviour.tells N.name self.scripted count period result.scheduler }
        ensures plane { IsNamed N.name result.plane }
        ensures workers_within { All (λ worker. IsWithin result.plane worker.session.visit) result.workers }
        ensures scheduler_within { IsWithin result.plane result.scheduler.session.visit }
    {
        let Server { parts, scripted } = self;
        let mut scripted = scripted;
        let (control, issuer) = Control::<N>::of(parts);
        let (scheduler, workers) = run_threads(
            rt,
            alloc,
            &control,
            &issuer,
            &mut scripted,
            listener,
            count,
        );
        ServerReport::at_end(control, scheduler, workers)
    }
}

/// Runs the workers and, beside them, the scheduler, until each worker has ended.
fn run_threads<T, C: Shared<T> + Sync, P: Permits<T> + Sync, R: Threads + Wait + Ports + Sync>(
    rt: &R,
    alloc: Global,
    shared: &C,
    permits: &P,
    scripted: &mut Scripted,
    listener: &Listener,
    count: u32,
) -> (SchedulerReport<R::Log>, WorkerReports<R::Log>)
where
    R::Log: Send,
    requires { count ≤ 16 }
    ensures all { length result.1 ≡ count }
    ensures each { All (λ worker. C.serves shared.now R.behaviour.tells worker.connections worker.session × CameAt listener.now worker.connections × EndsBy R.behaviour.ends None (length worker.connections) worker.error) result.1 }
    ensures scheduled { (period : Duration) × (as_nanos period ≡ second) × C.schedules shared.now R.behaviour.tells scripted.old count period result.0 }
{
    let workers = Workers::new(Open, count);
    let stop = Stop::new(count);
    let period = Duration::from_secs(1);
    // The scheduler comes first: where no thread can be made, `join` runs its first closure last.
    thread::join(
        rt,
        || {
            let (permit, log) = (permits.issue(), rt.log());
            shared.schedule(permit, log, rt, alloc, scripted, period, &stop)
        },
        || -> WorkerReports<R::Log>
            requires { workers.count ≡ stop }
            ensures all { length result ≡ workers.count }
            ensures each { All (λ worker. C.serves shared.entry.now R.behaviour.tells worker.connections worker.session × CameAt listener.entry.now worker.connections × EndsBy R.behaviour.ends None (length worker.connections) worker.error) result }
        {
            let reports = workers.run(rt, alloc, shared, permits, listener, None);
            stop.tell(rt, &reports);
            reports
        },
    )
}

/// Serves with so many workers until each has ended. The name of the control is picked here.
pub fn serve<R: Threads + Wait + Ports + Sync>(
    rt: &R,
    alloc: Global,
    server: Server,
    listener: &Listener,
    count: &WorkerCount,
) -> ServerReport<R::Log>
where
    R::Log: Send,
    ensures { IsServerReport R.behaviour count.now listener.now (server_of server.parts.board server.parts.plane server.scripted) result }
{
    server.run::<Brand, R>(rt, alloc, listener, count.count())
}
