//! Workers over the sample configuration, beside clients.
ghost use Rattle.std.specs.Prelude.{◌≡◌};
ghost use Rattle.af_plane.specs.Names.{IsOfName};

use crate::tests::BASE;
use crate::tests::asserts::holds;
use af_plane::{Control, Named, Parts};
use af_server::{
    Configuration, Gate, HostLog, Listener, Machine, Permits, Ports, Shared, WorkerReports, Workers,
};
use std::alloc::Global;
use std::marker::Brand;
use std::process::Abort;
use std::sync::Wait;
use std::test::Fail;
use std::thread::Threads;
use std::{io, thread};

/// What each worker reports, and what the clients met.
type Ended<L> = (WorkerReports<L>, io::Result<bool>);

/// Serves so many connections with each worker, while the clients do what they do.
fn serve_shared<
    G: Gate + Sync,
    T,
    C: Shared<T> + Sync,
    P: Permits<T> + Sync,
    R: Threads + Wait + Ports + Sync,
    F: FnOnce() -> io::Result<bool>,
>(
    rt: &R,
    alloc: Global,
    shared: &C,
    permits: &P,
    workers: &Workers<G>,
    listener: &Listener,
    connections: u32,
    clients: F,
) -> Ended<R::Log>
where
    R::Log: Send,
    requires { F.pre clients }
{
    thread::join(
        rt,
        || workers.run(rt, alloc, shared, permits, listener, Some(connections)),
        clients,
    )
}

/// The same, over what threads share that have these parts.
fn serve<
    G: Gate + Sync,
    N: Named + Send + Sync,
    R: Threads + Wait + Ports + Sync,
    F: FnOnce() -> io::Result<bool>,
>(
    rt: &R,
    alloc: Global,
    parts: Parts,
    workers: &Workers<G>,
    listener: &Listener,
    connections: u32,
    clients: F,
) -> Ended<R::Log>
where
    R::Log: Send,
    requires board { parts.board ≡ N.name.site }
    requires plane { IsOfName N.name parts.plane }
    requires clients { F.pre clients }
{
    let (control, issuer) = Control::<N>::of(parts);
    serve_shared(
        rt,
        alloc,
        &control,
        &issuer,
        workers,
        listener,
        connections,
        clients,
    )
}

/// What the sample configuration opens with.
fn parts(alloc: Global) -> Result<Parts, Fail> {
    let Configuration {
        policy,
        state,
        scripts,
        limits,
    } = Configuration::read(alloc, BASE.as_bytes())?;
    drop(scripts);
    let parts = Parts::open(alloc, policy, limits.versions, state, limits.history)?;
    Ok(parts)
}

/// How many connections were served in all.
fn sum(reports: &WorkerReports<HostLog>) -> u64 {
    let mut sum = 0u64;
    for slot in reports.slots() {
        if let Some(report) = slot {
            sum = sum.saturating_add(report.count());
        }
    }
    sum
}

/// Serves so many connections with each worker, under the sample configuration, while the clients do what they do, and ends the test where they
/// do not meet what they should, or where another number of connections is served in all. The name of the control is picked here.
pub fn beside<
    G: Gate + Sync,
    R: Abort + Threads + Wait + Machine<Log = HostLog> + Ports + Sync,
    F: FnOnce() -> io::Result<bool>,
>(
    rt: &R,
    alloc: Global,
    workers: &Workers<G>,
    listener: &Listener,
    connections: u32,
    clients: F,
    total: u64,
) -> Result<(), Fail>
    requires { F.pre clients }
{
    let parts = parts(alloc)?;
    let (reports, met) = serve::<G, Brand, R, F>(
        rt,
        alloc,
        parts,
        workers,
        listener,
        connections,
        clients,
    );
    let count = sum(&reports);
    drop(reports);
    holds(rt, met?, "what the clients meet");
    holds(rt, count == total, "how many connections are served");
    Ok(())
}
