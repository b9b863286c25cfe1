ghost use Rattle.std.specs.Prelude.{◌≡◌, ◌≤◌, ◌<◌, ℕ, All, IsSomeAnd, None, Option, length, slice_index_or};
ghost use Rattle.af_server.specs.Connections.{CameAt};
ghost use Rattle.af_server.specs.Reports.{EndsBy, WorkerRows};

use crate::gate::Gate;
use crate::host::Listener;
use crate::permits::Permits;
use crate::ports::Ports;
use crate::shared::Shared;
use crate::worker_report::WorkerReport;
use crate::worker_reports::{MOST_WORKERS, WorkerReports};
use std::alloc::Global;
use std::sync::Wait;
use std::thread::Threads;
use std::time::Duration;
use std::{mem, thread};

/// How many seconds a peer has for each of its turns.
const TIME: u64 = 10;

/// Threads that serve the connections that come in at one port, each one connection at a time.
#[derive(Drop)]
pub struct Workers<G: Gate> {
    gate: G,
    count: u32,
    time: Duration,
    ghost few: { count ≤ 16 },
}

impl<G: Gate + Sync> Workers<G> {
    /// So many threads, each of whose answers passes the gate. A peer has ten seconds to send a request, and ten to take what answers it.
    pub fn new(gate: G, count: u32) -> Workers<G>
        requires { count ≤ 16 }
        ensures { result.count ≡ count }
    {
        Workers {
            gate,
            count,
            time: Duration::from_secs(TIME),
        }
    }

    /// The same, with more or less time for each of a peer's turns.
    pub fn with_time(self, time: Duration) -> Workers<G>
        ensures { result.count ≡ self.count }
    {
        let Workers { gate, count, .. } = self;
        Workers { gate, count, time }
    }

    /// Serves until each worker has ended. A worker has one session for its life. It ends after so many connections if there is a number, and
    /// if the machine gives no more. It takes no memory.
    pub fn run<T, C: Shared<T> + Sync, P: Permits<T> + Sync, R: Threads + Wait + Ports + Sync>(
        &self,
        rt: &R,
        alloc: Global,
        shared: &C,
        permits: &P,
        listener: &Listener,
        connections: Option<u32>,
    ) -> WorkerReports<R::Log>
    where
        R::Log: Send,
        ensures all { length result ≡ self.entry.now.count }
        ensures each { All (λ worker. C.serves shared.now R.behaviour.tells worker.connections worker.session × CameAt listener.now worker.connections × EndsBy R.behaviour.ends connections (length worker.connections) worker.error) result }
    {
        let mut slots: [Option<WorkerReport<R::Log>>; MOST_WORKERS] = [
            None, None, None, None, None, None, None, None, None, None, None, None, None, None,
            None, None,
        ];
        let count = self.count as usize;
        self.fill(
            rt,
            alloc,
            shared,
            permits,
            listener,
            connections,
            &mut slots[..count],
        );
        WorkerReports::of(slots)
    }

    /// Serves with a worker for each slot, until each has ended and left its report there.
    fn fill<T, C: Shared<T> + Sync, P: Permits<T> + Sync, R: Threads + Wait + Ports + Sync>(
        &self,
        rt: &R,
        alloc: Global,
        shared: &C,
        permits: &P,
        listener: &Listener,
        connections: Option<u32>,
        slots: &mut [Option<WorkerReport<R::Log>>],
    )
    where
        R::Log: Send,
        requires { (i : ℕ) (other : Option WorkerRows) → i < length slots.old → slice_index_or slots.old i other ≡ None }
        ensures { (i : ℕ) → i < length slots.old → IsSomeAnd (slice_index_or slots.new i None) (λ worker. C.serves shared.now R.behaviour.tells worker.connections worker.session × CameAt listener.now worker.connections × EndsBy R.behaviour.ends connections (length worker.connections) worker.error) }
    {
        let count = slots.len();
        if count == 0 {
            return;
        }
        let (gate, time) = (&self.gate, self.time);
        let work = |_: usize, slot: &mut Option<WorkerReport<R::Log>>|
            requires { slot.now ≡ None }
            ensures { IsSomeAnd slot.exit.now (λ worker. C.serves shared.entry.now R.behaviour.tells worker.connections worker.session × CameAt listener.entry.now worker.connections × EndsBy R.behaviour.ends connections (length worker.connections) worker.error) }
        {
            let (permit, log) = (permits.issue(), rt.log());
            let report = shared.serve(permit, log, rt, alloc, gate, listener, time, connections);
            match mem::replace(slot, Some(report)) {
                None => {}
                Some(_other) => unreachable!(),
            }
        };
        thread::for_each_mut(rt, slots, count, &work);
    }
}
