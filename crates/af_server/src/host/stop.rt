ghost use Rattle.std.specs.Prelude.{◌≡◌, length};

use crate::machine_log::MachineLog;
use crate::worker_reports::WorkerReports;
use std::marker::Model;
use std::sync::{Condvar, CondvarTimeouts, Mutex, Wait};
use std::time::{Clock, Duration};

/// Tells a thread that waits that it is to end, when so many workers have reported. Contracts see how many.
#[derive(Drop)]
pub struct Stop {
    workers: u32,
    told: Mutex<bool>,
    changed: Condvar,
}

impl Model for Stop {
    ghost use Rattle.std.specs.Prelude.{ℕ};

    ghost Value = { ℕ };

    ghost view = { λ stop. stop.workers };
}

impl Stop {
    /// Nobody was told yet.
    pub fn new(workers: u32) -> Stop
        ensures { result ≡ workers }
    {
        Stop {
            workers,
            told: Mutex::new(false),
            changed: Condvar::new(),
        }
    }

    /// How many workers have reported when it is told.
    pub(super) fn workers(&self) -> u32
        ensures { result ≡ self.now }
    {
        self.workers
    }

    /// Tells it, and wakes who waits, now that these have reported.
    pub fn tell<L: MachineLog>(&self, rt: &impl Wait, reports: &WorkerReports<L>)
        requires { length reports.now ≡ self.now }
    {
        let _ = reports;
        *self.told.lock(rt) = true;
        self.changed.notify_all();
    }

    /// Waits to be told, for this time at most, and returns whether it was.
    pub(super) fn waits<R: Wait + Clock>(&self, rt: &R, time: Duration) -> bool {
        let (_told, outcome) = self
            .changed
            .wait_timeout_while(rt, self.told.lock(rt), time, |told| !*told);
        !outcome.timed_out()
    }
}
