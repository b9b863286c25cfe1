ghost use Rattle.std.specs.Prelude.{◌≡◌, length};
ghost use Rattle.af_plane.specs.Closings.{HasTakenIn, IsOfControl, IsWithin};

use crate::machine_log::MachineLog;
use af_plane::{Closed, EndedSession, Named};
use std::io::ErrorKind;
use std::marker::Model;

/// What a worker reports when it ends: its session, the connections that it served, and the error for which it ended, if it was one.
#[derive(Drop)]
pub struct WorkerReport<L: MachineLog> {
    session: EndedSession,
    log: L,
    count: u64,
    error: Option<ErrorKind>,
}

impl<L: MachineLog> Model for WorkerReport<L> {
    ghost use Rattle.std.specs.Prelude.{◌≡◌, length};
    ghost use Rattle.af_server.specs.Reports.{WorkerRows};

    ghost Value = { WorkerRows };

    ghost view = { λ report. record { session = report.session; connections = L.connections report.log; error = report.error } };

    ghost invariant = { λ report. report.count ≡ length (L.connections report.log) };
}

impl<L: MachineLog> WorkerReport<L> {
    /// A worker whose session is over. It has served the connections of this log, which are so many, and ended for this error, if for any.
    pub(crate) fn of(
        session: EndedSession,
        log: L,
        count: u64,
        error: Option<ErrorKind>,
    ) -> WorkerReport<L>
        requires { count ≡ length (L.connections log) }
        ensures { result ≡ record { session = session; connections = L.connections log; error = error } }
    {
        WorkerReport {
            session,
            log,
            count,
            error,
        }
    }

    /// How many connections it served.
    pub fn count(&self) -> u64
        ensures { result ≡ length self.now.connections }
    {
        self.count
    }

    /// Its plane takes the session in.
    pub(crate) fn take_in<N: Named>(&mut self, closed: &mut Closed<N>)
        requires { IsOfControl N.name self.old.session }
        ensures same { self.new ≡ self.old }
        ensures within { IsWithin closed.new self.new.session.visit }
        ensures taken { HasTakenIn closed.old closed.new }
    {
        closed.take_in(&mut self.session);
    }
}
