ghost use Rattle.std.specs.Prelude.{◌≡◌};
ghost use Rattle.af_plane.specs.Closings.{HasTakenIn, IsOfControl, IsWithin};

use crate::machine_log::MachineLog;
use af_plane::{Closed, EndedSession, Named};
use std::marker::Model;

/// What the scheduler reports when it ends: its session, and how it waited to be told to stop.
#[derive(Drop)]
pub struct SchedulerReport<L: MachineLog> {
    pub session: EndedSession,
    pub log: L,
}

impl<L: MachineLog> Model for SchedulerReport<L> {
    ghost use Rattle.af_server.specs.Reports.{SchedulerRows};

    ghost Value = { SchedulerRows };

    ghost view = { λ report. record { session = report.session; connections = L.connections report.log; waits = L.waits report.log } };
}

impl<L: MachineLog> SchedulerReport<L> {
    /// Its plane takes the session in.
    pub(crate) fn take_in<N: Named>(&mut self, closed: &mut Closed<N>)
        requires { IsOfControl N.name self.old.session }
        ensures same { self.new ≡ self.old }
        ensures within { IsWithin closed.new self.new.session.visit }
        ensures taken { HasTakenIn closed.old closed.new }
    {
        closed.take_in(&mut self.session);
    }
}
