ghost use Rattle.std.specs.Prelude.{◌≡◌, ℕ, All, IfSome, Some, slice_get};
ghost use Rattle.af_plane.specs.Closings.{HasTakenIn, IsOfControl, IsWithin};
ghost use Rattle.af_server.specs.Reports.{WorkerRows, filled};

use crate::machine_log::MachineLog;
use crate::worker_report::WorkerReport;
use af_plane::{Closed, Named};
use std::marker::Model;

/// How many workers a server has at most.
pub(crate) const MOST_WORKERS: usize = 16;

/// The report of each worker of a server. It takes no memory.
#[derive(Drop)]
pub struct WorkerReports<L: MachineLog> {
    slots: [Option<WorkerReport<L>>; MOST_WORKERS],
}

impl<L: MachineLog> Model for WorkerReports<L> {
    ghost use Rattle.std.specs.Prelude.{List};
    ghost use Rattle.af_server.specs.Reports.{WorkerRows, filled};

    ghost Value = { List WorkerRows };

    ghost view = { λ reports. filled reports.slots };
}

impl<L: MachineLog> WorkerReports<L> {
    /// The reports in these slots.
    pub(crate) fn of(slots: [Option<WorkerReport<L>>; MOST_WORKERS]) -> WorkerReports<L>
        ensures { result ≡ filled slots }
    {
        WorkerReports { slots }
    }

    /// Their plane takes in the session of each.
    pub(crate) fn take_in<N: Named>(&mut self, closed: &mut Closed<N>)
        requires { All (λ worker. IsOfControl N.name worker.session) self.old }
        ensures same { self.new ≡ self.old }
        ensures within { All (λ worker. IsWithin closed.new worker.session.visit) self.new }
        ensures taken { HasTakenIn closed.old closed.new }
    {
        take_in_each(&mut self.slots, closed);
    }

    /// The slots, of which the first hold the reports.
    pub fn slots(&self) -> &[Option<WorkerReport<L>>]
        ensures { filled result.now ≡ self.now }
    {
        &self.slots
    }
}

/// A plane takes in the session of each report in these slots, one after another.
fn take_in_each<N: Named, L: MachineLog>(
    slots: &mut [Option<WorkerReport<L>>],
    closed: &mut Closed<N>,
)
    requires { (i : ℕ) (worker : WorkerRows) → slice_get slots.old i ≡ Some (Some worker) → IsOfControl N.name worker.session }
    ensures same { slots.new ≡ slots.old }
    ensures within { (i : ℕ) (worker : WorkerRows) → slice_get slots.old i ≡ Some (Some worker) → IsWithin closed.new worker.session.visit }
    ensures taken { HasTakenIn closed.old closed.new }
{
    for i in 0..slots.len() {
        take_in(&mut slots[i], closed);
    }
}

/// A plane takes in the session of the report in this slot, if there is one.
#[tactic(auto, using(crate::proofs::ReportLemmas::nothing_taken))]
fn take_in<N: Named, L: MachineLog>(slot: &mut Option<WorkerReport<L>>, closed: &mut Closed<N>)
    requires { IfSome slot.old (λ worker. IsOfControl N.name worker.session) }
    ensures same { slot.new ≡ slot.old }
    ensures within { IfSome slot.old (λ worker. IsWithin closed.new worker.session.visit) }
    ensures taken { HasTakenIn closed.old closed.new }
{
    if let Some(report) = slot {
        report.take_in(closed);
    }
}
