ghost use Rattle.std.specs.Prelude.{◌≡◌, All};
ghost use Rattle.af_plane.specs.Closings.{IsOfControl, IsWithin};
ghost use Rattle.af_plane.specs.Names.{IsNamed};

use crate::machine_log::MachineLog;
use crate::scheduler_report::SchedulerReport;
use crate::worker_reports::WorkerReports;
use af_plane::{Control, Named, Plane};
use std::marker::Model;

/// What the threads of a server report, when its last worker has ended, and the plane that they left.
#[derive(Drop)]
pub struct ServerReport<L: MachineLog> {
    pub workers: WorkerReports<L>,
    pub scheduler: SchedulerReport<L>,
    pub plane: Plane,
}

impl<L: MachineLog> Model for ServerReport<L> {
    ghost use Rattle.af_server.specs.Reports.{ServerReportRows};

    ghost Value = { ServerReportRows };

    ghost view = { λ report. record { workers = report.workers; scheduler = report.scheduler; plane = report.plane } };
}

impl<L: MachineLog> ServerReport<L> {
    /// The report of the workers and the scheduler of a control, which no thread shares any more. The plane takes in the session of each.
    pub(crate) fn at_end<N: Named>(
        control: Control<N>,
        scheduler: SchedulerReport<L>,
        workers: WorkerReports<L>,
    ) -> ServerReport<L>
        requires workers { All (λ worker. IsOfControl N.name worker.session) workers }
        requires scheduler { IsOfControl N.name scheduler.session }
        ensures workers { result.workers ≡ workers }
        ensures scheduler { result.scheduler ≡ scheduler }
        ensures plane { IsNamed N.name result.plane }
        ensures workers_within { All (λ worker. IsWithin result.plane worker.session.visit) result.workers }
        ensures scheduler_within { IsWithin result.plane result.scheduler.session.visit }
    {
        let mut closed = control.close();
        let (mut scheduler, mut workers) = (scheduler, workers);
        scheduler.take_in(&mut closed);
        workers.take_in(&mut closed);
        ServerReport {
            workers,
            scheduler,
            plane: closed.into_plane(),
        }
    }
}
