use crate::machine_log::MachineLog;
use crate::server_report::ServerReport;
use std::marker::Model;

/// What is left when the program has done what its words ask for.
#[derive(Drop)]
pub struct Done<L: MachineLog> {
    /// The status that it ends with.
    pub status: u8,
    /// What the threads of a server report, where one has listened.
    pub served: Option<ServerReport<L>>,
}

impl<L: MachineLog> Model for Done<L> {
    ghost use Rattle.af_server.specs.Reports.{DoneRows};

    ghost Value = { DoneRows };

    ghost view = { λ done. record { status = done.status; served = done.served } };
}
