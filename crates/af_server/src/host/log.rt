ghost use Rattle.std.specs.Prelude.{◌≡◌, [], ◌∷◌, ◌++◌};
ghost use Rattle.af_server.specs.Connections.{noted_in};

use crate::host::connection::Connection;
use crate::machine_log::MachineLog;
use crate::stop_wait::StopWait;
use af_plane::SessionLog;
use http_server::Log;

/// What the host has done for one thread. It takes no memory: it is known in proofs alone.
#[derive(Drop)]
pub struct HostLog {
    connections: Log<Connection, ()>,
    waits: Log<StopWait, SessionLog>,
}

impl HostLog {
    /// Nothing was done yet.
    pub(super) fn new() -> HostLog
        ensures connections { noted_in result.connections.items ≡ [] }
        ensures waits { result.waits.items ≡ [] }
    {
        HostLog {
            connections: Log::new(),
            waits: Log::new(),
        }
    }

    /// One connection more.
    pub(super) fn add_connection(&mut self, connection: &Connection)
        ensures connections { noted_in self.new.connections.items ≡ noted_in self.old.connections.items ++ connection.now ∷ [] }
        ensures waits { self.new.waits ≡ self.old.waits }
    {
        self.connections = self.connections.and(connection, &());
    }

    /// One wait more, with what the session of the thread has done by then.
    pub(super) fn add_wait(&mut self, wait: &StopWait, done: &SessionLog)
        ensures connections { self.new.connections ≡ self.old.connections }
        ensures waits { self.new.waits.items ≡ self.old.waits.items ++ (wait.now, done.now) ∷ [] }
    {
        self.waits = self.waits.and(wait, done);
    }
}

impl MachineLog for HostLog {
    ghost connections = { λ log. noted_in log.connections.items };

    ghost waits = { λ log. log.waits.items };
}
