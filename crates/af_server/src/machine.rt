ghost use Rattle.std.specs.Prelude.{◌≡◌, ◌∷◌, ◌++◌, [], IfErr, IfOk, OnErr};
ghost use Rattle.af_server.specs.Connections.{HasHandled};
ghost use Rattle.af_server.specs.Machines.{Behaviour};

use crate::handler::Handler;
use crate::host::{Listener, Stop};
use crate::machine_log::MachineLog;
use crate::stop_wait::StopWait;
use af_names::Instant;
use af_plane::SessionLog;
use std::io::ErrorKind;
use std::sync::Wait;
use std::time::{Clock, Duration};

/// What a server has of the machine that it runs on: its time, waits, and the connections that come in at a port. What is generic over a machine
/// can make up no connection, and reads and writes one only as a handler.
pub trait Machine: Clock {
    /// What notes all that the machine does for one thread.
    type Log: MachineLog;

    ghost behaviour: { Behaviour };

    /// The time now.
    fn time(&self) -> Instant
        ensures { behaviour.tells result };

    /// Hands a connection that comes in to a handler, and notes what its reader has given and its writer taken when the handler is done. A peer
    /// has so much time for each of its turns. At an error nothing is handled.
    fn handle_next<H: Handler>(
        &self,
        listener: &Listener,
        time: Duration,
        log: &mut Self::Log,
        handler: &mut H,
    ) -> Result<(), ErrorKind>
        ensures handled { IfOk result (λ _. HasHandled H.handles listener.now handler.old handler.new (Self.Log.connections log.old) (Self.Log.connections log.new)) }
        ensures idle { OnErr result (handler.new ≡ handler.old) }
        ensures none { OnErr result (Self.Log.connections log.new ≡ Self.Log.connections log.old) }
        ensures error { IfErr result behaviour.ends }
        ensures waits { Self.Log.waits log.new ≡ Self.Log.waits log.old };

    /// Waits by the machine's clock to be told to stop, for this time at most. It notes the wait, with what the session of the thread has done by then.
    fn wait<W: Wait>(
        &self,
        leave: &W,
        stop: &Stop,
        time: Duration,
        done: &SessionLog,
        log: &mut Self::Log,
    ) -> StopWait
        ensures time { (result.workers ≡ stop.now) × (result.time ≡ time) }
        ensures waits { Self.Log.waits log.new ≡ Self.Log.waits log.old ++ (result, done.now) ∷ [] }
        ensures connections { Self.Log.connections log.new ≡ Self.Log.connections log.old };
}
