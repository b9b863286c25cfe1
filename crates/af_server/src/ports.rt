ghost use Rattle.std.specs.Prelude.{◌≡◌, [], IfErr, IfOk};

use crate::host::Listener;
use crate::machine::Machine;
use std::io::ErrorKind;

/// A machine that has ports of 127.0.0.1. Who has one can begin to serve.
pub trait Ports: Machine {
    /// A listener at a port, of which 0 is any that is free; or why there is none.
    fn listen(&self, port: u16) -> Result<Listener, ErrorKind>
        ensures port { IfOk result (Self.behaviour.gives port) }
        ensures error { IfErr result Self.behaviour.refuses };

    /// A log for one thread, in which nothing is noted yet.
    fn log(&self) -> Self::Log
        ensures connections { Self.Log.connections result ≡ [] }
        ensures waits { Self.Log.waits result ≡ [] };
}
