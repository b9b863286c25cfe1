ghost use Rattle.std.specs.Prelude.{◌≡◌};

use std::marker::Model;
use std::net::TcpListener;

/// A listener at a port of 127.0.0.1. Contracts see the port.
#[derive(Drop)]
pub struct Listener {
    socket: TcpListener,
    port: u16,
}

impl Model for Listener {
    ghost use Rattle.std.specs.Prelude.{ℕ};

    ghost Value = { ℕ };

    ghost view = { λ listener. listener.port };
}

impl Listener {
    /// The listener of this socket, which is at this port.
    pub(super) fn of(socket: TcpListener, port: u16) -> Listener
        ensures { result ≡ port }
    {
        Listener { socket, port }
    }

    /// Its port.
    pub fn port(&self) -> u16
        ensures { result ≡ self.now }
    {
        self.port
    }

    /// The socket that gives its connections.
    pub(super) fn socket(&self) -> &TcpListener {
        &self.socket
    }
}
