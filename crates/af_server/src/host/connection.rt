ghost use Rattle.std.specs.Prelude.{◌≡◌};
ghost use Rattle.af_http.specs.Histories.{given_by, taken_by};

use crate::host::listener::Listener;
use af_http::{Counted, Ended};
use std::marker::Model;

/// A connection that has ended: its port, what its reader has given and its writer taken, and how it ended.
#[derive(Drop)]
pub struct Connection {
    port: u16,
    reader: Counted<()>,
    writer: Counted<()>,
    ended: Ended,
}

impl Model for Connection {
    ghost use Rattle.af_http.specs.Histories.{given_by, taken_by};
    ghost use Rattle.af_server.specs.Connections.{ConnectionRows};

    ghost Value = { ConnectionRows };

    ghost view = { λ c. record { port = c.port; given = given_by c.reader; taken = taken_by c.writer; ended = c.ended } };
}

impl Connection {
    /// A connection that came in at a listener, with what was read and written of it.
    pub(super) fn of(
        listener: &Listener,
        reader: Counted<()>,
        writer: Counted<()>,
        ended: Ended,
    ) -> Connection
        ensures { result ≡ record { port = listener.now; given = given_by reader; taken = taken_by writer; ended = ended } }
    {
        Connection {
            port: listener.port(),
            reader,
            writer,
            ended,
        }
    }
}
