ghost use Rattle.std.specs.Prelude.{◌≡◌, [], false, IfOk};
ghost use Rattle.af_http.specs.Connections.{Connects};

use crate::connection::Connection;
use crate::ended::Ended;
use crate::service::Service;
use crate::serving::{serve_all, turn_away};
use crate::stream::{Sink, Source};
use std::alloc::{AllocError, Global};

/// Room for connections that are served one after another. The first takes all the memory, at its opening, and the next ones use it again.
pub struct Room {
    alloc: Global,
    kept: Option<Connection>,
}

impl Drop for Room {
    fn drop(self) {
        let Room { alloc: _, kept: _ } = self;
    }
}

impl Room {
    /// No connection was served yet. It takes no memory.
    pub fn new(alloc: Global) -> Room {
        Room { alloc, kept: None }
    }

    /// Serves a connection, and says how it ended.
    ///
    /// Reads requests, answers each in order, and writes nothing else. What answers requests that came together is written
    /// together: before a read, and at the end. If memory is wanted, it is taken at the opening.
    pub fn serve<R: Source, W: Sink, S: Service>(
        &mut self,
        reader: &mut R,
        writer: &mut W,
        service: &mut S,
    ) -> Ended
        ensures { Connects S.answers (R.given reader.old) (R.given reader.new) (W.taken writer.old) (W.taken writer.new)
            service.old service.new result }
    {
        match self.opened() {
            Ok(connection) => self.serve_opened(connection, reader, writer, service),
            Err(_) => turn_away(writer),
        }
    }

    /// A connection, to which nothing came, and of which nothing waits.
    fn opened(&mut self) -> Result<Connection, AllocError>
        ensures { IfOk result (λ c. (c.incoming ≡ []) × (c.outgoing.bytes ≡ []) × (c.outgoing.failed ≡ false)) }
    {
        match self.kept.take() {
            Some(connection) => Ok(connection.again()),
            None => Connection::open(self.alloc),
        }
    }

    /// Serves a connection that was opened just now, and keeps its memory.
    fn serve_opened<R: Source, W: Sink, S: Service>(
        &mut self,
        connection: Connection,
        reader: &mut R,
        writer: &mut W,
        service: &mut S,
    ) -> Ended
        requires fresh { connection.incoming ≡ [] }
        requires empty { connection.outgoing.bytes ≡ [] }
        requires sound { connection.outgoing.failed ≡ false }
        ensures { Connects S.answers (R.given reader.old) (R.given reader.new) (W.taken writer.old) (W.taken writer.new)
            service.old service.new result }
    {
        let mut connection = connection;
        let ended = serve_all(&mut connection, reader, writer, service);
        self.kept = Some(connection);
        ended
    }
}
