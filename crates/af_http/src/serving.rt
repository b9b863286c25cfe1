ghost use Rattle.std.specs.Prelude.{◌≡◌, [], false};
ghost use Rattle.af_http.specs.Run.{IsMemoryText};
ghost use Rattle.af_http.specs.Connections.{Connects};
ghost use Rattle.af_http.specs.Turns.{Ran};

use crate::connection::Connection;
use crate::ended::Ended;
use crate::message::REQUEST_LIMIT;
use crate::problems::memory_text;
use crate::room::Room;
use crate::service::Service;
use crate::stream::{Sink, Source};
use crate::turn::serve_one;
use crate::writing::write_all;
use std::alloc::Global;

/// Serves requests one after another until the connection ends.
fn serve_each<R: Source, W: Sink, S: Service>(
    connection: &mut Connection,
    reader: &mut R,
    writer: &mut W,
    service: &mut S,
) -> Ended
    requires fresh { connection.old.incoming ≡ [] }
    requires empty { connection.old.outgoing.bytes ≡ [] }
    requires sound { connection.old.outgoing.failed ≡ false }
    ensures { Ran S.answers service.old (R.given reader.old) (R.given reader.new)
        (record { sink = W.taken writer.old; waiting = connection.old.outgoing })
        (record { sink = W.taken writer.new; waiting = connection.new.outgoing })
        service.new result }
{
    for count in 0..REQUEST_LIMIT {
        match serve_one(connection, count, reader, writer, service) {
            Some(ended) => return ended,
            None => {}
        }
    }
    // The last request closes, so the loop ends before.
    Ended::Closed
}

/// Serves requests until the connection ends, and writes what waits.
pub(crate) fn serve_all<R: Source, W: Sink, S: Service>(
    connection: &mut Connection,
    reader: &mut R,
    writer: &mut W,
    service: &mut S,
) -> Ended
    requires fresh { connection.old.incoming ≡ [] }
    requires empty { connection.old.outgoing.bytes ≡ [] }
    requires sound { connection.old.outgoing.failed ≡ false }
    ensures { Connects S.answers (R.given reader.old) (R.given reader.new) (W.taken writer.old) (W.taken writer.new)
        service.old service.new result }
{
    let ended = serve_each(connection, reader, writer, service);
    connection.outgoing.flush(writer);
    if connection.outgoing.has_failed() {
        return Ended::WriteFault;
    }
    ended
}

/// There is no memory to begin with.
pub(crate) fn turn_away<W: Sink>(writer: &mut W) -> Ended
    ensures { IsMemoryText (W.taken writer.old) (W.taken writer.new) result }
{
    match write_all(writer, memory_text()) {
        Ok(()) => Ended::NoMemory,
        Err(_) => Ended::WriteFault,
    }
}

/// Serves one connection, in room of its own (`Room::serve`).
pub fn serve<R: Source, W: Sink, S: Service>(
    alloc: Global,
    reader: &mut R,
    writer: &mut W,
    service: &mut S,
) -> Ended
    ensures { Connects S.answers (R.given reader.old) (R.given reader.new) (W.taken writer.old) (W.taken writer.new)
        service.old service.new result }
{
    let mut room = Room::new(alloc);
    room.serve(reader, writer, service)
}
