ghost use Rattle.std.specs.Prelude.{◌≡◌, ◌<◌, ◌≤◌, ℕ, Bool, [], drop, length, Option, None, Some, IfSome, false, true};
ghost use Rattle.af_http.specs.Limits.{outgoing_room, read_limit, request_limit};
ghost use Rattle.af_http.specs.Gathering.{IsGathered};
ghost use Rattle.af_http.specs.Turns.{AwaitsHead, Messages, Turned, WantsBody, left_by};
ghost use Rattle.af_http.specs.Sending.{Puts};

use crate::connection::Connection;
use crate::ended::Ended;
use crate::extent::Extent;
use crate::gathering::{BodyGathered, Gathered, gather, gather_body, settle};
use crate::handled::Handled;
use crate::message::{answer_message, end_refused};
use crate::outgoing::Outgoing;
use crate::refusal::Refusal;
use crate::service::Service;
use crate::stream::{Sink, Source};

/// Which request of a connection is served: so many went before it, and so many reads were made for its head.
#[derive(Clone, Copy)]
struct Turn {
    count: u32,
    used: u32,
}

/// A head of so many bytes is held, whose body of so many is not whole. Whether its method is HEAD.
#[derive(Clone, Copy)]
struct WantedBody {
    size: usize,
    length: usize,
    head_only: bool,
}

/// Goes on with what was found, unless a write fails; then a byte more finds room.
fn go_on<W: Sink>(writer: &mut W, outgoing: &mut Outgoing, found: Gathered) -> Option<Gathered>
    ensures put { Puts 0
        (record { sink = W.taken writer.old; waiting = outgoing.old })
        (record { sink = W.taken writer.new; waiting = outgoing.new })
        [] }
    ensures found { IfSome result (λ g. g ≡ found) }
    ensures room { IfSome result (λ g. length outgoing.new.bytes < outgoing_room) }
    ensures sound { IfSome result (λ g. outgoing.new.failed ≡ false) }
    ensures failed { result ≡ None → outgoing.new.failed ≡ true }
{
    outgoing.make_room(writer);
    unless_failed(outgoing, found)
}

/// What was found, unless a write has failed.
fn unless_failed(outgoing: &Outgoing, found: Gathered) -> Option<Gathered>
    ensures found { IfSome result (λ g. g ≡ found) }
    ensures sound { IfSome result (λ g. outgoing.now.failed ≡ false) }
    ensures failed { result ≡ None → outgoing.now.failed ≡ true }
{
    if outgoing.has_failed() {
        return None;
    }
    Some(found)
}

/// Finds the next head in what is held, or reads until it is whole, or none can be, and says in how many reads. What waits
/// for the writer leaves before a read, which may wait for the client. None where a write fails.
fn next_head<R: Source, W: Sink>(
    connection: &mut Connection,
    reader: &mut R,
    writer: &mut W,
) -> (Option<Gathered>, u32)
    ensures holds { AwaitsHead result.0 result.1 (R.given reader.old) (R.given reader.new) connection.old.incoming connection.new.incoming }
    ensures found { IfSome result.0 (λ g. IsGathered connection.new.incoming g) }
    ensures flushed { Puts 0
        (record { sink = W.taken writer.old; waiting = connection.old.outgoing })
        (record { sink = W.taken writer.new; waiting = connection.new.outgoing })
        [] }
    ensures few { result.1 ≤ read_limit }
    ensures turns { result.0 ≡ Some Gathered.Turns → result.1 ≡ read_limit }
    ensures idle { result.0 ≡ Some Gathered.ReadFailed → connection.new.outgoing.bytes ≡ [] }
    ensures room { IfSome result.0 (λ g. length connection.new.outgoing.bytes < outgoing_room) }
    ensures sound { IfSome result.0 (λ g. connection.new.outgoing.failed ≡ false) }
    ensures failed { result.0 ≡ None → connection.new.outgoing.failed ≡ true }
{
    match settle(&mut connection.incoming) {
        Extent::Whole(size) => (
            go_on(writer, &mut connection.outgoing, Gathered::Head(size)),
            0,
        ),
        Extent::Large => (go_on(writer, &mut connection.outgoing, Gathered::Large), 0),
        Extent::Part => {
            connection.outgoing.flush(writer);
            if connection.outgoing.has_failed() {
                return (None, 0);
            }
            let (found, count) = gather(reader, &mut connection.incoming, &connection.outgoing);
            (Some(found), count)
        }
    }
}

/// Answers the message at the front of what is held, whose head has so many bytes, or refuses its head, and drops it, unless
/// its body is not whole.
fn answer_held<W: Sink, S: Service>(
    connection: &mut Connection,
    size: usize,
    count: u32,
    writer: &mut W,
    service: &mut S,
) -> Handled
    requires few { count < request_limit }
    requires within { size ≤ length connection.old.incoming }
    requires sound { connection.old.outgoing.failed ≡ false }
    requires room { length connection.old.outgoing.bytes < outgoing_room }
    ensures message { Messages S.answers count service.old connection.old.incoming size
        (record { sink = W.taken writer.old; waiting = connection.old.outgoing })
        (record { sink = W.taken writer.new; waiting = connection.new.outgoing })
        service.new result }
    ensures left { connection.new.incoming ≡ left_by result connection.old.incoming }
{
    let handled = answer_message(
        connection.incoming.as_slice(),
        size,
        count,
        &mut connection.fields,
        &mut connection.routes,
        writer,
        &mut connection.outgoing,
        service,
    );
    if let Handled::Over(_, total) = handled {
        connection.incoming.drop_front(total);
    }
    handled
}

/// Answers the message at the front of what is held, whose head has so many bytes and whose body is whole, or refuses its head,
/// and drops it.
fn answer_whole<W: Sink, S: Service>(
    connection: &mut Connection,
    size: usize,
    count: u32,
    writer: &mut W,
    service: &mut S,
) -> Option<Ended>
    requires few { count < request_limit }
    requires within { size ≤ length connection.old.incoming }
    requires sound { connection.old.outgoing.failed ≡ false }
    requires room { length connection.old.outgoing.bytes < outgoing_room }
    requires whole { (n : ℕ) (head_only : Bool) → WantsBody connection.old.incoming size n head_only → ⊥ }
    ensures { (total : ℕ) × Messages S.answers count service.old connection.old.incoming size
        (record { sink = W.taken writer.old; waiting = connection.old.outgoing })
        (record { sink = W.taken writer.new; waiting = connection.new.outgoing })
        service.new (Handled.Over result total) × (connection.new.incoming ≡ drop total connection.old.incoming) }
{
    match answer_held(connection, size, count, writer, service) {
        Handled::Over(ended, _) => ended,
        // The body is whole, so the message is not short.
        Handled::Short(..) => Some(Ended::Turns),
    }
}

/// Reads the body of so many bytes that follows a head, and answers the message.
fn serve_body<R: Source, W: Sink, S: Service>(
    connection: &mut Connection,
    wanted: WantedBody,
    turn: Turn,
    reader: &mut R,
    writer: &mut W,
    service: &mut S,
) -> Option<Ended>
    requires few { turn.count < request_limit }
    requires used { turn.used ≤ read_limit }
    requires sound { connection.old.outgoing.failed ≡ false }
    requires head { IsGathered connection.old.incoming (Gathered.Head wanted.size) }
    requires body { WantsBody connection.old.incoming wanted.size wanted.length wanted.head_only }
    ensures { Turned S.answers turn.used turn.count service.old (R.given reader.old) (R.given reader.new)
        connection.old.incoming connection.new.incoming
        (record { sink = W.taken writer.old; waiting = connection.old.outgoing })
        (record { sink = W.taken writer.new; waiting = connection.new.outgoing })
        service.new result }
{
    connection.outgoing.flush(writer);
    if connection.outgoing.has_failed() {
        return Some(Ended::WriteFault);
    }
    let (found, _) = gather_body(
        reader,
        &mut connection.incoming,
        &connection.outgoing,
        wanted.size + wanted.length,
        turn.used,
    );
    match found {
        BodyGathered::Whole => answer_whole(connection, wanted.size, turn.count, writer, service),
        BodyGathered::Cut => {
            let refusal = Refusal::Incomplete(wanted.head_only);
            end_refused(writer, &mut connection.outgoing, refusal)
        }
        BodyGathered::ReadFailed => Some(Ended::ReadFault),
        BodyGathered::Turns => Some(Ended::Turns),
    }
}

/// Answers the message that begins with a head of so many bytes.
fn serve_message<R: Source, W: Sink, S: Service>(
    connection: &mut Connection,
    size: usize,
    turn: Turn,
    reader: &mut R,
    writer: &mut W,
    service: &mut S,
) -> Option<Ended>
    requires few { turn.count < request_limit }
    requires used { turn.used ≤ read_limit }
    requires sound { connection.old.outgoing.failed ≡ false }
    requires room { length connection.old.outgoing.bytes < outgoing_room }
    requires head { IsGathered connection.old.incoming (Gathered.Head size) }
    ensures { Turned S.answers turn.used turn.count service.old (R.given reader.old) (R.given reader.new)
        connection.old.incoming connection.new.incoming
        (record { sink = W.taken writer.old; waiting = connection.old.outgoing })
        (record { sink = W.taken writer.new; waiting = connection.new.outgoing })
        service.new result }
{
    match answer_held(connection, size, turn.count, writer, service) {
        Handled::Over(ended, _) => ended,
        Handled::Short(length, head_only) => {
            let wanted = WantedBody {
                size,
                length,
                head_only,
            };
            serve_body(connection, wanted, turn, reader, writer, service)
        }
    }
}

/// Reads one request and answers it, and says how the connection ends, if it does.
pub fn serve_one<R: Source, W: Sink, S: Service>(
    connection: &mut Connection,
    count: u32,
    reader: &mut R,
    writer: &mut W,
    service: &mut S,
) -> Option<Ended>
    requires few { count < request_limit }
    requires sound { connection.old.outgoing.failed ≡ false }
    ensures { Turned S.answers 0 count service.old (R.given reader.old) (R.given reader.new)
        connection.old.incoming connection.new.incoming
        (record { sink = W.taken writer.old; waiting = connection.old.outgoing })
        (record { sink = W.taken writer.new; waiting = connection.new.outgoing })
        service.new result }
{
    let (found, used) = next_head(connection, reader, writer);
    match found {
        Some(found) => match found {
            Gathered::Head(size) => {
                let turn = Turn { count, used };
                serve_message(connection, size, turn, reader, writer, service)
            }
            Gathered::Large => {
                end_refused(writer, &mut connection.outgoing, Refusal::HeadTooLarge)
            }
            Gathered::Incomplete => end_refused(
                writer,
                &mut connection.outgoing,
                Refusal::Incomplete(false),
            ),
            Gathered::Closed => Some(Ended::Closed),
            Gathered::ReadFailed => Some(Ended::ReadFault),
            Gathered::Turns => Some(Ended::Turns),
        },
        None => Some(Ended::WriteFault),
    }
}
