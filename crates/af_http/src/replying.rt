ghost use Rattle.std.specs.Prelude.{◌≡◌, ◌<◌, Option, None, cond, false, length};
ghost use Rattle.af_http.specs.Limits.{outgoing_room};
ghost use Rattle.std.specs.Option.{option_copied};
ghost use Rattle.af_http.specs.Answers.{told};
ghost use Rattle.af_http.specs.Replies.{is_empty, reply_text, wants_memory, told_by};
ghost use Rattle.af_http.specs.Reading.{refusal_text, status_of};
ghost use Rattle.af_http.specs.Run.{end_by};
ghost use Rattle.af_http.specs.Sending.{Puts};

use crate::answer::Answer;
use crate::answering::put_answer;
use crate::ended::Ended;
use crate::outgoing::Outgoing;
use crate::problems::{bad_method_body, memory_text, no_path_body};
use crate::refusal::Refusal;
use crate::reply::Reply;
use crate::route_fault::RouteFault;
use crate::stream::Sink;
use af_ops::{Body, Methods, Served, Shown, Status};

/// A fault that was decided under no policy version.
fn problem(status: Status, allow: Option<Methods>, body: &[u8]) -> Answer<'_>
    ensures { told result ≡ record { status = status; allow = allow; version = None; seq = None; body = Some body.now } }
{
    Answer {
        status,
        allow,
        version: None,
        seq: None,
        body: Some(body),
    }
}

/// The body of what the service tells: 204 has none.
fn content_of(shown: &Shown) -> Option<&[u8]>
    ensures { option_copied result ≡ cond (is_empty shown.now.status) None shown.now.body }
{
    match shown.status {
        Status::NoContent => None,
        _ => shown.body.as_ref().map(Body::as_bytes),
    }
}

/// What the service tells.
fn told_by(shown: &Shown) -> Answer<'_>
    ensures { told result ≡ told_by shown.now }
{
    Answer {
        status: shown.status,
        allow: None,
        version: shown.version,
        seq: shown.seq,
        body: content_of(shown),
    }
}

/// Puts the bytes that tell a fault of the route.
fn put_fault<W: Sink>(
    writer: &mut W,
    outgoing: &mut Outgoing,
    fault: RouteFault,
    head_only: bool,
    closes: bool,
)
    requires room { outgoing.old.failed ≡ false → length outgoing.old.bytes < outgoing_room }
    ensures { Puts 1
        (record { sink = W.taken writer.old; waiting = outgoing.old })
        (record { sink = W.taken writer.new; waiting = outgoing.new })
        (reply_text (Reply.Fault fault) head_only closes) }
{
    match fault {
        RouteFault::NoPath => {
            let answer = problem(Status::NotFound, None, no_path_body());
            put_answer(writer, outgoing, &answer, head_only, closes);
        }
        RouteFault::BadMethod(allow) => {
            let answer = problem(Status::MethodNotAllowed, Some(allow), bad_method_body());
            put_answer(writer, outgoing, &answer, head_only, closes);
        }
        RouteFault::OutOfMemory => outgoing.begin(writer, memory_text()),
    }
}

/// Puts the bytes that tell what the service did.
fn put_served<W: Sink>(
    writer: &mut W,
    outgoing: &mut Outgoing,
    served: &Served,
    head_only: bool,
    closes: bool,
)
    requires room { outgoing.old.failed ≡ false → length outgoing.old.bytes < outgoing_room }
    ensures { Puts 1
        (record { sink = W.taken writer.old; waiting = outgoing.old })
        (record { sink = W.taken writer.new; waiting = outgoing.new })
        (reply_text (Reply.Served served.now) head_only closes) }
{
    match served {
        Served::Shown(shown) => {
            put_answer(writer, outgoing, &told_by(shown), head_only, closes);
        }
        Served::NothingDone => outgoing.begin(writer, memory_text()),
    }
}

/// Puts the bytes of a reply.
pub fn put_reply<W: Sink>(
    writer: &mut W,
    outgoing: &mut Outgoing,
    reply: &Reply,
    head_only: bool,
    closes: bool,
)
    requires room { outgoing.old.failed ≡ false → length outgoing.old.bytes < outgoing_room }
    ensures { Puts 1
        (record { sink = W.taken writer.old; waiting = outgoing.old })
        (record { sink = W.taken writer.new; waiting = outgoing.new })
        (reply_text reply.now head_only closes) }
{
    match reply {
        Reply::Fault(fault) => put_fault(writer, outgoing, *fault, head_only, closes),
        Reply::Served(served) => put_served(writer, outgoing, served, head_only, closes),
    }
}

/// Puts the bytes of a refusal, after which the connection ends.
pub fn refuse<W: Sink>(writer: &mut W, outgoing: &mut Outgoing, refusal: Refusal)
    requires room { outgoing.old.failed ≡ false → length outgoing.old.bytes < outgoing_room }
    ensures { Puts 0
        (record { sink = W.taken writer.old; waiting = outgoing.old })
        (record { sink = W.taken writer.new; waiting = outgoing.new })
        (refusal_text refusal) }
{
    let answer = problem(refusal.status(), None, refusal.body());
    put_answer(writer, outgoing, &answer, refusal.head_only(), true);
}

/// Whether the reply tells out of memory.
pub fn wants_memory(reply: &Reply) -> bool
    ensures { result ≡ wants_memory reply.now }
{
    match reply {
        Reply::Fault(RouteFault::OutOfMemory) => true,
        Reply::Fault(_) | Reply::Served(Served::Shown(_)) => false,
        Reply::Served(_) => true,
    }
}

/// How the connection ends after a reply, if it does.
pub fn end_by(wants: bool, closes: bool) -> Option<Ended>
    ensures { result ≡ end_by wants closes }
{
    if wants {
        Some(Ended::NoMemory)
    } else if closes {
        Some(Ended::Closed)
    } else {
        None
    }
}
