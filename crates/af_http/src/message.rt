ghost use Rattle.std.specs.Prelude.{◌≡◌, ◌+◌, ◌<◌, ◌≤◌, ℕ, List, length, Some, false};
ghost use Rattle.std.specs.Option.{option_copied};
ghost use Rattle.af_http.specs.Limits.{outgoing_room, request_limit};
ghost use Rattle.af_http.specs.Requests.{seen};
ghost use Rattle.af_http.specs.Reading.{closes_after, refusal_text, status_of};
ghost use Rattle.af_http.specs.declared.ended.Ended.TheVariants as end;
ghost use Rattle.af_http.specs.Run.{Makes};
ghost use Rattle.af_http.specs.Turns.{Answers, Messages, or_fault};
ghost use Rattle.af_http.specs.Sending.{Puts};

use crate::ended::Ended;
use crate::field_spans::FieldSpans;
use crate::handled::Handled;
use crate::outgoing::Outgoing;
use crate::reading::{is_head, read_head};
use crate::refusal::Refusal;
use crate::reply::Reply;
use crate::replying::{end_by, put_reply, refuse, wants_memory};
use crate::request::Request;
use crate::routes::Routes;
use crate::service::Service;
use crate::stream::Sink;
use af_ops::{Call, Served};

/// The most requests of a connection.
pub const REQUEST_LIMIT: u32 = 1000;

/// The service's answer to a call. No other function calls the service.
fn answered<S: Service>(service: &mut S, token: Option<&[u8]>, call: Call) -> Served
    ensures { S.answers service.old (option_copied token.entry) call result service.new }
{
    let served = service.answer(token, &call);
    drop(call);
    served
}

/// What is made of a request. No other function has a call answered, and none is once a write has failed, since its answer would
/// not leave: a change would be made unseen.
fn make<S: Service>(
    routes: &mut Routes,
    service: &mut S,
    request: &Request<'_>,
    body: &[u8],
    _outgoing: &Outgoing,
) -> Reply
    requires sound { _outgoing.now.failed ≡ false }
    ensures { Makes S.answers service.old (seen request.now body.now) result service.new }
{
    match routes.read_call(request.method, request.target, body) {
        Ok(call) => Reply::Served(answered(service, request.token, call)),
        Err(fault) => Reply::Fault(fault),
    }
}

/// Whether the connection closes after this request, which so many went before.
fn closes_after(count: u32, request: &Request<'_>) -> bool
    requires { count < request_limit }
    ensures { (body : List ℕ) → result ≡ closes_after count (seen request.now body) }
{
    request.closes || count + 1 == REQUEST_LIMIT
}

/// How a run goes on: a failed write ends it.
fn or_fault(outgoing: &Outgoing, ended: Option<Ended>) -> Option<Ended>
    ensures { result ≡ or_fault outgoing.now.failed ended }
{
    if outgoing.has_failed() {
        Some(Ended::WriteFault)
    } else {
        ended
    }
}

/// Answers a request, and says how the connection ends, if it does.
fn answer_request<W: Sink, S: Service>(
    request: &Request<'_>,
    body: &[u8],
    count: u32,
    routes: &mut Routes,
    writer: &mut W,
    outgoing: &mut Outgoing,
    service: &mut S,
) -> Option<Ended>
    requires few { count < request_limit }
    requires sound { outgoing.old.failed ≡ false }
    requires room { length outgoing.old.bytes < outgoing_room }
    ensures { Answers S.answers count service.old (seen request.now body.now)
        (record { sink = W.taken writer.old; waiting = outgoing.old })
        (record { sink = W.taken writer.new; waiting = outgoing.new })
        service.new result }
{
    let reply = make(routes, service, request, body, outgoing);
    let closes = closes_after(count, request);
    put_reply(writer, outgoing, &reply, is_head(request.method), closes);
    or_fault(outgoing, end_by(wants_memory(&reply), closes))
}

/// Answers the message that begins with a head of so many bytes, or refuses its head, unless its body is not whole.
pub fn answer_message<W: Sink, S: Service>(
    held: &[u8],
    size: usize,
    count: u32,
    fields: &mut FieldSpans,
    routes: &mut Routes,
    writer: &mut W,
    outgoing: &mut Outgoing,
    service: &mut S,
) -> Handled
    requires few { count < request_limit }
    requires within { size ≤ length held.now }
    requires sound { outgoing.old.failed ≡ false }
    requires room { length outgoing.old.bytes < outgoing_room }
    ensures { Messages S.answers count service.old held.now size
        (record { sink = W.taken writer.old; waiting = outgoing.old })
        (record { sink = W.taken writer.new; waiting = outgoing.new })
        service.new result }
{
    let (head, after) = held.split_at(size);
    match read_head(head, fields) {
        Ok(request) if request.length <= after.len() => {
            let (body, _) = after.split_at(request.length);
            let ended = answer_request(&request, body, count, routes, writer, outgoing, service);
            Handled::Over(ended, size + request.length)
        }
        Ok(request) => Handled::Short(request.length, is_head(request.method)),
        Err(refusal) => Handled::Over(end_refused(writer, outgoing, refusal), size),
    }
}

/// Refuses what stands in a request's place, and ends.
pub fn end_refused<W: Sink>(
    writer: &mut W,
    outgoing: &mut Outgoing,
    refusal: Refusal,
) -> Option<Ended>
    requires room { length outgoing.old.bytes < outgoing_room }
    ensures put { Puts 0
        (record { sink = W.taken writer.old; waiting = outgoing.old })
        (record { sink = W.taken writer.new; waiting = outgoing.new })
        (refusal_text refusal) }
    ensures ends { result ≡ or_fault outgoing.new.failed (Some (end.Refused (status_of refusal))) }
{
    refuse(writer, outgoing, refusal);
    or_fault(outgoing, Some(Ended::Refused(refusal.status())))
}
