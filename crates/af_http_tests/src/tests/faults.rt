ghost use Rattle.std.specs.Prelude.{◌<◌};

use crate::tests::answers::{INCOMPLETE, LAST_VERSION, MEMORY, NO_PATH, VERSION};
use crate::tests::asserts::{call_holds, holds, number_holds};
use crate::tests::cases::is_joined;
use crate::tests::tools::{Paper, Pieces, broken_paper, new_paper, run, run_long};
use af_http::Ended;
use af_ops::Status;
use std::alloc::Global;
use std::process::Abort;

/// A request of 41 bytes, one of 31, and a part of a third of 36.
const INPUT: &[u8] =
    b"GET /api/v1/version HTTP/1.1\r\nHost: h\r\n\r\nGET /nope HTTP/1.1\r\nHost: h\r\n\r\nGET /api/v1/dags HTTP/1.1\r\nHost: h\r\n";

/// What answers the whole input, to the byte.
const PARTS_OF_WHOLE: &[&str] = &[VERSION, NO_PATH, INCOMPLETE];

/// The same in one text.
fn whole(rt: &impl Abort, alloc: Global) -> Vec<u8> {
    let mut text = Vec::new(alloc);
    for part in PARTS_OF_WHOLE {
        text.extend_from_slice(part.as_bytes())
            .expect(rt, "room for an answer");
    }
    text
}

/// How many bytes answer the requests that are whole in so many bytes of the input.
fn answered(came: usize) -> usize {
    if came < 41 {
        0
    } else if came < 72 {
        VERSION.len()
    } else {
        VERSION.len().saturating_add(NO_PATH.len())
    }
}

/// Whether a text is the first so many bytes of what answers the whole input.
fn is_front(rt: &impl Abort, alloc: Global, text: &[u8], count: usize) -> bool {
    let whole = whole(rt, alloc);
    let (front, _) = whole.as_slice().split_at(count.min(whole.len()));
    let is_front = text == front;
    drop(whole);
    is_front
}

/// Whether the input in pieces of a size, where the reader fails at this call, ends so, whether the requests that came whole are
/// answered, to the byte, and nothing else, and whether the service is called where there was one.
fn fails_at(rt: &impl Abort, alloc: Global, size: usize, call: usize) -> bool {
    let mut pieces = Pieces::of(INPUT, size);
    pieces.fails_at = Some(call);
    let (ended, paper, calls) = run(alloc, pieces, new_paper(rt, alloc));
    let count = answered(size.saturating_mul(call.saturating_sub(1)));
    let is_whole = is_front(rt, alloc, paper.bytes.as_slice(), count);
    drop(paper);
    ended == Ended::ReadFault && is_whole && (calls == 1) == (count > 0)
}

/// Sizes of pieces, and the last call of each.
const READERS: &[(usize, usize)] = &[(1, 109), (2, 55), (3, 37), (10, 12)];

/// A reader that fails at each call in turn.
#[test]
fn readers_that_fail(rt: HostRuntime) {
    assert!(rt; INPUT.len() == 108, "the input");
    for (size, last) in READERS {
        for call in 1..=*last {
            let fails = fails_at(&rt, rt.alloc(), *size, call);
            call_holds(&rt, fails, *size, call);
        }
    }
}

/// How many bytes a writer took in so many calls: first what answers the two requests, which leaves before the read that
/// finds the end, and then the refusal.
fn taken(size: usize, calls: usize) -> usize
    requires { 0 < size }
{
    let first = answered(72);
    let refused = calls.saturating_sub(first.div_ceil(size));
    size.saturating_mul(calls)
        .min(first)
        .saturating_add(size.saturating_mul(refused).min(INCOMPLETE.len()))
}

/// Whether a writer that fails, or takes no byte, at this call ends the connection so, and took all that the calls before it
/// were given.
fn breaks_at(rt: &impl Abort, alloc: Global, size: usize, call: usize, stalls: bool) -> bool
    requires { 0 < size }
{
    let paper = broken_paper(rt, alloc, size, call, stalls);
    let (ended, paper, calls) = run(alloc, Pieces::of(INPUT, 1000), paper);
    let count = taken(size, call.saturating_sub(1));
    let is_taken = is_front(rt, alloc, paper.bytes.as_slice(), count);
    drop(paper);
    ended == Ended::WriteFault && calls == 1 && is_taken
}

/// How many calls a writer of this size gets.
fn last_call(size: usize) -> usize
    requires { 0 < size }
{
    let first = answered(72);
    first
        .div_ceil(size)
        .saturating_add(INCOMPLETE.len().div_ceil(size))
}

/// Ends the test where a writer of this size that fails, or takes no byte, does not break the connection so, at each call in turn.
fn all_break(rt: &impl Abort, alloc: Global, size: usize, stalls: bool)
    requires { 0 < size }
{
    for call in 1..=last_call(size) {
        let breaks = breaks_at(rt, alloc, size, call, stalls);
        call_holds(rt, breaks, size, call);
    }
}

/// The last of them takes any number of bytes a call.
#[test]
fn writers_that_fail(rt: HostRuntime) {
    for size in [2usize, 3, 40, usize::MAX] {
        all_break(&rt, rt.alloc(), size, false);
    }
}

#[test]
fn writers_that_take_no_byte(rt: HostRuntime) {
    for size in [2usize, 3, 40, usize::MAX] {
        all_break(&rt, rt.alloc(), size, true);
    }
}

#[test]
fn writers_of_one_byte_that_fail(rt: HostRuntime) {
    all_break(&rt, rt.alloc(), 1, false);
}

#[test]
fn writers_of_one_byte_that_take_none(rt: HostRuntime) {
    all_break(&rt, rt.alloc(), 1, true);
}

/// How few bytes a writer takes a call.
const WRITER_SIZES: &[usize] = &[1, 2, 3, 7, 40];

/// A writer that takes few bytes a call takes all of them.
#[test]
fn writers_that_take_little(rt: HostRuntime) {
    for size in WRITER_SIZES {
        let takes = takes_little(&rt, rt.alloc(), *size);
        number_holds(&rt, takes, "pieces of", *size);
    }
}

/// Whether a writer that takes so many bytes a call sees the connection end so, and takes all of them.
fn takes_little(rt: &impl Abort, alloc: Global, size: usize) -> bool {
    let mut paper = new_paper(rt, alloc);
    paper.size = size;
    let (ended, paper, calls) = run(alloc, Pieces::of(INPUT, size), paper);
    let wanted = whole(rt, alloc);
    let is_whole = paper.bytes.as_slice() == wanted.as_slice();
    drop(wanted);
    drop(paper);
    ended == Ended::Refused(Status::BadRequest) && calls == 1 && is_whole
}

const ASKS_LONG: &[u8] =
    b"GET /api/v1/dags HTTP/1.1\r\nHost: h\r\nAuthorization: Bearer test\r\nConnection: close\r\n\r\n";

/// The head of an answer with a body of so many bytes.
fn long_head(rt: &impl Abort, alloc: Global, length: usize) -> String {
    let head = format!(in alloc;
        "HTTP/1.1 200 OK\r\nContent-Type: application/json\r\nContent-Length: {length}\r\nX-Policy-Version: 3\r\nX-Plane-Seq: 70\r\nConnection: close\r\n\r\n"
    );
    head.expect(rt, "the head of an answer")
}

/// Whether an answer begins with the head of a body of so many bytes, and whether that body follows, which is x alone.
fn is_long(rt: &impl Abort, alloc: Global, text: &[u8], length: usize) -> bool {
    let head = long_head(rt, alloc, length);
    let (front, body) = text.split_at(head.len().min(text.len()));
    let is_head = front == head.as_bytes();
    drop(head);
    is_head && body.len() == length && has_x_alone(body)
}

fn has_x_alone(bytes: &[u8]) -> bool {
    for byte in bytes {
        if *byte != b'x' {
            return false;
        }
    }
    true
}

/// Whether a connection with an answer of so many bytes closes after it, and that answer is told.
fn answers_long(rt: &impl Abort, alloc: Global, length: usize) -> bool {
    let pieces = Pieces::of(ASKS_LONG, 1000);
    let (ended, paper, calls) = run_long(alloc, length, pieces, new_paper(rt, alloc));
    let is_told = is_long(rt, alloc, paper.bytes.as_slice(), length);
    drop(paper);
    ended == Ended::Closed && calls == 1 && is_told
}

/// Lengths of bodies.
const BODY_LENGTHS: &[usize] = &[65_400, 65_536, 65_537, 200_000];

/// An answer that is longer than what is held for the writer is whole.
#[test]
fn long_answers(rt: HostRuntime) {
    for length in BODY_LENGTHS {
        let answers = answers_long(&rt, rt.alloc(), *length);
        number_holds(&rt, answers, "a body of", *length);
    }
}

/// Whether a connection that ends so, after so many calls, had the fixed answer at its end, or closed after both of its requests.
fn is_answered(ended: Ended, written: &[u8], calls: usize) -> bool {
    let before = if calls == 2 { VERSION } else { "" };
    let last = match ended {
        Ended::NoMemory => MEMORY,
        _ => LAST_VERSION,
    };
    is_joined(written, [before, last])
        && (ended == Ended::NoMemory || (ended == Ended::Closed && calls == 2))
}

/// Where memory is refused, the fixed answer is given, at the opening or to the request that wanted it, and never
/// anything between.
#[test]
fn memory_refused(rt: HostRuntime) {
    let alloc = rt.alloc();
    let input =
        b"GET /api/v1/version HTTP/1.1\r\nHost: h\r\n\r\nGET /api/v1/version HTTP/1.1\r\nHost: h\r\nConnection: close\r\n\r\n";
    if let Ok(paper) = Paper::new(alloc) {
        let (ended, paper, calls) = run(alloc, Pieces::of(input, 1000), paper);
        let is_answered = is_answered(ended, paper.bytes.as_slice(), calls);
        drop(paper);
        holds(&rt, is_answered, "the answers, and the end");
    }
}
