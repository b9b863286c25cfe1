//! The longest body and the longest head, in pieces; and how many writes a thousand answers take.
use crate::tests::answers::{INCOMPLETE, LAST_VERSION, TOO_LARGE, VERSION};
use crate::tests::asserts::{holds, number_holds, row_goes, row_holds};
use crate::tests::cases::is_joined;
use crate::tests::cut::ASKS_VERSION;
use crate::tests::pieces::ANY_PIECES;
use crate::tests::tools::{Pieces, new_paper, run};
use af_http::Ended;
use af_ops::Status;
use std::alloc::Global;
use std::process::Abort;

/// The longest body.
const LONGEST: usize = 65_536;

/// Appends a text so many times.
fn add(rt: &impl Abort, text: &mut Vec<u8>, part: &[u8], times: usize) {
    for _ in 0..times {
        text.extend_from_slice(part).expect(rt, "room for a text");
    }
}

/// Whether an input that comes in pieces of a size ends so, and these two parts are written.
fn gives(
    rt: &impl Abort,
    alloc: Global,
    input: &[u8],
    size: usize,
    wanted: Ended,
    first: &str,
    second: &str,
) -> bool {
    let (ended, paper, _) = run(alloc, Pieces::of(input, size), new_paper(rt, alloc));
    let is_written = is_joined(paper.bytes.as_slice(), [first, second]);
    drop(paper);
    ended == wanted && is_written
}

/// The longest body is read, whatever the pieces, and the request behind it is answered. A byte a read: 64 for the head, and
/// 65,472 of the body, are as many as one request may take.
#[test]
fn longest_body(rt: HostRuntime) {
    let input = long_input(&rt, rt.alloc());
    for (size, ended, text) in PIECES_OF_LONGEST {
        let gives = gives(&rt, rt.alloc(), input.as_slice(), *size, *ended, text, text);
        number_holds(&rt, gives, "in pieces of", *size);
    }
    drop(input);
}

/// Sizes of pieces, with what comes of the longest body in these.
const PIECES_OF_LONGEST: &[(usize, Ended, &str)] = &[
    (100, Ended::Closed, VERSION),
    (16_384, Ended::Closed, VERSION),
    (100_000, Ended::Closed, VERSION),
    (1, Ended::Turns, ""),
];

/// A request with the longest body, and one behind it.
fn long_input(rt: &impl Abort, alloc: Global) -> Vec<u8> {
    let mut input = Vec::new(alloc);
    let head = b"GET /api/v1/version HTTP/1.1\r\nHost: h\r\nContent-Length: 65536\r\n\r\n";
    add(rt, &mut input, head, 1);
    add(rt, &mut input, b"\n", LONGEST);
    add(rt, &mut input, ASKS_VERSION, 1);
    input
}

/// The head's limits: how many empty lines stand before it, how many bytes it has with its own, how many of these come,
/// and what comes of it. Empty lines in front do not count.
const HEADS: &[(usize, usize, usize, Ended, &str)] = &[
    (0, 16_385, 16_385, Ended::Closed, VERSION),
    (3, 16_385, 16_385, Ended::Closed, VERSION),
    (
        0,
        16_386,
        16_386,
        Ended::Refused(Status::HeadTooLarge),
        TOO_LARGE,
    ),
    (
        0,
        16_386,
        16_384,
        Ended::Refused(Status::BadRequest),
        INCOMPLETE,
    ),
    (
        0,
        16_386,
        16_385,
        Ended::Refused(Status::HeadTooLarge),
        TOO_LARGE,
    ),
];

/// A head of so many bytes, its empty line included.
fn head_of(rt: &impl Abort, alloc: Global, size: usize) -> Vec<u8> {
    let mut head = Vec::new(alloc);
    add(
        rt,
        &mut head,
        b"GET /api/v1/version HTTP/1.1\r\nHost: h\r\nX: ",
        1,
    );
    let filled = size.saturating_sub(head.len()).saturating_sub(4);
    add(rt, &mut head, b"x", filled);
    add(rt, &mut head, b"\r\n\r\n", 1);
    head
}

/// Sizes of pieces in which a head comes.
const PIECES_OF_HEADS: &[usize] = &[1000, 16_384, 100_000];

/// Whether an input ends so, and this is written, in pieces of each size.
fn gives_in_pieces(
    rt: &impl Abort,
    alloc: Global,
    input: &[u8],
    wanted: Ended,
    text: &str,
) -> bool {
    for pieces in PIECES_OF_HEADS {
        if !gives(rt, alloc, input, *pieces, wanted, text, "") {
            return false;
        }
    }
    true
}

/// Whether a head has as many bytes as its row says, and what comes of it is what the row says.
fn head_goes(
    rt: &impl Abort,
    alloc: Global,
    (lines, size, come, ended, text): (usize, usize, usize, Ended, &str),
) -> bool {
    let head = head_of(rt, alloc, size);
    let input = after_lines(rt, alloc, lines, head.as_slice(), come);
    let has_size = head.len() == size;
    drop(head);
    let gives = gives_in_pieces(rt, alloc, input.as_slice(), ended, text);
    drop(input);
    has_size && gives
}

#[test]
fn large_heads(rt: HostRuntime) {
    for (row, head) in HEADS.iter().enumerate() {
        let goes = head_goes(&rt, rt.alloc(), *head);
        row_holds(&rt, goes, row);
    }
}

/// So many empty lines, and so many bytes of a head.
fn after_lines(rt: &impl Abort, alloc: Global, lines: usize, head: &[u8], come: usize) -> Vec<u8> {
    let (came, _) = head.split_at(head.len().min(come));
    let mut input = Vec::new(alloc);
    add(rt, &mut input, b"\r\n", lines);
    add(rt, &mut input, came, 1);
    input
}

/// How many fields two requests have, one behind the other, and what comes of them: 64 are read, 65 are too many. A request
/// does not count the lines of the one before it.
const FIELDS: &[(usize, usize, Ended, &str, &str)] = &[
    (64, 64, Ended::Closed, VERSION, VERSION),
    (
        64,
        65,
        Ended::Refused(Status::HeadTooLarge),
        VERSION,
        TOO_LARGE,
    ),
    (65, 1, Ended::Refused(Status::HeadTooLarge), TOO_LARGE, ""),
];

/// Lines are counted alike in whatever pieces they come.
#[test]
fn many_fields(rt: HostRuntime) {
    for (row, (first, second, ended, answer, next)) in FIELDS.iter().enumerate() {
        let input = with_fields(&rt, rt.alloc(), [*first, *second]);
        let fault = fields_fault(&rt, rt.alloc(), input.as_slice(), *ended, answer, next);
        drop(input);
        row_goes(&rt, fault, row);
    }
}

/// The first size of pieces with which an input does not end so, or these two parts are not written.
fn fields_fault(
    rt: &impl Abort,
    alloc: Global,
    input: &[u8],
    wanted: Ended,
    first: &str,
    second: &str,
) -> Option<usize> {
    for size in ANY_PIECES {
        if !gives(rt, alloc, input, *size, wanted, first, second) {
            return Some(*size);
        }
    }
    None
}

/// Two requests, one behind the other, with so many fields each.
fn with_fields(rt: &impl Abort, alloc: Global, counts: [usize; 2]) -> Vec<u8> {
    let mut input = Vec::new(alloc);
    for fields in counts {
        add_head(rt, &mut input, fields);
    }
    input
}

/// Appends a head with so many fields.
fn add_head(rt: &impl Abort, input: &mut Vec<u8>, fields: usize) {
    add(rt, input, b"GET /api/v1/version HTTP/1.1\r\nHost: h\r\n", 1);
    add(rt, input, b"X: y\r\n", fields.saturating_sub(1));
    add(rt, input, b"\r\n", 1);
}

/// The 1,000th request closes, and what follows it is not read. Answers share writes.
#[test]
fn thousand_requests(rt: HostRuntime) {
    let is_answered = is_thousand_answered(&rt, rt.alloc());
    holds(&rt, is_answered, "the end, the answers, and the writes");
}

/// So many answers, and one that closes.
fn answers(rt: &impl Abort, alloc: Global, times: usize) -> Vec<u8> {
    let mut wanted = Vec::new(alloc);
    add(rt, &mut wanted, VERSION.as_bytes(), times);
    add(rt, &mut wanted, LAST_VERSION.as_bytes(), 1);
    wanted
}

/// Requests for the version, so many.
fn requests(rt: &impl Abort, alloc: Global, times: usize) -> Vec<u8> {
    let mut input = Vec::new(alloc);
    add(rt, &mut input, ASKS_VERSION, times);
    input
}

/// Whether 999 answers, and one that closes, are written.
fn has_thousand(rt: &impl Abort, alloc: Global, written: &[u8]) -> bool {
    let wanted = answers(rt, alloc, 999);
    let has_thousand = written == wanted.as_slice();
    drop(wanted);
    has_thousand
}

/// Whether 1,000 of 1,001 requests are answered in few writes, and the connection closes.
fn is_thousand_answered(rt: &impl Abort, alloc: Global) -> bool {
    let input = requests(rt, alloc, 1001);
    let pieces = Pieces::of(input.as_slice(), 100_000);
    let (ended, paper, calls) = run(alloc, pieces, new_paper(rt, alloc));
    drop(input);
    let is_whole = has_thousand(rt, alloc, paper.bytes.as_slice());
    let writes = paper.writes;
    drop(paper);
    ended == Ended::Closed && calls == 1000 && is_whole && writes < 10
}
