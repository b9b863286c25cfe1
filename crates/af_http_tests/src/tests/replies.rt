use crate::tests::answers::{EMPTY, MEMORY, VERSION};
use crate::tests::asserts::{holds, row_holds};
use crate::tests::cases::is_joined;
use crate::tests::tools::{Pieces, broken_paper, new_paper, run, run_long};
use af_http::Ended;
use std::alloc::Global;
use std::process::Abort;

/// Tokens whose service replies so, with what is put before the answer to the next request, how the connection ends, and how
/// often the service is called. What has no content has no body and no length, even where the service says one. Out of
/// memory closes the connection, with nothing done.
const REPLIES: &[(&str, &str, &str, Ended, usize)] = &[
    ("empty", EMPTY, VERSION, Ended::Closed, 2),
    ("full", EMPTY, VERSION, Ended::Closed, 2),
    ("memory", MEMORY, "", Ended::NoMemory, 1),
];

/// A request under this token, and one for the version.
fn asks_under(rt: &impl Abort, alloc: Global, token: &str) -> String {
    let input = format!(in alloc;
        "GET /api/v1/dags HTTP/1.1\r\nHost: h\r\nAuthorization: Bearer {token}\r\n\r\nGET /api/v1/version HTTP/1.1\r\nHost: h\r\n\r\n"
    );
    input.expect(rt, "two requests")
}

/// Whether the service replies to a token as its row says.
fn replies_to(
    rt: &impl Abort,
    alloc: Global,
    (token, first, second, ends, wanted): (&str, &str, &str, Ended, usize),
) -> bool {
    let input = asks_under(rt, alloc, token);
    let pieces = Pieces::of(input.as_bytes(), 1000);
    let (ended, paper, calls) = run(alloc, pieces, new_paper(rt, alloc));
    drop(input);
    let is_written = is_joined(paper.bytes.as_slice(), [first, second]);
    drop(paper);
    ended == ends && calls == wanted && is_written
}

#[test]
fn each_reply(rt: HostRuntime) {
    for row in REPLIES {
        let replies = replies_to(&rt, rt.alloc(), *row);
        holds(&rt, replies, row.0);
    }
}

/// Three requests of 41 bytes each.
const ASKS_VERSIONS: &[u8] =
    b"GET /api/v1/version HTTP/1.1\r\nHost: h\r\n\r\nGET /api/v1/version HTTP/1.1\r\nHost: h\r\n\r\nGET /api/v1/version HTTP/1.1\r\nHost: h\r\n\r\n";

/// Two requests for what is long.
const ASKS_DAGS: &[u8] =
    b"GET /api/v1/dags HTTP/1.1\r\nHost: h\r\nAuthorization: Bearer test\r\n\r\nGET /api/v1/dags HTTP/1.1\r\nHost: h\r\nAuthorization: Bearer test\r\n\r\n";

/// A request of 41 bytes, and a head of 62 whose body has 18.
const ASKS_CHANGE: &[u8] =
    b"GET /api/v1/version HTTP/1.1\r\nHost: h\r\n\r\nPATCH /api/v1/dags/a HTTP/1.1\r\nHost: h\r\nContent-Length: 18\r\n\r\n{\"is_paused\":true}";

/// Inputs in pieces of so many bytes, the length of long answers, the write that fails, and how often the service has been
/// called by then: no request is answered once a write has failed, since its change would be made unseen. Not those that
/// are held already, nor one whose body is still to come.
const BROKEN: &[(&[u8], usize, usize, usize, usize)] = &[
    (ASKS_VERSIONS, 41, 2, 1, 1),
    (ASKS_VERSIONS, 41, 2, 2, 2),
    (ASKS_VERSIONS, 41, 2, 3, 3),
    (ASKS_VERSIONS, 1000, 2, 1, 3),
    (ASKS_DAGS, 1000, 200_000, 1, 1),
    (ASKS_DAGS, 1000, 200_000, 2, 1),
    (ASKS_DAGS, 1000, 200_000, 3, 2),
    (ASKS_DAGS, 1000, 200_000, 4, 2),
    (ASKS_CHANGE, 103, 2, 1, 1),
    (ASKS_CHANGE, 50, 2, 1, 1),
    (ASKS_CHANGE, 1000, 2, 1, 2),
];

/// Whether a connection whose write fails, or takes no byte, ends so after as many calls as its row says.
fn breaks_off(
    rt: &impl Abort,
    alloc: Global,
    (input, size, length, call, wanted): (&[u8], usize, usize, usize, usize),
    stalls: bool,
) -> bool {
    let paper = broken_paper(rt, alloc, usize::MAX, call, stalls);
    let (ended, paper, calls) = run_long(alloc, length, Pieces::of(input, size), paper);
    drop(paper);
    ended == Ended::WriteFault && calls == wanted
}

#[test]
fn no_request_is_answered_after_a_failed_write(rt: HostRuntime) {
    for (row, broken) in BROKEN.iter().enumerate() {
        let fails = breaks_off(&rt, rt.alloc(), *broken, false);
        let stalls = breaks_off(&rt, rt.alloc(), *broken, true);
        row_holds(&rt, fails && stalls, row);
    }
}
