//! A body that comes a byte a read and does not end.
use crate::tests::answers::VERSION;
use crate::tests::asserts::holds;
use crate::tests::cut::ASKS_VERSION;
use crate::tests::tools::{Fixed, Pieces, new_paper};
use af_http::{Counted, Ended, serve};
use std::alloc::Global;
use std::process::Abort;

/// How many reads a request may take.
const READS: usize = 65_536;

const HEAD: &[u8] =
    b"POST /api/v1/dags/b/dagRuns HTTP/1.1\r\nHost: h\r\nAuthorization: Bearer test\r\nContent-Length: 65536\r\n\r\n";

/// Appends these bytes.
fn add(rt: &impl Abort, input: &mut Vec<u8>, bytes: &[u8]) {
    input
        .extend_from_slice(bytes)
        .expect(rt, "room for an input");
}

/// A request of 41 bytes, and one whose body does not come whole.
fn input(rt: &impl Abort, alloc: Global) -> Vec<u8> {
    let mut input = Vec::new(alloc);
    add(rt, &mut input, ASKS_VERSION);
    add(rt, &mut input, HEAD);
    for _ in 1..READS {
        add(rt, &mut input, b"x");
    }
    input
}

/// How a connection with this input ends, a byte a read, whether just the version is told, and how many reads there were.
fn told(rt: &impl Abort, alloc: Global, input: &[u8]) -> (Ended, bool, usize) {
    let mut reader = Counted::new(Pieces::of(input, 1));
    let mut writer = Counted::new(new_paper(rt, alloc));
    let mut service = Fixed {
        alloc,
        length: 2,
        calls: 0,
    };
    let ended = serve(alloc, &mut reader, &mut writer, &mut service);
    let Pieces { reads, .. } = reader.into_inner();
    let paper = writer.into_inner();
    let is_version = paper.bytes.as_slice() == VERSION.as_bytes();
    drop(paper);
    (ended, is_version && service.calls == 1, reads)
}

/// The first request is answered. The second may take as many reads as there may be, and nothing is written for it.
#[test]
fn a_body_that_does_not_end(rt: HostRuntime) {
    let input = input(&rt, rt.alloc());
    let (ended, is_version, reads) = told(&rt, rt.alloc(), input.as_slice());
    drop(input);
    holds(&rt, ended == Ended::Turns, "the end");
    holds(&rt, is_version, "the version alone");
    let wanted = ASKS_VERSION.len().saturating_add(READS);
    holds(&rt, reads == wanted, "the reads");
}
