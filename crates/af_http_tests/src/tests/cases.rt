use crate::tests::tools::{Pieces, new_paper, run};
use af_http::Ended;
use std::alloc::Global;
use std::process::Abort;

/// What comes on a connection, in pieces of which sizes, and what comes of it: how it ends, and the two parts of what is
/// written.
#[derive(Clone, Copy)]
pub struct Case<'a> {
    pub input: &'a [u8],
    pub pieces: &'a [usize],
    pub ended: Ended,
    pub written: [&'a str; 2],
}

/// The first of its sizes with which a case does not go as it says.
pub fn first_fault(rt: &impl Abort, alloc: Global, case: &Case<'_>) -> Option<usize> {
    for size in case.pieces {
        if !goes(rt, alloc, case, *size) {
            return Some(*size);
        }
    }
    None
}

/// Whether a case goes as it says with pieces of a size.
fn goes(rt: &impl Abort, alloc: Global, case: &Case<'_>, size: usize) -> bool {
    let (ended, paper, _) = run(alloc, Pieces::of(case.input, size), new_paper(rt, alloc));
    let is_written = is_joined(paper.bytes.as_slice(), case.written);
    drop(paper);
    ended == case.ended && is_written
}

/// Whether a text is these two parts.
pub fn is_joined(text: &[u8], [first, second]: [&str; 2]) -> bool {
    let (front, back) = text.split_at(first.len().min(text.len()));
    front == first.as_bytes() && back == second.as_bytes()
}
