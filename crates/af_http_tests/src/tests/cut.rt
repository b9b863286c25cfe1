use crate::tests::answers::{BAD_METHOD, INCOMPLETE, VERSION};
use crate::tests::asserts::number_holds;
use crate::tests::cases::{Case, first_fault};
use af_http::Ended;
use af_ops::Status;
use std::alloc::Global;
use std::process::Abort;

/// A request of 41 bytes.
pub const ASKS_VERSION: &[u8] = b"GET /api/v1/version HTTP/1.1\r\nHost: h\r\n\r\n";

/// A request of 67 bytes, the last nine of them its body, and one of 41.
const ASKS_TWICE: &[u8] =
    b"POST /api/v1/dags HTTP/1.1\r\nHost: h\r\nContent-Length: 9\r\n\r\nGET / HTTGET /api/v1/version HTTP/1.1\r\nHost: h\r\n\r\n";

const CUT: Ended = Ended::Refused(Status::BadRequest);

/// Inputs of which the first bytes alone come, so many at least and so many at most, and what comes of it: the input may
/// end anywhere, a body may be cut anywhere, and the body of one request is no part of the next.
const CUTS: &[(&[u8], usize, usize, Ended, &str, &str)] = &[
    (ASKS_VERSION, 0, 0, Ended::Closed, "", ""),
    (ASKS_VERSION, 1, 40, CUT, INCOMPLETE, ""),
    (ASKS_VERSION, 41, 41, Ended::Closed, VERSION, ""),
    (ASKS_TWICE, 0, 0, Ended::Closed, "", ""),
    (ASKS_TWICE, 1, 66, CUT, INCOMPLETE, ""),
    (ASKS_TWICE, 67, 67, Ended::Closed, BAD_METHOD, ""),
    (ASKS_TWICE, 68, 107, CUT, BAD_METHOD, INCOMPLETE),
    (ASKS_TWICE, 108, 108, Ended::Closed, BAD_METHOD, VERSION),
];

/// Whether an input of which the first so many bytes alone come ends so, and these two parts are written, in pieces of each size.
fn goes_cut<'x>(
    rt: &impl Abort,
    alloc: Global,
    input: &'x [u8],
    cut: usize,
    ended: Ended,
    written: [&'x str; 2],
) -> bool {
    let (front, _) = input.split_at(cut.min(input.len()));
    let case = Case {
        input: front,
        pieces: &[1, 100],
        ended,
        written,
    };
    first_fault(rt, alloc, &case).is_none()
}

#[test]
fn cut_after_each_byte(rt: HostRuntime) {
    assert!(rt;
        ASKS_VERSION.len() == 41 && ASKS_TWICE.len() == 108,
        "the inputs"
    );
    for (input, least, most, ended, first, second) in CUTS {
        for cut in *least..=*most {
            let goes = goes_cut(&rt, rt.alloc(), input, cut, *ended, [first, second]);
            number_holds(&rt, goes, "cut after", cut);
        }
    }
}
