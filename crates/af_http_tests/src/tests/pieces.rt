//! Messages that come in pieces: what is written does not depend on where the input is cut.
use crate::tests::answers::{
    BAD_HEAD, BAD_METHOD, BAD_METHOD_OF_POST, BODY_TOO_LARGE, INCOMPLETE, LAST_VERSION, NO_PATH,
    VERSION,
};
use crate::tests::asserts::row_goes;
use crate::tests::cases::{Case, first_fault};
use af_http::Ended;
use af_ops::Status;

/// Sizes of pieces in which an input comes.
pub const ANY_PIECES: &[usize] = &[1, 2, 3, 40, 100_000];

const BAD: Ended = Ended::Refused(Status::BadRequest);

const LARGE: Ended = Ended::Refused(Status::ContentTooLarge);

/// Inputs, how the connection ends, and all that is written, in two parts.
const INPUTS: &[(&[u8], Ended, &str, &str)] = &[
    (
        b"GET /api/v1/version HTTP/1.1\r\nHost: h\r\n\r\nGET /api/v1/version HTTP/1.1\r\nHost: h\r\n\r\n",
        Ended::Closed,
        VERSION,
        VERSION,
    ),
    (
        b"\r\n\n\r\nGET /api/v1/version HTTP/1.1\nHost: h\n\n\r\n",
        Ended::Closed,
        VERSION,
        "",
    ),
    (
        b"GET /api/v1/version HTTP/1.1\r\nHost: h\r\ncontent-length: 005\r\n\r\nGET /GET /api/v1/version HTTP/1.1\r\nHost: h\r\n\r\n",
        Ended::Closed,
        VERSION,
        VERSION,
    ),
    (
        b"DELETE /api/v1/dags HTTP/1.1\r\nHost: h\r\nContent-Length: 4\r\n\r\n\r\n\r\nPUT /own HTTP/1.1\r\nHost: h\r\nContent-Length: 1\r\n\r\n{",
        Ended::Closed,
        BAD_METHOD,
        NO_PATH,
    ),
    (
        b"POST /own/dags/~/backfills HTTP/1.1\r\nHost: h\r\nContent-Length: 2\r\n\r\n{}GET /own/dags/d/backfills HTTP/1.1\r\nHost: h\r\n\r\n",
        Ended::Closed,
        NO_PATH,
        BAD_METHOD_OF_POST,
    ),
    (
        b"GET /api/v1/version HTTP/1.0\r\n\r\nGET /api/v1/version HTTP/1.1\r\n",
        Ended::Closed,
        LAST_VERSION,
        "",
    ),
    (
        b"GET /api/v1/version HTTP/1.1\r\nHost: h\r\nHost: h\r\n\r\n",
        BAD,
        BAD_HEAD,
        "",
    ),
    (
        b"GET /api/v1/version HTTP/1.1\r\nHost: h\r\n\r\nGET /\r\n\r\n",
        BAD,
        VERSION,
        BAD_HEAD,
    ),
    (
        b"GET /api/v1/version HTTP/1.1\r\nHost: h\r\nContent-Length: 5\r\n\r\nabcd",
        BAD,
        INCOMPLETE,
        "",
    ),
    (b"\r\n\r", BAD, INCOMPLETE, ""),
    (
        b"GET /api/v1/version HTTP/1.1\r\nHost: h\r\nContent-Length: 65537\r\n\r\n",
        LARGE,
        BODY_TOO_LARGE,
        "",
    ),
];

#[test]
fn in_pieces(rt: HostRuntime) {
    for (row, (input, ended, first, second)) in INPUTS.iter().enumerate() {
        let case = Case {
            input,
            pieces: ANY_PIECES,
            ended: *ended,
            written: [first, second],
        };
        let fault = first_fault(&rt, rt.alloc(), &case);
        row_goes(&rt, fault, row);
    }
}
