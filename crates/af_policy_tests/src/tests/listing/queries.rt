use crate::tests::asserts::row_holds;
use af_listing::Window;
use af_policy::Parameter;

/// A query, its limit, and its offset.
const READ: &[(&[u8], usize, usize)] = &[
    (b"", 100, 0),
    (b"limit=2&offset=1", 2, 1),
    (b"offset=1&limit=2&limit=9", 2, 1),
    (b"%6cimit=%37", 7, 0),
    (b"LIMIT=7&limits=x&&=", 100, 0),
    (b"limit=007", 7, 0),
    (
        b"limit=18446744073709551616&offset=18446744073709551615",
        100,
        18_446_744_073_709_551_615,
    ),
];

/// Whether a query has this limit and this offset.
fn is_read(query: &[u8], limit: usize, offset: usize) -> bool {
    match Window::read(query) {
        Ok(window) => window.limit() == limit && window.offset() == offset,
        Err(_) => false,
    }
}

#[test]
fn queries_are_read(rt: HostRuntime) {
    for (row, (query, limit, offset)) in READ.iter().enumerate() {
        row_holds(&rt, is_read(query, *limit, *offset), "queries", row);
    }
}

/// A query, and the parameter that is at fault.
const FAULTY: &[(&[u8], Parameter)] = &[
    (b"limit=-1", Parameter::Limit),
    (b"limit", Parameter::Limit),
    (b"limit=", Parameter::Limit),
    (b"offset=x&limit=x", Parameter::Limit),
    (b"limit=x&limit=1", Parameter::Limit),
    (b"offset=%2B1", Parameter::Offset),
    (b"offset=+1", Parameter::Offset),
    (b"offset=1%20", Parameter::Offset),
    (b"offset=0x1", Parameter::Offset),
];

#[test]
fn faulty_parameters_are_named(rt: HostRuntime) {
    for (row, (query, parameter)) in FAULTY.iter().enumerate() {
        row_holds(&rt, Window::read(query) == Err(*parameter), "queries", row);
    }
}
