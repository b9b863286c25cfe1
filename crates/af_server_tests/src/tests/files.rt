//! How files are refused, and how the program ends where there is no memory.
use super::Pieces;
use super::asserts::{all_go, first_fault, holds};
use af_http::Counted;
use af_server::{Reason, ended, open_fault, read_whole};
use std::alloc::{AllocError, Global};
use std::io::{self, ErrorKind};

/// How many spaces a file holds, how many of them a read gives at most, whether it fails behind them, and why it is refused.
type Spaces = (usize, usize, bool, Option<Reason>);

const SPACES: [Spaces; 4] = [
    (0, 1, true, Some(Reason::Unreadable)),
    (70_000, 70_000, true, Some(Reason::Unreadable)),
    (0, 999, false, None),
    (20_000, 999, false, None),
];

/// How a file that holds these bytes is refused.
fn refused(alloc: Global, rest: &[u8], size: usize, fails: bool) -> Option<Reason> {
    let mut file = Counted::new(Pieces { rest, size, fails });
    read_whole(alloc, &mut file).err()
}

/// Whether a file of spaces is refused for this reason, or taken.
fn is_refused(alloc: Global, spaces: &Spaces) -> Result<bool, AllocError> {
    let (length, size, fails, reason) = *spaces;
    let bytes = Vec::from_elem(alloc, b' ', length)?;
    let refused = refused(alloc, bytes.as_slice(), size, fails);
    drop(bytes);
    Ok(refused == reason)
}

#[test]
fn files_that_fail_are_refused(rt: HostRuntime) {
    all_go(&rt, first_fault(rt.alloc(), &SPACES, is_refused), "spaces");
}

/// Why a file that the system does not open is refused.
const FAULTS: [(ErrorKind, Reason); 3] = [
    (ErrorKind::NotFound, Reason::Unreadable),
    (ErrorKind::PermissionDenied, Reason::Unreadable),
    (ErrorKind::OutOfMemory, Reason::Memory),
];

/// Whether a file that the system does not open is refused for this reason.
fn is_told(_: Global, fault: &(ErrorKind, Reason)) -> Result<bool, AllocError> {
    let error: io::Error = fault.0.into();
    Ok(open_fault(&error) == fault.1)
}

#[test]
fn why_a_file_is_not_opened(rt: HostRuntime) {
    all_go(&rt, first_fault(rt.alloc(), &FAULTS, is_told), "row");
}

const NO_MEMORY: &str = "afplane: configuration refused: memory\n";

/// Whether the program ends with that line and status 3 where there is no memory.
fn ends_for_memory(alloc: Global) -> bool {
    let mut errors = Vec::new(alloc);
    let status = ended(&mut Counted::new(&mut errors), Err(Reason::Memory));
    let is_line = errors.as_slice() == NO_MEMORY.as_bytes();
    drop(errors);
    status == 3 && is_line
}

/// Of all reasons the one that no configuration has.
#[test]
fn the_line_where_there_is_no_memory(rt: HostRuntime) {
    holds(&rt, ends_for_memory(rt.alloc()), "the status and the line");
}
