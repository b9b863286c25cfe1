ghost use Rattle.std.specs.Prelude.{◌≡◌, ◌≢◌, ◌==◌, ℕ, ◌+◌, ◌<◌, ◌≤◌, List, [], ◌++◌, length, take, drop, IfOk, OnErr, Ok, true, false};
ghost use Rattle.af_http.specs.Limits.{incoming_room, read_room, unread_limit};
ghost use Rattle.af_http.specs.Lines.{lines_of, begins_blank};
ghost use Rattle.af_http.specs.Extents.{IsExtent};
ghost use Rattle.af_http.specs.Streams.{Took, one_if};
ghost use Rattle.af_http.specs.Gathering.{Fills, ends_in, failures_in};

use crate::extent::Extent;
use crate::lines::extent_of;
use crate::outgoing::Outgoing;
use crate::scan::{Scan, UNSCANNED};
use crate::stream::{Failed, Source};
use std::alloc::{AllocError, Global};
use std::marker::Model;

/// How many bytes are held for a request at most.
pub const INCOMING_ROOM: usize = 98_304;

/// The most bytes that are still to be used when more are read: a head with its empty line, and a body that is not whole.
pub const UNREAD_LIMIT: usize = 81_920;

/// For how many bytes each read has room at least.
pub const READ_ROOM: usize = INCOMING_ROOM - UNREAD_LIMIT;

/// The bytes that have come and were not used yet. A contract sees them.
///
/// They have their memory from the start. Those used are left behind, and the others move only when room is needed. The lines
/// found so far are remembered, so that they are not searched again when more bytes come.
pub struct Incoming {
    bytes: Vec<u8>,
    start: usize,
    end: usize,
    scan: Scan,
}

impl Drop for Incoming {
    fn drop(self) {
        let Incoming {
            bytes: _,
            start: _,
            end: _,
            scan: _,
        } = self;
    }
}

impl Model for Incoming {
    ghost use Rattle.std.specs.Prelude.{◌≡◌, ℕ, List, ◌≤◌, take, drop, vec_len};
    ghost use Rattle.af_http.specs.Limits.{incoming_room};
    ghost use Rattle.af_http.specs.Scans.{IsScanned};

    ghost Value = { List ℕ };

    ghost view = { λ i. drop i.start (take i.end i.bytes.items) };

    ghost invariant = { λ i. (i.start ≤ i.end) × (i.end ≤ incoming_room) × (vec_len i.bytes ≡ incoming_room)
        × IsScanned (drop i.start (take i.end i.bytes.items)) i.scan };
}

impl Incoming {
    /// None have come.
    pub fn new(alloc: Global) -> Result<Incoming, AllocError>
        ensures { IfOk result (λ i. i ≡ []) }
    {
        let bytes = vec![in alloc; 0; INCOMING_ROOM]?;
        Ok(Incoming {
            bytes,
            start: 0,
            end: 0,
            scan: UNSCANNED,
        })
    }

    /// All bytes are left behind, those too that were not used. The memory stays.
    pub fn clear(&mut self)
        ensures { self.new ≡ [] }
    {
        self.start = 0;
        self.end = 0;
        self.scan = UNSCANNED;
    }

    /// The bytes.
    pub fn as_slice(&self) -> &[u8]
        ensures { result.now ≡ self.now }
    {
        let (came, _) = self.bytes.as_slice().split_at(self.end);
        let (_, left) = came.split_at(self.start);
        left
    }

    /// The first bytes were used.
    pub fn drop_front(&mut self, n: usize)
        requires { n ≤ length self.old }
        ensures { self.new ≡ drop n self.old }
    {
        if n > 0 {
            self.start += n;
            self.scan = UNSCANNED;
        }
    }

    /// How far the head at the front goes. Lines that were found before are not searched again.
    pub fn extent(&mut self) -> Extent
        requires { begins_blank (lines_of self.old) ≡ false }
        ensures same { self.new ≡ self.old }
        ensures extent { IsExtent self.new result }
    {
        let (extent, scan) = extent_of(self.as_slice(), self.scan);
        self.scan = scan;
        extent
    }

    /// Reads once, and says whether bytes came. No other function reads, and a read may wait for the client: so none is
    /// made while a byte waits for the writer, nor once a write has failed.
    pub fn fill<R: Source>(&mut self, reader: &mut R, _waiting: &Outgoing) -> Result<bool, Failed>
        requires idle { _waiting.now.bytes ≡ [] }
        requires sound { _waiting.now.failed ≡ false }
        requires few { length self.old ≤ unread_limit }
        ensures came { (more : List ℕ) × Fills (R.given reader.old) (R.given reader.new) self.old self.new more }
        ensures took { Took 1 (ends_in result) (failures_in result) (R.given reader.old) (R.given reader.new) }
        ensures none { result ≢ Ok true → self.new ≡ self.old }
    {
        let (start, end, read) = read_more(reader, self.bytes.as_mut_slice(), self.start, self.end);
        self.start = start;
        self.end = end;
        read
    }
}

/// Reads once behind what stands from start to end, which may be moved to the front before. Says where it stands then,
/// with what came, and whether bytes came.
fn read_more<R: Source>(
    reader: &mut R,
    bytes: &mut [u8],
    start: usize,
    end: usize,
) -> (usize, usize, Result<bool, Failed>)
    requires size { length bytes.old ≡ incoming_room }
    requires ordered { start ≤ end }
    requires within { end ≤ incoming_room }
    requires few { end ≤ start + unread_limit }
    ensures within { (result.0 ≤ result.1) × (result.1 ≤ incoming_room) }
    ensures came { (more : List ℕ)
        × Fills (R.given reader.old) (R.given reader.new) (drop start (take end bytes.old)) (drop result.0 (take result.1 bytes.new)) more }
    ensures took { Took 1 (ends_in result.2) (failures_in result.2) (R.given reader.old) (R.given reader.new) }
    ensures none { result.2 ≢ Ok true → drop result.0 (take result.1 bytes.new) ≡ drop start (take end bytes.old) }
{
    let (start, end) = with_room(bytes, start, end);
    match read_behind(reader, bytes, end) {
        Ok(count) => (start, end + count, Ok(count > 0)),
        Err(failed) => (start, end, Err(failed)),
    }
}

/// Moves what stands from start to end to the front, where a read would find too little room behind it, and says where
/// it stands then.
fn with_room(bytes: &mut [u8], start: usize, end: usize) -> (usize, usize)
    requires size { length bytes.old ≡ incoming_room }
    requires ordered { start ≤ end }
    requires within { end ≤ incoming_room }
    requires few { end ≤ start + unread_limit }
    ensures same { drop result.0 (take result.1 bytes.new) ≡ drop start (take end bytes.old) }
    ensures ordered { result.0 ≤ result.1 }
    ensures room { result.1 ≤ unread_limit }
{
    if end <= UNREAD_LIMIT {
        return (start, end);
    }
    bytes.copy_within(start..end, 0);
    (0, end - start)
}

/// Reads once, to what stands behind the end.
fn read_behind<R: Source>(reader: &mut R, bytes: &mut [u8], end: usize) -> Result<usize, Failed>
    requires { end + read_room ≤ length bytes.old }
    ensures before { take end bytes.new ≡ take end bytes.old }
    ensures room { IfOk result (λ n. end + n ≤ length bytes.old) }
    ensures came { IfOk result (λ n. (R.given reader.new).bytes ≡ (R.given reader.old).bytes ++ take n (drop end bytes.new)) }
    ensures kept { OnErr result ((R.given reader.new).bytes ≡ (R.given reader.old).bytes) }
    ensures ok { IfOk result (λ n. Took 1 (one_if (n == 0)) 0 (R.given reader.old) (R.given reader.new)) }
    ensures err { OnErr result (Took 1 0 1 (R.given reader.old) (R.given reader.new)) }
{
    let (_, room) = bytes.split_at_mut(end);
    reader.read(room)
}
