ghost use Rattle.std.specs.Prelude.{◌≡◌, ◌+◌, ◌≤◌, ◌↔◌, length, slice_index, IsTrue, IfOk};
ghost use Rattle.sqlite_wal.specs.Format.{IsSigned, be32, stored_sum};
ghost use Rattle.sqlite_wal.specs.Reads.{IsClean, OnlyReads};
ghost use Rattle.af_journal.specs.LogHeader.{IsBeingEmptied, Says};

use sqlite_disk::Disk;
use sqlite_wal::checksum_of;
use std::io;

/// The length of a log with no frame.
const EMPTY_LEN: usize = 41;

/// The version of the log's format.
const VERSION: u32 = 3007000;

/// The page size of the journal's files, in bytes.
pub(crate) const PAGE_SIZE: usize = 4096;

/// What the first bytes of a log say.
#[derive(Clone, Copy, Debug, PartialEq, Eq)]
pub(crate) enum LogHeader {
    /// The log has no room for a frame.
    Short,
    /// The header is SQLite's, or was being written anew when the process or the machine stopped.
    Sound,
    /// The log may hold lines, and its header was changed by something else.
    Damaged,
}

/// Four bytes as a number, the highest first.
fn number_at(head: &[u8; 32], at: usize) -> u32
    requires { at + 4 ≤ 32 }
    ensures { result ≡ be32 head.now at }
{
    head[at] as u32 * 0x100_0000
        + head[at + 1] as u32 * 0x1_0000
        + head[at + 2] as u32 * 0x100
        + head[at + 3] as u32
}

/// The header has the magic number and its checksum.
fn is_signed(head: &[u8; 32]) -> bool
    ensures { IsTrue result ↔ IsSigned head.now }
{
    if head[0] != 0x37 || head[1] != 0x7f || head[2] != 0x06 {
        return false;
    }
    if head[3] != 0x82 && head[3] != 0x83 {
        return false;
    }
    checksum_of(head[3] == 0x83, (0, 0), &head[..24]) == (number_at(head, 24), number_at(head, 28))
}

/// The first byte is 0, and the bytes that no rewriting changes are a header's.
fn is_being_emptied(head: &[u8; 32]) -> bool
    ensures { IsTrue result ↔ IsBeingEmptied head.now }
{
    if head[0] != 0 || head[1] != 0x7f || head[2] != 0x06 {
        return false;
    }
    if head[3] != 0x82 && head[3] != 0x83 {
        return false;
    }
    number_at(head, 4) == VERSION && number_at(head, 8) as usize == PAGE_SIZE
}

/// Reads the first bytes of the log. Nothing is written.
pub(crate) fn examine<D: Disk>(log: &mut D) -> io::Result<LogHeader>
    requires { IsTrue (D.Disk.is_usable log.old) }
    ensures ok { IfOk result (λ found. IsClean D.Disk log.new → Says (D.Disk.seen log.old) found) }
    ensures same { OnlyReads D.Disk log.old log.new }
{
    if log.len()? <= EMPTY_LEN {
        return Ok(LogHeader::Short);
    }
    let mut head = [0; 32];
    log.read_at(0, &mut head)?;
    if is_signed(&head) {
        return Ok(LogHeader::Sound);
    }
    if is_being_emptied(&head) {
        return Ok(LogHeader::Sound);
    }
    Ok(LogHeader::Damaged)
}
