ghost use Rattle.std.specs.Prelude.{◌≡◌, ℕ, ◌<◌, ◌≤◌, List, ◌∷◌, ◌++◌, length, take, drop, IfSome, IfNone, false};
ghost use Rattle.af_http.specs.Lines.{lines_of, is_blank, after_blanks, begins_blank, HasNoLine};
ghost use Rattle.af_http.specs.Extents.{IsExtent, sized};
ghost use Rattle.af_http.specs.Scans.{IsScanned};

use crate::extent::Extent;
use crate::scan::Scan;
use memchr::memchr;

/// The most bytes that may stand without an empty line.
pub const HEAD_LIMIT: usize = 16_384;

/// The most lines of a head between its first line and the empty one, and so the most of its fields.
pub const FIELD_LIMIT: usize = 64;

/// Where the first line ends, its line feed included.
pub fn line_len(bytes: &[u8]) -> Option<usize>
    ensures within { IfSome result (λ n. (0 < n) × (n ≤ length bytes.now)) }
    ensures line { IfSome result (λ n. (tail : List ℕ) →
        lines_of (bytes.now ++ tail) ≡ take n bytes.now ∷ lines_of (drop n bytes.now ++ tail)) }
    ensures none { IfNone result (HasNoLine bytes.now) }
{
    let place = memchr(b'\n', bytes)?;
    Some(place + 1)
}

/// Whether a line is its end alone.
pub fn is_blank(line: &[u8]) -> bool
    ensures { result ≡ is_blank line.now }
{
    match line {
        [a] => *a == b'\n',
        [a, b] => *a == b'\r' && *b == b'\n',
        _ => false,
    }
}

/// How long the empty lines at the front are.
pub fn blanks_len(bytes: &[u8]) -> usize
    ensures within { result ≤ length bytes.now }
    ensures dropped { (tail : List ℕ) → after_blanks (lines_of (bytes.now ++ tail))
        ≡ after_blanks (lines_of (drop result bytes.now ++ tail)) }
    ensures rest { begins_blank (lines_of (drop result bytes.now)) ≡ false }
{
    let mut rest = bytes;
    let mut at = 0;
    while let Some(n) = blank_len(rest) {
        let (_, after) = rest.split_at(n);
        at += n;
        rest = after;
    }
    at
}

/// How long the empty line at the front is, if one stands there.
fn blank_len(bytes: &[u8]) -> Option<usize>
    ensures within { IfSome result (λ n. (0 < n) × (n ≤ length bytes.now)) }
    ensures dropped { IfSome result (λ n. (tail : List ℕ) → after_blanks (lines_of (bytes.now ++ tail))
        ≡ after_blanks (lines_of (drop n bytes.now ++ tail))) }
    ensures none { IfNone result (begins_blank (lines_of bytes.now) ≡ false) }
{
    match bytes {
        [b'\n', ..] => Some(1),
        [b'\r', b'\n', ..] => Some(2),
        _ => None,
    }
}

/// How far the head at the front goes, and the whole lines found in it. Lines that are known already are not searched again.
pub fn extent_of(bytes: &[u8], known: Scan) -> (Extent, Scan)
    requires plain { begins_blank (lines_of bytes.now) ≡ false }
    requires scanned { IsScanned bytes.now known }
    ensures extent { IsExtent bytes.now result.0 }
    ensures scanned { IsScanned bytes.now result.1 }
{
    let (_, mut rest) = bytes.split_at(known.bytes);
    let mut at = known.bytes;
    let mut lines = known.lines;
    while let Some(n) = line_len(rest) {
        let (line, after) = rest.split_at(n);
        let end = at + n;
        let count = lines + 1;
        if is_blank(line) {
            return (sized(end, count), Scan { bytes: at, lines });
        }
        at = end;
        lines = count;
        rest = after;
    }
    if bytes.len() > HEAD_LIMIT {
        return (Extent::Large, Scan { bytes: at, lines });
    }
    (Extent::Part, Scan { bytes: at, lines })
}

/// A head of so many bytes, in so many lines.
fn sized(at: usize, lines: usize) -> Extent
    ensures { result ≡ sized at lines }
{
    if at > HEAD_LIMIT + 1 || lines > FIELD_LIMIT + 2 {
        return Extent::Large;
    }
    Extent::Whole(at)
}
