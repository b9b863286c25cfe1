ghost use Rattle.std.specs.Prelude.{◌≡◌, ◌<◌, slice_index_or};
ghost use Rattle.std.specs.Ordering.{nat_cmp};
ghost use Rattle.std.specs.Cmp.Lexicographic.{slice_cmp};
ghost use Rattle.af_policy.specs.Fronts.{front_of};

use std::cmp::Ordering;

/// The front of a text: its first eight bytes as a number, which decides most comparisons alone.
pub fn front(bytes: &[u8]) -> u64
    ensures { result ≡ front_of bytes.now }
{
    u64::from_be_bytes([
        byte_at(bytes, 0),
        byte_at(bytes, 1),
        byte_at(bytes, 2),
        byte_at(bytes, 3),
        byte_at(bytes, 4),
        byte_at(bytes, 5),
        byte_at(bytes, 6),
        byte_at(bytes, 7),
    ])
}

/// The byte at a place, or 0 past the end.
fn byte_at(bytes: &[u8], place: usize) -> u8
    ensures { result ≡ slice_index_or bytes.now place 0 }
{
    match bytes.get(place) {
        Some(byte) => *byte,
        None => 0,
    }
}

/// The order of two texts with these fronts: by their fronts, and where these are one, by all their bytes. Inlined, so that texts which
/// the fronts tell apart are not read.
#[inline(always)]
pub(crate) fn order(front: u64, bytes: &[u8], other_front: u64, other: &[u8]) -> Ordering
    requires one { front ≡ front_of bytes.now }
    requires other { other_front ≡ front_of other.now }
    ensures { result ≡ slice_cmp nat_cmp bytes.now other.now }
{
    if front < other_front {
        below(bytes, other)
    } else if other_front < front {
        above(bytes, other)
    } else {
        bytes.cmp(other)
    }
}

/// The order of two texts of which the first has the lower front.
#[inline(always)]
fn below(bytes: &[u8], other: &[u8]) -> Ordering
    requires { front_of bytes.now < front_of other.now }
    ensures { result ≡ slice_cmp nat_cmp bytes.now other.now }
{
    Ordering::Less
}

/// The order of two texts of which the first has the higher front.
#[inline(always)]
fn above(bytes: &[u8], other: &[u8]) -> Ordering
    requires { front_of other.now < front_of bytes.now }
    ensures { result ≡ slice_cmp nat_cmp bytes.now other.now }
{
    Ordering::Greater
}
