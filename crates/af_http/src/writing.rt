ghost use Rattle.std.specs.Prelude.{◌≡◌, ◌<◌, ◌≤◌, [], false, true, length, take, IsOk, IfOk, OnErr};
ghost use Rattle.af_http.specs.Streams.{Grew};
ghost use Rattle.af_http.specs.Sending.{Writes, has_failed};

use crate::stream::{Failed, Sink};

/// Writes once, and says how many of the bytes it took. None of them is a failure.
fn write_some<W: Sink>(writer: &mut W, bytes: &[u8]) -> Result<usize, Failed>
    requires { 0 < length bytes.now }
    ensures some { IfOk result (λ n. (0 < n) × (n ≤ length bytes.now)) }
    ensures wrote { IfOk result (λ n. Writes (W.taken writer.old) (W.taken writer.new) (take n bytes.now) false) }
    ensures failed { OnErr result (Writes (W.taken writer.old) (W.taken writer.new) bytes.now true) }
    ensures grew { Grew (W.taken writer.old) (W.taken writer.new) }
{
    let count = writer.write(bytes)?;
    if count == 0 {
        return Err(Failed);
    }
    Ok(count)
}

/// Writes all of the bytes. A write that takes none of them is a failure.
pub fn write_all<W: Sink>(writer: &mut W, bytes: &[u8]) -> Result<(), Failed>
    ensures wrote { Writes (W.taken writer.old) (W.taken writer.new) bytes.now (has_failed result) }
    ensures grew { Grew (W.taken writer.old) (W.taken writer.new) }
    ensures none { bytes.now ≡ [] → IsOk result }
{
    let mut rest = bytes;
    while !rest.is_empty() {
        let count = write_some(writer, rest)?;
        let (_, after) = rest.split_at(count);
        rest = after;
    }
    Ok(())
}
