use super::asserts::holds;
use super::is_json;
use std::test::Fail;

/// Bytes, whether they are a JSON text, and what they are.
const BYTES: &[(&[u8], bool, &str)] = &[
    (b"\"\xc3\xa9\"", true, "two bytes of one character"),
    (b"\"\xff\"", false, "a byte that none has"),
    (b"\"\xc3\"", false, "a character that is cut"),
    (b"\"\xc0\xaf\"", false, "a longer form"),
    (b"\"\xed\xa0\x80\"", false, "a surrogate"),
    (b"1\xff", false, "after the value"),
];

#[test]
fn bytes_that_are_no_utf8(rt: HostRuntime) -> Result<(), Fail> {
    for (bytes, wanted, what) in BYTES {
        let is_json = is_json(rt.alloc(), bytes)?;
        holds(&rt, is_json == *wanted, what);
    }
    Ok(())
}
