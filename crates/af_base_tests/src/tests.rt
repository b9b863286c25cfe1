//! Texts of RFC 8259 and of the public suite of JSON texts, and what stands in them.
mod asserts;
mod bytes;
mod grammar;
mod items;
mod members;
mod names;
mod nesting;
mod numbers;
mod texts;

use af_base::json_in;
use json::Scratch;
use std::alloc::Global;
use std::test::Fail;

/// Whether the bytes are the text of a JSON value.
fn is_json(alloc: Global, bytes: &[u8]) -> Result<bool, Fail> {
    let mut scratch = Scratch::new(alloc);
    Ok(json_in(alloc, bytes, &mut scratch)?.is_some())
}
