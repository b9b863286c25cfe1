//! What is read of the requests of the rows.
use af_ops::{Call, Endpoint, Method, read_row, route_of};
use json::Scratch;
use std::alloc::{AllocError, Global};
use std::test::Fail;

/// Who asks for what, with which parts of the path and which body; of what is only read, with which query.
pub type Asked = (
    &'static str,
    Endpoint,
    &'static [&'static str],
    &'static str,
);

fn add_part(alloc: Global, parts: &mut Vec<String>, text: &str) -> Result<(), AllocError> {
    let part = String::from_str(alloc, text)?;
    Ok(parts.push(part)?)
}

fn parts_of(alloc: Global, texts: &[&str]) -> Result<Vec<String>, AllocError> {
    let mut parts = Vec::new(alloc);
    for text in texts {
        add_part(alloc, &mut parts, text)?;
    }
    Ok(parts)
}

fn read(
    alloc: Global,
    endpoint: Endpoint,
    parts: &[String],
    text: &[u8],
) -> Result<Option<Call>, AllocError> {
    let mut scratch = Scratch::new(alloc);
    let (query, body): (&[u8], &[u8]) = match route_of(endpoint).method {
        Method::Get => (text, b""),
        _ => (b"", text),
    };
    read_row(alloc, endpoint, parts, query, body, &mut scratch)
}

/// What is asked for; nothing where a part is no name.
pub fn read_asked(alloc: Global, asked: Asked) -> Result<Option<Call>, AllocError> {
    let (_, endpoint, texts, text) = asked;
    let parts = parts_of(alloc, texts)?;
    read(alloc, endpoint, parts.as_slice(), text.as_bytes())
}

/// What is asked for.
pub fn call(alloc: Global, asked: Asked) -> Result<Call, Fail> {
    match read_asked(alloc, asked)? {
        Some(call) => Ok(call),
        None => Err(Fail::new("a part is no name")),
    }
}
