//! What is told of calls.
use crate::tests::plane::calls::Asked;
use af_ops::{Served, Shown, Status};
use std::test::Fail;

/// What is asked; the status, the version and the number of entries that are told; and the body.
pub type Row = (Asked, Status, (Option<u32>, Option<u32>), &'static str);

/// Whether what is told has this body; where the text is empty, whether it has none.
pub fn is_text(shown: &Shown, text: &str) -> bool {
    match &shown.body {
        Some(body) => body.as_bytes() == text.as_bytes(),
        None => text.is_empty(),
    }
}

/// Whether an answer shows what a row says.
pub fn is_shown(shown: &Shown, row: Row) -> bool {
    let (_, status, (version, seq), text) = row;
    shown.status == status && shown.version == version && shown.seq == seq && is_text(shown, text)
}

/// Whether what is told is what a row says. Where there was no memory for it, the test ends in words that say so.
pub fn is_told(gave: &Served, row: Row) -> Result<bool, Fail> {
    match gave {
        Served::Shown(shown) => Ok(is_shown(shown, row)),
        Served::NothingDone => Err(Fail::new("an answer: OutOfMemory")),
    }
}
