ghost use Rattle.std.specs.Prelude.{◌≡◌, IfOk, option_map};
ghost use Rattle.serde_json.specs.Read.{read as read_text};
ghost use Rattle.af_base.specs.JsonValue.{view};
ghost use Rattle.af_base.specs.Readings.{OrMemory, seen};
ghost use Rattle.af_store.specs.Members.{row_in};

use crate::line_fault::LineFault;
use af_base::{Json, json_in};
use json::Scratch;
use std::alloc::{AllocError, Global};

/// The value of which a body is the text. Texts with escapes are spelled out in `scratch`.
pub(crate) fn row_of<'a>(
    alloc: Global,
    body: &'a str,
    scratch: &'a mut Scratch,
) -> Result<Json<'a>, LineFault>
    ensures { OrMemory LineFault.OutOfMemory (row_in body.now) (seen view result) }
{
    match value_of(alloc, body, scratch)? {
        Some(value) => Ok(value),
        None => Err(LineFault::NotALine),
    }
}

fn value_of<'a>(
    alloc: Global,
    body: &'a str,
    scratch: &'a mut Scratch,
) -> Result<Option<Json<'a>>, AllocError>
    ensures { IfOk result (λ value. option_map view value ≡ read_text body.now) }
{
    let value = json_in(alloc, body.as_bytes(), scratch)?;
    Ok(value)
}
