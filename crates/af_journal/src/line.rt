ghost use Rattle.std.specs.Prelude.{◌≡◌, ◌<◌, ◌^◌, [], ◌∷◌, IfOk, IfSome, OnOk};
ghost use Rattle.sqlite_value.specs.declared.value.Value.TheVariants.{Null, Int, Text};
ghost use Rattle.sqlite_value.specs.Value.{owned};
ghost use Rattle.af_journal.specs.Lines.{row_of, entry_of};

use sqlite_value::row::Row;
use sqlite_value::value::ValueRef;
use std::alloc::{AllocError, Global};

/// What the journal keeps under a number.
#[derive(Debug, Drop)]
pub struct Line {
    pub kind: String,
    pub body: String,
}

/// Writes over `row` the row that has this number.
pub(crate) fn write_row(
    row: &mut Row,
    number: u64,
    kind: &str,
    body: &str,
) -> Result<(), AllocError>
    requires { number < 2 ^ 63 }
    ensures { OnOk result (row.new ≡ row_of number (kind.now, body.now)) }
{
    row.clear();
    row.push(ValueRef::Int(number as i64))?;
    row.push(ValueRef::Null)?;
    row.push(ValueRef::Text(kind.as_bytes()))?;
    row.push(ValueRef::Text(body.as_bytes()))?;
    Ok(())
}

/// Only a damaged file, or one that another program wrote, has another value here.
fn text_of(alloc: Global, value: ValueRef<'_>) -> Result<Option<String>, AllocError> {
    let ValueRef::Text(bytes) = value else {
        return Ok(None);
    };
    let Ok(text) = std::str::from_utf8(bytes) else {
        return Ok(None);
    };
    Ok(Some(String::from_str(alloc, text)?))
}

/// The line that the row holds, if it is the row of a line with this number.
pub(crate) fn read_row(
    alloc: Global,
    row: &Row,
    number: u64,
    spare: &mut Row,
) -> Result<Option<Line>, AllocError>
    requires { number < 2 ^ 63 }
    ensures { IfOk result (λ found. IfSome found (λ line. row.now ≡ row_of number (entry_of line))) }
{
    let Some(kind) = text_of(alloc, row.get(2))? else {
        return Ok(None);
    };
    let Some(body) = text_of(alloc, row.get(3))? else {
        return Ok(None);
    };
    write_row(spare, number, kind.as_str(), body.as_str())?;
    if !row.is_same(spare) {
        return Ok(None);
    }
    Ok(Some(Line { kind, body }))
}
