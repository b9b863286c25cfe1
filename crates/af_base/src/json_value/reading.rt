// From a text to a value, in one pass over its tokens.
ghost use Rattle.std.specs.Prelude.{◌≡◌, ◌≢◌, ◌<◌, [], ◌∷◌, ◌++◌, length, map, Some, None, Err, IfOk, OnOk, option_map};
ghost use Rattle.json.specs.Json.{items, members, value};
ghost use Rattle.serde_json.specs.Data.{no_members};
ghost use Rattle.serde_json.specs.Read.{converted, of_items, of_json, of_members, read as read_text};
ghost use Rattle.serde_json.specs.View.{items_of};
ghost use Rattle.af_base.specs.JsonValue.{members_view, view};
ghost use Rattle.af_base.specs.Parsed.{json_of};

use super::{Json, Numeric};
use json::{Error, Reader, Scratch, Token};
use std::alloc::{AllocError, Global};

/// How deep lists and objects may nest.
const MAX_DEPTH: usize = 127;

/// The JSON value that the bytes are the text of, in UTF-8; none where they are not. Its texts are borrowed from the bytes, or
/// from `scratch` where they have escapes. `AllocError` only where a growth was refused.
pub fn json_in<'a>(
    alloc: Global,
    bytes: &'a [u8],
    scratch: &'a mut Scratch,
) -> Result<Option<Json<'a>>, AllocError>
    ensures { IfOk result (λ value. option_map view value ≡ json_of bytes.now) }
{
    let Ok(text) = simdutf8::compat::from_utf8(bytes) else {
        return Ok(None);
    };
    match read_all(alloc, text, scratch) {
        Ok(value) => Ok(Some(value)),
        Err(Error::Invalid) => Ok(None),
        Err(_) => Err(AllocError),
    }
}

fn read_all<'a>(alloc: Global, text: &'a str, scratch: &'a mut Scratch) -> Result<Json<'a>, Error>
    ensures ok { IfOk result (λ v. read_text text.now ≡ Some (view v)) }
    ensures invalid { result ≡ Err Error.Invalid → read_text text.now ≡ None }
{
    let mut reader = Reader::new(text, scratch)?;
    let value = read(alloc, &mut reader, MAX_DEPTH)?;
    if reader.next().is_some() {
        return Err(Error::Invalid);
    }
    Ok(value)
}

/// The next value of the reader. Lists and objects may nest `depth` deep.
#[cycle(read)]
#[inline(always)]
fn read<'a>(alloc: Global, reader: &mut Reader<'a>, depth: usize) -> Result<Json<'a>, Error>
    ensures ok { IfOk result (λ v. converted of_json (value depth reader.old) ≡ Some (view v, reader.new)) }
    ensures shorter { OnOk result (length reader.new < length reader.old) }
    ensures invalid { result ≡ Err Error.Invalid → converted of_json (value depth reader.old) ≡ None }
{
    let token = reader.next().ok_or(Error::Invalid)?;
    match token {
        Token::String(text) => Ok(Json::String(text)),
        Token::Number(text) => match Numeric::read(text) {
            Some(number) => Ok(Json::Number(number)),
            None => Err(Error::Invalid),
        },
        Token::Bool(truth) => Ok(Json::Bool(truth)),
        Token::Null => Ok(Json::Null),
        Token::EndObject | Token::EndArray | Token::Key(_) | Token::Bad => Err(Error::Invalid),
        Token::BeginArray => {
            if depth == 0 {
                return Err(Error::Invalid);
            }
            Ok(Json::Array(read_items(alloc, reader, depth - 1)?))
        }
        Token::BeginObject => {
            if depth == 0 {
                return Err(Error::Invalid);
            }
            Ok(Json::Object(read_members(alloc, reader, depth - 1)?))
        }
    }
}

/// The values up to the bracket that closes a list.
#[cycle(read)]
#[inline(never)]
fn read_items<'a>(
    alloc: Global,
    reader: &mut Reader<'a>,
    depth: usize,
) -> Result<Vec<Json<'a>>, Error>
    ensures ok { IfOk result
        (λ v. converted of_items (items (value depth) (length reader.old) reader.old)
        ≡ Some (items_of (map view v.items), reader.new)) }
    ensures shorter { OnOk result (length reader.new < length reader.old) }
    ensures invalid { result ≡ Err Error.Invalid
        → converted of_items (items (value depth) (length reader.old) reader.old) ≡ None }
{
    let mut found = Vec::new(alloc);
    'items: while !reader.take_end_array() {
        let item = read(alloc, reader, depth)?;
        push(&mut found, item)?;
    }
    Ok(found)
}

/// The members up to the brace that closes an object.
#[cycle(read)]
#[inline(never)]
fn read_members<'a>(
    alloc: Global,
    reader: &mut Reader<'a>,
    depth: usize,
) -> Result<Vec<(&'a str, Json<'a>)>, Error>
    ensures ok { IfOk result
        (λ v. converted (λ ms. of_members ms no_members)
        (members (value depth) (length reader.old) reader.old)
        ≡ Some (members_view v.items, reader.new)) }
    ensures shorter { OnOk result (length reader.new < length reader.old) }
    ensures invalid { result ≡ Err Error.Invalid
        → converted (λ ms. of_members ms no_members)
        (members (value depth) (length reader.old) reader.old) ≡ None }
{
    let mut found = Vec::new(alloc);
    'members: while let Some(name) = reader.next_key()? {
        let member = read(alloc, reader, depth)?;
        push(&mut found, (name, member))?;
    }
    Ok(found)
}

/// Puts an item at the end.
#[inline(always)]
fn push<T: Drop>(items: &mut Vec<T>, item: T) -> Result<(), Error>
    ensures ok { OnOk result (items.new.items ≡ items.old.items ++ item ∷ []) }
    ensures refused { result ≢ Err Error.Invalid }
{
    match items.push(item) {
        Ok(()) => Ok(()),
        Err(_) => Err(Error::OutOfMemory),
    }
}
