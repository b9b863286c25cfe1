// Reading the members of a line's body.
ghost use Rattle.std.specs.Prelude.{◌≡◌, ok_or, option_map};
ghost use Rattle.af_base.specs.JsonValue.{view};
ghost use Rattle.af_base.specs.Readings.{OrMemory, member_of, seen};
ghost use Rattle.af_store.specs.Members.{count_value, digest_of, digest_value, instant_or, instant_value, list_value, name_of, name_value, optional_in, required_in, short_or, short_value, text_value, truth_value};
ghost use Rattle.af_store.specs.declared.line_fault.LineFault.TheVariants.{NotALine};

use crate::line_fault::LineFault;
use crate::piece::{Piece, read_list};
use af_base::{Json, member};
use af_names::{Instant, Name, NameError, NameKind};
use hex::FromHex;
use std::alloc::Global;

/// A member that has to be there.
pub(crate) fn value<'v, 'a>(row: &'v Json<'a>, name: &str) -> Result<&'v Json<'a>, LineFault>
    ensures { seen (λ value. view value.now) result ≡ ok_or (member_of name.now (view row.now)) NotALine }
{
    match member(row, name) {
        Some(value) => Ok(value),
        None => Err(LineFault::NotALine),
    }
}

/// The text that a value is.
pub(crate) fn text_of<'a>(value: &Json<'a>) -> Result<&'a str, LineFault>
    ensures { seen (λ text. text.now) result ≡ text_value (view value.now) }
{
    match value.as_str() {
        Some(text) => Ok(text),
        None => Err(LineFault::NotALine),
    }
}

/// The text of a member that has to be there.
pub(crate) fn text<'a>(row: &Json<'a>, name: &str) -> Result<&'a str, LineFault>
    ensures { seen (λ text. text.now) result ≡ required_in text_value name.now (view row.now) }
{
    let value = value(row, name)?;
    text_of(value)
}

/// The name that a value is.
pub(crate) fn name_of<K: NameKind>(alloc: Global, value: &Json<'_>) -> Result<Name<K>, LineFault>
    ensures { OrMemory LineFault.OutOfMemory (name_value K.grammar (view value.now)) result }
{
    let text = text_of(value)?;
    read_name(alloc, text)
}

fn read_name<K: NameKind>(alloc: Global, text: &str) -> Result<Name<K>, LineFault>
    ensures { OrMemory LineFault.OutOfMemory (name_of K.grammar text.now) result }
{
    match Name::parse(alloc, text) {
        Ok(name) => Ok(name),
        Err(NameError::OutOfMemory) => Err(LineFault::OutOfMemory),
        Err(_) => Err(LineFault::NotALine),
    }
}

/// The name of a member that has to be there.
pub(crate) fn name<K: NameKind>(
    alloc: Global,
    row: &Json<'_>,
    it: &str,
) -> Result<Name<K>, LineFault>
    ensures { OrMemory LineFault.OutOfMemory (required_in (name_value K.grammar) it.now (view row.now)) result }
{
    let value = value(row, it)?;
    name_of(alloc, value)
}

/// The digest that a value is.
fn digest_of(value: &Json<'_>) -> Result<[u8; 32], LineFault>
    ensures { result ≡ digest_value (view value.now) }
{
    let text = text_of(value)?;
    read_digest(text)
}

fn read_digest(text: &str) -> Result<[u8; 32], LineFault>
    ensures { result ≡ digest_of text.now }
{
    match <[u8; 32] as FromHex>::from_hex(text) {
        Ok(digest) => Ok(digest),
        Err(_) => Err(LineFault::NotALine),
    }
}

/// The digest of a member that has to be there.
pub(crate) fn digest(row: &Json<'_>, name: &str) -> Result<[u8; 32], LineFault>
    ensures { result ≡ required_in digest_value name.now (view row.now) }
{
    let value = value(row, name)?;
    digest_of(value)
}

/// The digest of a member, where it is there.
pub(crate) fn optional_digest(row: &Json<'_>, name: &str) -> Result<Option<[u8; 32]>, LineFault>
    ensures { result ≡ optional_in digest_value name.now (view row.now) }
{
    match member(row, name) {
        None => Ok(None),
        Some(value) => {
            let digest = digest_of(value)?;
            Ok(Some(digest))
        }
    }
}

/// The list of a member that has to be there.
pub(crate) fn list<T: Piece>(alloc: Global, row: &Json<'_>, name: &str) -> Result<Vec<T>, LineFault>
    ensures { OrMemory LineFault.OutOfMemory (required_in (list_value T.read_as) name.now (view row.now)) (seen (λ items. items.items) result) }
{
    let value = value(row, name)?;
    read_list(alloc, value)
}

/// The list of a member, where it is there.
pub(crate) fn optional_list<T: Piece>(
    alloc: Global,
    row: &Json<'_>,
    name: &str,
) -> Result<Option<Vec<T>>, LineFault>
    ensures { OrMemory LineFault.OutOfMemory (optional_in (list_value T.read_as) name.now (view row.now)) (seen (option_map (λ items. items.items)) result) }
{
    match member(row, name) {
        None => Ok(None),
        Some(value) => {
            let items = read_list(alloc, value)?;
            Ok(Some(items))
        }
    }
}

/// The truth value of a member that has to be there.
pub(crate) fn truth(row: &Json<'_>, name: &str) -> Result<bool, LineFault>
    ensures { result ≡ required_in truth_value name.now (view row.now) }
{
    let value = value(row, name)?;
    match value.as_bool() {
        Some(truth) => Ok(truth),
        None => Err(LineFault::NotALine),
    }
}

/// The integer of 64 bits that a value is.
fn count_of(value: &Json<'_>) -> Result<u64, LineFault>
    ensures { result ≡ count_value (view value.now) }
{
    match value.as_u64() {
        Some(count) => Ok(count),
        None => Err(LineFault::NotALine),
    }
}

/// The integer of 64 bits of a member that has to be there.
pub(crate) fn count(row: &Json<'_>, name: &str) -> Result<u64, LineFault>
    ensures { result ≡ required_in count_value name.now (view row.now) }
{
    let value = value(row, name)?;
    count_of(value)
}

/// The integer of 32 bits of a member that has to be there.
pub(crate) fn short(row: &Json<'_>, name: &str) -> Result<u32, LineFault>
    ensures { result ≡ required_in short_value name.now (view row.now) }
{
    let value = value(row, name)?;
    short_of(value)
}

fn short_of(value: &Json<'_>) -> Result<u32, LineFault>
    ensures { result ≡ short_value (view value.now) }
{
    let count = count_of(value)?;
    short_or(count)
}

fn short_or(count: u64) -> Result<u32, LineFault>
    ensures { result ≡ short_or count }
{
    if count <= 4_294_967_295 {
        Ok(count as u32)
    } else {
        Err(LineFault::NotALine)
    }
}

/// The instant that a value is.
fn instant_of(value: &Json<'_>) -> Result<Instant, LineFault>
    ensures { result ≡ instant_value (view value.now) }
{
    let micros = count_of(value)?;
    instant_or(micros)
}

fn instant_or(micros: u64) -> Result<Instant, LineFault>
    ensures { result ≡ instant_or micros }
{
    match Instant::of_micros(micros) {
        Some(instant) => Ok(instant),
        None => Err(LineFault::NotALine),
    }
}

/// The instant of a member that has to be there.
pub(crate) fn instant(row: &Json<'_>, name: &str) -> Result<Instant, LineFault>
    ensures { result ≡ required_in instant_value name.now (view row.now) }
{
    let value = value(row, name)?;
    instant_of(value)
}

/// The instant of a member, where it is there.
pub(crate) fn optional_instant(row: &Json<'_>, name: &str) -> Result<Option<Instant>, LineFault>
    ensures { result ≡ optional_in instant_value name.now (view row.now) }
{
    match member(row, name) {
        None => Ok(None),
        Some(value) => {
            let instant = instant_of(value)?;
            Ok(Some(instant))
        }
    }
}

/// The name of a member, where it is there.
pub(crate) fn optional_name<K: NameKind>(
    alloc: Global,
    row: &Json<'_>,
    it: &str,
) -> Result<Option<Name<K>>, LineFault>
    ensures { OrMemory LineFault.OutOfMemory (optional_in (name_value K.grammar) it.now (view row.now)) result }
{
    match member(row, it) {
        None => Ok(None),
        Some(value) => {
            let name = name_of(alloc, value)?;
            Ok(Some(name))
        }
    }
}
