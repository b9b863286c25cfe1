// Reading the members of a row of the configuration, with the reason of one that is missing or of another kind.
ghost use Rattle.std.specs.Prelude.{◌≡◌, [], map};
ghost use Rattle.std.specs.Option.{option_map_or};
ghost use Rattle.serde_json.specs.Find.{as_number};
ghost use Rattle.af_base.specs.JsonValue.{view};
ghost use Rattle.af_base.specs.Readings.{OrMemory, seen};
ghost use Rattle.af_server.specs.declared.reason.Reason.{Reason};
ghost use Rattle.af_server.specs.Members.{fitting, list_in, name_in, number_in, object_in, optional_list_in, required_number_in, signed_in, signed_of, text_in, truth_in, within};

use crate::reason::Reason;
use af_base::{Json, member, required_list, required_object, required_text};
use af_names::{Name, NameKind};
use std::alloc::Global;

/// The text of a member that has to be there.
pub fn text<'a>(row: &Json<'a>, name: &str) -> Result<&'a str, Reason>
    ensures { seen (λ text. text.now) result ≡ text_in name.now (view row.now) }
{
    required_text(row, name, Reason::Shape)
}

/// The object of a member that has to be there.
pub fn object<'v, 'a>(row: &'v Json<'a>, name: &str) -> Result<&'v Json<'a>, Reason>
    ensures { seen (λ value. view value.now) result ≡ object_in name.now (view row.now) }
{
    required_object(row, name, Reason::Shape)
}

/// The list of a member that has to be there.
pub fn list<'v, 'a>(row: &'v Json<'a>, name: &str) -> Result<&'v [Json<'a>], Reason>
    ensures { seen (λ values. map view values.now) result ≡ list_in name.now (view row.now) }
{
    required_list(row, name, Reason::Shape)
}

/// The list of a member, empty where it is absent.
pub fn optional_list<'v, 'a>(row: &'v Json<'a>, name: &str) -> Result<&'v [Json<'a>], Reason>
    ensures { seen (λ values. map view values.now) result ≡ optional_list_in name.now (view row.now) }
{
    let values = af_base::optional_list(row, name, Reason::Shape)?;
    Ok(or_empty(values))
}

/// These values, or none.
fn or_empty<'v, 'a>(values: Option<&'v [Json<'a>]>) -> &'v [Json<'a>]
    ensures { map view result.now ≡ option_map_or (λ it. map view it.now) values.entry [] }
{
    match values {
        Some(values) => values,
        None => &[],
    }
}

/// The truth value of a member, or this one where it is absent.
pub fn truth_or(row: &Json<'_>, name: &str, default: bool) -> Result<bool, Reason>
    ensures { result ≡ truth_in name.now default (view row.now) }
{
    match af_base::optional_truth(row, name, Reason::Shape)? {
        Some(truth) => Ok(truth),
        None => Ok(default),
    }
}

/// The name of a member that has to be there.
pub fn name<K: NameKind>(alloc: Global, row: &Json<'_>, member: &str) -> Result<Name<K>, Reason>
    ensures { OrMemory Reason.Memory (name_in K.grammar member.now (view row.now)) result }
{
    Ok(Name::parse(alloc, text(row, member)?)?)
}

/// The integer of a member within these limits, or this one where it is absent.
pub fn number_or(
    row: &Json<'_>,
    name: &str,
    limits: (u32, u32),
    default: u32,
) -> Result<u32, Reason>
    ensures { result ≡ number_in name.now limits.0 limits.1 default (view row.now) }
{
    match member(row, name) {
        None => Ok(default),
        Some(value) => number_within(value, limits.0, limits.1),
    }
}

/// The integer of a member within these limits, which has to be there.
pub fn number(row: &Json<'_>, name: &str, limits: (u32, u32)) -> Result<u32, Reason>
    ensures { result ≡ required_number_in name.now limits.0 limits.1 (view row.now) }
{
    match member(row, name) {
        None => Err(Reason::Shape),
        Some(value) => number_within(value, limits.0, limits.1),
    }
}

/// The integer within these limits that a value is.
pub fn number_within(value: &Json<'_>, least: u32, most: u32) -> Result<u32, Reason>
    ensures { result ≡ within least most (as_number (view value.now)) }
{
    let Some(number) = value.as_u64() else {
        return if value.is_i64() {
            Err(Reason::Limit)
        } else {
            Err(Reason::Shape)
        };
    };
    match u32::try_from(number) {
        Ok(number) if least <= number && number <= most => Ok(number),
        _ => Err(Reason::Limit),
    }
}

/// The integer of 32 bits of a member, or this one where it is absent.
pub fn signed_or(row: &Json<'_>, name: &str, default: i32) -> Result<i32, Reason>
    ensures { result ≡ signed_in name.now default (view row.now) }
{
    match member(row, name) {
        None => Ok(default),
        Some(value) => signed(value),
    }
}

/// The integer of 32 bits that a value is.
fn signed(value: &Json<'_>) -> Result<i32, Reason>
    ensures { result ≡ signed_of (as_number (view value.now)) }
{
    match value.as_i64() {
        Some(number) => fitting(number),
        None if value.is_u64() => Err(Reason::Limit),
        None => Err(Reason::Shape),
    }
}

fn fitting(number: i64) -> Result<i32, Reason>
    ensures { result ≡ fitting number }
{
    if i64::from(i32::MIN) <= number && number <= i64::from(i32::MAX) {
        Ok(number as i32)
    } else {
        Err(Reason::Limit)
    }
}
