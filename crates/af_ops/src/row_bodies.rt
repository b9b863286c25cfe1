// Reading the bodies of requests on pools and variables.
ghost use Rattle.std.specs.Prelude.{◌≡◌, Err, IsOk};
ghost use Rattle.serde_json.specs.Find.{as_str};
ghost use Rattle.af_base.specs.JsonValue.{view};
ghost use Rattle.af_base.specs.Readings.{OrMemory, seen};
ghost use Rattle.af_ops.specs.Bodies.{required_in};
ghost use Rattle.af_ops.specs.RowBodies.{few_slots, name_value, pool_in, slots_in, slots_value, value_in, variable_in};

use crate::bodies::body_in;
use crate::body_fault::{BodyFault, Member};
use crate::member_name::name_of;
use af_base::{Json, member, required_text};
use af_graph::MOST_SLOTS;
use af_names::{Name, NameError, NameKind};
use af_pool::Pool;
use af_vars::{VarText, Variable};
use json::Scratch;
use std::alloc::Global;

/// Reads a pool that is to be added. The first fault decides: `BadBody` where the bytes are no JSON object, then `BadMember` where
/// `name` is no name of a pool, and where `slots` is no number from 0 to 1,000,000; `OutOfMemory` only where a growth was refused.
pub fn read_pool(alloc: Global, bytes: &[u8], scratch: &mut Scratch) -> Result<Pool, BodyFault>
    ensures { OrMemory BodyFault.OutOfMemory (pool_in bytes.now) result }
{
    let body = body_in(alloc, bytes, scratch)?;
    let name = required_name(alloc, &body, Member::Name)?;
    let slots = required_slots(&body, Member::Slots)?;
    Ok(Pool { name, slots })
}

/// Reads the slots that a pool is to have. The first fault decides: `BadBody` where the bytes are no JSON object, `BadMember`
/// where `slots` is no number from 0 to 1,000,000; `OutOfMemory` only where a growth was refused.
pub fn read_slots(alloc: Global, bytes: &[u8], scratch: &mut Scratch) -> Result<u32, BodyFault>
    ensures { OrMemory BodyFault.OutOfMemory (slots_in bytes.now) result }
{
    let body = body_in(alloc, bytes, scratch)?;
    required_slots(&body, Member::Slots)
}

/// Reads a variable that is to be added. The first fault decides: `BadBody` where the bytes are no JSON object, then `BadMember`
/// where `key` is no key of a variable, and where `value` is no text; `OutOfMemory` only where a growth was refused.
pub fn read_variable(
    alloc: Global,
    bytes: &[u8],
    scratch: &mut Scratch,
) -> Result<Variable, BodyFault>
    ensures { OrMemory BodyFault.OutOfMemory (variable_in bytes.now) result }
{
    let body = body_in(alloc, bytes, scratch)?;
    let key = required_name(alloc, &body, Member::Key)?;
    let value = required_value(alloc, &body, Member::Value)?;
    Ok(Variable { key, value })
}

/// Reads the text that a variable is to hold. The first fault decides: `BadBody` where the bytes are no JSON object, `BadMember`
/// where `value` is no text; `OutOfMemory` only where a growth was refused.
pub fn read_value(alloc: Global, bytes: &[u8], scratch: &mut Scratch) -> Result<VarText, BodyFault>
    ensures { OrMemory BodyFault.OutOfMemory (value_in bytes.now) result }
{
    let body = body_in(alloc, bytes, scratch)?;
    required_value(alloc, &body, Member::Value)
}

/// A name of a kind, which has to be there.
fn required_name<K: NameKind>(
    alloc: Global,
    body: &Json<'_>,
    it: Member,
) -> Result<Name<K>, BodyFault>
    ensures told { OrMemory BodyFault.OutOfMemory (required_in (name_value K.grammar) it (view body.now)) result }
    ensures memory { result ≡ Err BodyFault.OutOfMemory → IsOk (required_in (name_value K.grammar) it (view body.now)) }
{
    let Some(value) = member(body, name_of(it)) else {
        return Err(BodyFault::BadMember(it));
    };
    let Some(text) = value.as_str() else {
        return Err(BodyFault::BadMember(it));
    };
    match Name::parse(alloc, text) {
        Ok(name) => Ok(name),
        Err(NameError::OutOfMemory) => Err(BodyFault::OutOfMemory),
        Err(_) => Err(BodyFault::BadMember(it)),
    }
}

fn required_value(alloc: Global, body: &Json<'_>, it: Member) -> Result<VarText, BodyFault>
    ensures { OrMemory BodyFault.OutOfMemory (required_in as_str it (view body.now)) result }
{
    let text = text_of(body, it)?;
    let value = String::from_str(alloc, text)?;
    Ok(VarText::of(value))
}

/// The text of a member that has to be there.
fn text_of<'a>(body: &Json<'a>, it: Member) -> Result<&'a str, BodyFault>
    ensures { seen (λ text. text.now) result ≡ required_in as_str it (view body.now) }
{
    required_text(body, name_of(it), BodyFault::BadMember(it))
}

fn required_slots(body: &Json<'_>, it: Member) -> Result<u32, BodyFault>
    ensures { result ≡ required_in slots_value it (view body.now) }
{
    match member(body, name_of(it)) {
        Some(value) => slots_value(value).ok_or(BodyFault::BadMember(it)),
        None => Err(BodyFault::BadMember(it)),
    }
}

/// The number of slots that a value is.
fn slots_value(value: &Json<'_>) -> Option<u32>
    ensures { result ≡ slots_value (view value.now) }
{
    let slots = value.as_u64()?;
    few_slots(slots)
}

/// No more slots than a pool may have.
fn few_slots(slots: u64) -> Option<u32>
    ensures { result ≡ few_slots slots }
{
    if slots <= MOST_SLOTS {
        Some(slots as u32)
    } else {
        None
    }
}
