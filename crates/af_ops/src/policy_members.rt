// Reading the members of bodies of changes of the policy: permissions, and the roles and digests of users.
ghost use Rattle.std.specs.Prelude.{◌≡◌, [], map, ok_or};
ghost use Rattle.std.specs.Result.{result_ok};
ghost use Rattle.hex.specs.Hex.{decode_sized};
ghost use Rattle.af_base.specs.JsonValue.{view};
ghost use Rattle.af_base.specs.Readings.{Makes, OrMemory, seen, taking};
ghost use Rattle.af_ops.specs.PolicyBodies.{actions_in, digest_value, name_text_in, optional_in, optional_roles_in, pair_text_in, pair_text_taken, required_in, role_name_in, role_name_taken, role_names_in, roles_in, wrong};
ghost use Rattle.af_ops.specs.RowBodies.{name_value};
ghost use Rattle.af_policy.specs.declared.bad_input.Member.TheVariants as members;

use crate::input_fault::InputFault;
use af_base::{Json, member, required_list, required_object, required_text};
use af_names::{Name, NameError, NameKind, RoleName};
use af_policy::{BadInput, Member, RoleNames};
use af_role::{PairText, PairTexts, Text};
use hex::FromHex;
use std::alloc::Global;

/// A member is absent though it has to be there, or of a wrong kind or value.
pub(crate) fn wrong(it: Member) -> InputFault
    ensures { result ≡ wrong it }
{
    InputFault::Bad(BadInput::Member(it))
}

/// A name of a role or of a user, which has to be there.
pub(crate) fn required_name<K: NameKind>(
    alloc: Global,
    body: &Json<'_>,
    it: Member,
) -> Result<Name<K>, InputFault>
    ensures { OrMemory InputFault.OutOfMemory (required_in (name_value K.grammar) it (view body.now)) result }
{
    match member(body, it.text()) {
        Some(value) => name_of(alloc, value, wrong(it)),
        None => Err(wrong(it)),
    }
}

/// The name that a value is.
fn name_of<K: NameKind>(
    alloc: Global,
    value: &Json<'_>,
    fault: InputFault,
) -> Result<Name<K>, InputFault>
    ensures { OrMemory InputFault.OutOfMemory (ok_or (name_value K.grammar (view value.now)) fault) result }
{
    let Some(text) = value.as_str() else {
        return Err(fault);
    };
    match Name::parse(alloc, text) {
        Ok(name) => Ok(name),
        Err(NameError::OutOfMemory) => Err(InputFault::OutOfMemory),
        Err(_) => Err(fault),
    }
}

pub(crate) fn read_actions(alloc: Global, body: &Json<'_>) -> Result<PairTexts, InputFault>
    ensures { OrMemory InputFault.OutOfMemory (actions_in (view body.now)) result }
{
    let items = required_list(body, Member::Actions.text(), wrong(Member::Actions))?;
    let texts = read_pair_texts(alloc, items)?;
    Ok(PairTexts::of(texts))
}

fn read_pair_texts(alloc: Global, items: &[Json<'_>]) -> Result<Vec<PairText>, InputFault>
    ensures { OrMemory InputFault.OutOfMemory (taking pair_text_taken [] (map view items.now)) (seen (λ texts. texts.items) result) }
{
    let mut texts = Vec::with_capacity(alloc, items.len())?;
    for item in items {
        add_pair_text(alloc, &mut texts, item)?;
    }
    Ok(texts)
}

fn add_pair_text(
    alloc: Global,
    texts: &mut Vec<PairText>,
    item: &Json<'_>,
) -> Result<(), InputFault>
    ensures { Makes InputFault.OutOfMemory (pair_text_taken texts.old.items (view item.now)) texts.new.items result }
{
    let text = read_pair_text(alloc, item)?;
    match texts.push(text) {
        Ok(()) => Ok(()),
        Err(_) => Err(InputFault::OutOfMemory),
    }
}

fn read_pair_text(alloc: Global, item: &Json<'_>) -> Result<PairText, InputFault>
    ensures { OrMemory InputFault.OutOfMemory (pair_text_in (view item.now)) result }
{
    let action = name_text(item, "action")?;
    let resource = name_text(item, "resource")?;
    let action = String::from_str(alloc, action)?;
    let resource = String::from_str(alloc, resource)?;
    Ok(PairText {
        action: Text::new(action),
        resource: Text::new(resource),
    })
}

/// The text of the name of a member, as in `{"name":..}`.
fn name_text<'a>(item: &Json<'a>, it: &str) -> Result<&'a str, InputFault>
    ensures { seen (λ text. text.now) result ≡ name_text_in it.now (view item.now) }
{
    let object = required_object(item, it, wrong(Member::Actions))?;
    required_text(object, "name", wrong(Member::Actions))
}

pub(crate) fn read_roles(alloc: Global, body: &Json<'_>) -> Result<Vec<RoleName>, InputFault>
    ensures { OrMemory InputFault.OutOfMemory (roles_in (view body.now)) (seen (λ roles. roles.items) result) }
{
    let items = required_list(body, Member::Roles.text(), wrong(Member::Roles))?;
    read_role_names(alloc, items)
}

pub(crate) fn optional_roles(
    alloc: Global,
    body: &Json<'_>,
) -> Result<Option<RoleNames>, InputFault>
    ensures { OrMemory InputFault.OutOfMemory (optional_roles_in (view body.now)) result }
{
    let Some(value) = member(body, Member::Roles.text()) else {
        return Ok(None);
    };
    let Some(items) = value.as_array() else {
        return Err(wrong(Member::Roles));
    };
    let names = read_role_names(alloc, items)?;
    Ok(Some(RoleNames::of(names)))
}

fn read_role_names(alloc: Global, items: &[Json<'_>]) -> Result<Vec<RoleName>, InputFault>
    ensures { OrMemory InputFault.OutOfMemory (role_names_in (map view items.now)) (seen (λ names. names.items) result) }
{
    let mut names = Vec::with_capacity(alloc, items.len())?;
    for item in items {
        add_role_name(alloc, &mut names, item)?;
    }
    Ok(names)
}

fn add_role_name(
    alloc: Global,
    names: &mut Vec<RoleName>,
    item: &Json<'_>,
) -> Result<(), InputFault>
    ensures { Makes InputFault.OutOfMemory (role_name_taken names.old.items (view item.now)) names.new.items result }
{
    let name = read_role_name(alloc, item)?;
    match names.push(name) {
        Ok(()) => Ok(()),
        Err(_) => Err(InputFault::OutOfMemory),
    }
}

/// The name of a role, as in `{"name":..}`.
fn read_role_name(alloc: Global, item: &Json<'_>) -> Result<RoleName, InputFault>
    ensures { OrMemory InputFault.OutOfMemory (role_name_in (view item.now)) result }
{
    match member(item, "name") {
        Some(value) => name_of(alloc, value, wrong(Member::Roles)),
        None => Err(wrong(Member::Roles)),
    }
}

pub(crate) fn required_digest(body: &Json<'_>) -> Result<[u8; 32], InputFault>
    ensures { result ≡ required_in digest_value members.TokenSha256 (view body.now) }
{
    match member(body, Member::TokenSha256.text()) {
        Some(value) => digest_value(value).ok_or(wrong(Member::TokenSha256)),
        None => Err(wrong(Member::TokenSha256)),
    }
}

pub(crate) fn optional_digest(body: &Json<'_>) -> Result<Option<[u8; 32]>, InputFault>
    ensures { result ≡ optional_in digest_value members.TokenSha256 (view body.now) }
{
    let Some(value) = member(body, Member::TokenSha256.text()) else {
        return Ok(None);
    };
    match digest_value(value) {
        Some(digest) => Ok(Some(digest)),
        None => Err(wrong(Member::TokenSha256)),
    }
}

/// 64 hexadecimal digits, in either case.
fn digest_value(value: &Json<'_>) -> Option<[u8; 32]>
    ensures { result ≡ digest_value (view value.now) }
{
    let text = value.as_str()?;
    digest_of(text)
}

fn digest_of(text: &str) -> Option<[u8; 32]>
    ensures { result ≡ result_ok (decode_sized text.now 32) }
{
    match <[u8; 32] as FromHex>::from_hex(text) {
        Ok(digest) => Some(digest),
        Err(_) => None,
    }
}
