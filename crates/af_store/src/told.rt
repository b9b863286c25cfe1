// The body of a line: its members, written one after another.
ghost use Rattle.std.specs.Prelude.{◌≡◌, ◌++◌, ◌∷◌, [], map, IfOk, OnOk, string_bytes};
ghost use Rattle.json.specs.Token.{key};
ghost use Rattle.json.specs.Tree.{json_tokens};
ghost use Rattle.serde_json.specs.Written.{outline};
ghost use Rattle.af_store.specs.Bodies.{body_of, name_object};
ghost use Rattle.af_store.specs.ChangeLines.{digest_told};
ghost use Rattle.af_store.specs.EntryLines.{user_object};
ghost use Rattle.af_store.specs.Tellings.{field_of, fields_tokens, told_data};

use crate::body_text::BodyText;
use crate::piece::{Piece, put_list};
use af_names::{RoleName, TaskId};
use af_role::{AccessRow, PairText};
use std::alloc::{AllocError, Global};

/// The value of a member.
#[derive(Clone, Copy, Drop)]
pub(crate) enum Told<'a> {
    Null,
    Text(&'a str),
    Truth(bool),
    Count(u64),
    Digest([u8; 32]),
    /// `{"user":..}`
    User(&'a str),
    Roles(&'a [RoleName]),
    Tasks(&'a [TaskId]),
    Pairs(&'a [PairText]),
    Access(&'a [AccessRow]),
}

/// The body of these members, which stand in byte order of their names. `AllocError` only where a growth was refused.
pub(crate) fn body_text(alloc: Global, members: &[(&str, Told<'_>)]) -> Result<String, AllocError>
    ensures { IfOk result (λ text. string_bytes text ≡ body_of (map field_of members.now)) }
{
    let mut out = BodyText::new(alloc)?;
    out.begin_object()?;
    put_fields(alloc, &mut out, members)?;
    out.end_object()?;
    Ok(out.into_string())
}

/// Writes members, which stand in an object.
pub(crate) fn put_fields(
    alloc: Global,
    out: &mut BodyText,
    members: &[(&str, Told<'_>)],
) -> Result<(), AllocError>
    ensures { OnOk result (out.new ≡ out.old ++ fields_tokens (map field_of members.now)) }
{
    for member in members {
        put_member(alloc, out, member)?;
    }
    Ok(())
}

fn put_member(
    alloc: Global,
    out: &mut BodyText,
    member: &(&str, Told<'_>),
) -> Result<(), AllocError>
    ensures { OnOk result (out.new ≡ out.old ++ key member.now.0.now ∷ json_tokens (outline (told_data member.now.1))) }
{
    out.key(member.0)?;
    put_value(alloc, out, &member.1)
}

fn put_value(alloc: Global, out: &mut BodyText, value: &Told<'_>) -> Result<(), AllocError>
    ensures { OnOk result (out.new ≡ out.old ++ json_tokens (outline (told_data value.now))) }
{
    match *value {
        Told::Null => out.null(),
        Told::Text(text) => out.text(text),
        Told::Truth(truth) => out.truth(truth),
        Told::Count(count) => out.count(count),
        Told::Digest(digest) => put_digest(alloc, out, digest),
        Told::User(name) => put_user(out, name),
        Told::Roles(names) => put_list(out, names),
        Told::Tasks(ids) => put_list(out, ids),
        Told::Pairs(pairs) => put_list(out, pairs),
        Told::Access(rows) => put_list(out, rows),
    }
}

/// `{"name":..}`
pub(crate) fn put_name(out: &mut BodyText, name: &str) -> Result<(), AllocError>
    ensures { OnOk result (out.new ≡ out.old ++ json_tokens (outline (name_object name.now))) }
{
    out.begin_object()?;
    out.key("name")?;
    out.text(name)?;
    out.end_object()
}

/// The digits of a digest.
fn put_digest(alloc: Global, out: &mut BodyText, digest: [u8; 32]) -> Result<(), AllocError>
    ensures { OnOk result (out.new ≡ out.old ++ json_tokens (outline (digest_told digest))) }
{
    let digits = hex::encode(alloc, digest)?;
    out.text(digits.as_str())
}

/// A member `{"name":..}`.
pub(crate) fn put_named(out: &mut BodyText, it: &str, name: &str) -> Result<(), AllocError>
    ensures { OnOk result (out.new ≡ out.old ++ key it.now ∷ json_tokens (outline (name_object name.now))) }
{
    out.key(it)?;
    put_name(out, name)
}

/// `{"user":..}`
fn put_user(out: &mut BodyText, name: &str) -> Result<(), AllocError>
    ensures { OnOk result (out.new ≡ out.old ++ json_tokens (outline (user_object name.now))) }
{
    out.begin_object()?;
    out.key("user")?;
    out.text(name)?;
    out.end_object()
}
