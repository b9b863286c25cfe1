// Who brings a token, and a sync of a DAG, as they are told.
ghost use Rattle.std.specs.Prelude.{◌≡◌, ◌+◌, ◌≤◌, ◌++◌, [], ◌∷◌, IfOk, OnOk, codes, length, map, false};
ghost use Rattle.serde_json.specs.Data.{array, string};
ghost use Rattle.serde_json.specs.View.{items_of};
ghost use Rattle.serde_json.specs.Written.{compact_text, items_text};
ghost use Rattle.af_role.specs.Pairs.{pair_text};
ghost use Rattle.af_role.specs.Resources.{action_text, part_prefix};
ghost use Rattle.af_ops.specs.Fields.{object_of};
ghost use Rattle.af_ops.specs.PolicyTexts.{me_fields, sync_fields};
ghost use Rattle.af_ops.specs.Texts.{Adds};

use crate::row::{Row, row_text_within};
use crate::text::Text;
use af_policy::Me;
use af_role::{Action, DagPart, Pair, Permissions, Resource};
use std::alloc::{AllocError, Global};
use std::marker::Model;

/// Bytes set aside for what is told of a user beside the permissions, and for each of these; a longer text grows.
const ME_ROOM: usize = 256;

const PAIR_ROOM: usize = 40;

/// For so many permissions are bytes set aside at most.
const MOST_PAIRS: usize = 1_000;

/// Who brings a token, borrowed, and the version of the policy that says so.
#[derive(Drop)]
struct MeRow<'v, 'a> {
    pub me: &'v Me<'a>,
    pub version: u32,
}

impl<'v, 'a> Model for MeRow<'v, 'a> {
    ghost use Rattle.af_ops.specs.PolicyTexts.{MeTold};

    ghost Value = { MeTold };

    ghost view = { λ row. record { me = row.me.now; version = row.version } };
}

impl<'v, 'a> Row for MeRow<'v, 'a> {
    ghost fields = { me_fields };

    fn put_fields(&self, alloc: Global, out: &mut Text) -> Result<(), AllocError> {
        put_me(alloc, out, self.me, self.version)
    }
}

/// The text of who brings a token.
pub(crate) fn me_text(alloc: Global, me: &Me<'_>, version: u32) -> Result<Vec<u8>, AllocError>
    ensures { IfOk result (λ text. text.items ≡ compact_text (object_of (me_fields (record { me = me.now; version = version })))) }
{
    let room = ME_ROOM + PAIR_ROOM * me.permissions.as_permissions().len().min(MOST_PAIRS);
    row_text_within(alloc, &MeRow { me, version }, room)
}

fn put_me(alloc: Global, out: &mut Text, me: &Me<'_>, version: u32) -> Result<(), AllocError>
    ensures { OnOk result (Adds false out.old out.new (me_fields (record { me = me.now; version = version }))) }
{
    put_permissions(out, me.permissions.as_permissions())?;
    out.number(true, "policy_version", u64::from(version))?;
    out.names(alloc, true, "roles", me.user.roles())?;
    out.text(alloc, true, "username", me.user.name().as_str())?;
    Ok(())
}

fn put_permissions(out: &mut Text, permissions: &Permissions) -> Result<(), AllocError>
    ensures { OnOk result (Adds false out.old out.new ((codes "permissions", array (items_of (map (λ pair. string (pair_text pair)) permissions.now))) ∷ [])) }
{
    out.reserve(40)?;
    out.push_member(false, b"permissions", b"[");
    put_pairs(out, permissions)?;
    out.reserve(8)?;
    Ok(())
}

/// The permissions as the items of an array, each a text, and the end of that.
fn put_pairs(out: &mut Text, permissions: &Permissions) -> Result<(), AllocError>
    requires { 4 ≤ out.old.ready }
    ensures text { OnOk result (out.new.items ≡ out.old.items ++ items_text false (items_of (map (λ pair. string (pair_text pair)) permissions.now))) }
    ensures room { OnOk result (2 ≤ out.new.ready) }
{
    let mut later = false;
    for pair in permissions.iter() {
        if later {
            out.push(b",");
        }
        put_pair_text(out, pair)?;
        later = true;
    }
    out.push(b"]");
    Ok(())
}

/// Appends the text of a permission, `RESOURCE.ACTION`, in quotation marks. No byte of it wants an escape.
fn put_pair_text(out: &mut Text, pair: &Pair) -> Result<(), AllocError>
    ensures text { OnOk result (out.new.items ≡ out.old.items ++ compact_text (string (pair_text pair.now))) }
    ensures room { OnOk result (4 ≤ out.new.ready) }
{
    let action = action_end(pair.action());
    match pair.resource() {
        Resource::Kind(kind) => put_pieces(out, b"\"", kind.text(), action),
        Resource::Dag(part, dag_id) => put_pieces(out, dag_front(*part), dag_id.as_str(), action),
    }
}

/// What stands before the id of a DAG in the text of a permission: the quotation mark, and the prefix.
fn dag_front(part: DagPart) -> &'static [u8]
    ensures text { result.now ≡ 34 ∷ part_prefix part }
    ensures short { length result.now ≤ 12 }
{
    match part {
        DagPart::Itself => b"\"DAG:",
        DagPart::Runs => b"\"DAG Run:",
    }
}

/// Appends three pieces, of which the first and the last are short.
#[inline(always)]
fn put_pieces(out: &mut Text, front: &[u8], middle: &str, end: &[u8]) -> Result<(), AllocError>
    requires { length front.now + length end.now ≤ 24 }
    ensures text { OnOk result (out.new.items ≡ out.old.items ++ (front.now ++ (middle.now ++ end.now))) }
    ensures room { OnOk result (4 ≤ out.new.ready) }
{
    out.reserve(middle.len() + 28)?;
    out.push(front);
    out.push(middle.as_bytes());
    out.push(end);
    Ok(())
}

/// What follows the resource in the text of a permission: the action, and the quotation mark.
fn action_end(action: Action) -> &'static [u8]
    ensures text { result.now ≡ codes "." ++ (action_text action ++ 34 ∷ []) }
    ensures short { length result.now ≤ 12 }
{
    match action {
        Action::Create => b".can_create\"",
        Action::Read => b".can_read\"",
        Action::Edit => b".can_edit\"",
        Action::Delete => b".can_delete\"",
    }
}

/// A DAG whose access control was taken over, borrowed, and the version that this made.
#[derive(Drop)]
pub(crate) struct SyncRow<'a> {
    pub dag_id: &'a str,
    pub version: u64,
}

impl<'a> Model for SyncRow<'a> {
    ghost use Rattle.af_ops.specs.PolicyTexts.{SyncTold};

    ghost Value = { SyncTold };

    ghost view = { λ row. record { dag_id = row.dag_id.now; version = row.version } };
}

impl<'a> Row for SyncRow<'a> {
    ghost fields = { sync_fields };

    fn put_fields(&self, alloc: Global, out: &mut Text) -> Result<(), AllocError> {
        put_sync(alloc, out, self.dag_id, self.version)
    }
}

fn put_sync(alloc: Global, out: &mut Text, dag_id: &str, version: u64) -> Result<(), AllocError>
    ensures { OnOk result (Adds false out.old out.new (sync_fields (record { dag_id = dag_id.now; version = version }))) }
{
    out.text(alloc, false, "dag_id", dag_id)?;
    out.number(true, "policy_version", version)?;
    Ok(())
}
