// Roles and users as they are told.
ghost use Rattle.std.specs.Prelude.{◌≡◌, [], ◌∷◌, ◌++◌, IfOk, IsTrue, OnOk, codes, map, false, string_bytes, true};
ghost use Rattle.serde_json.specs.Written.{compact_text};
ghost use Rattle.af_role.specs.Resources.{part_prefix, resource_text};
ghost use Rattle.af_ops.specs.Fields.{late_listing_of, listing_of};
ghost use Rattle.af_ops.specs.PolicyTexts.{named_data, named_fields, pair_fields, reply_data, role_data, role_fields, user_data, user_fields};
ghost use Rattle.af_ops.specs.Texts.{Adds, is_name};

use crate::row::{Row, late_listing_text, listing_text, row_text};
use crate::text::Text;
use af_names::{DagId, Name, NameKind, RoleName};
use af_policy::{Page, PolicyReply, RoleShown, UserShown};
use af_role::{Action, DagPart, Pair, Permissions, Resource};
use std::alloc::{AllocError, Global};
use std::marker::Model;

/// What has a name of a kind is told by it.
impl<K: NameKind> Row for Name<K> {
    ghost fields = { named_fields };

    fn put_fields(&self, alloc: Global, out: &mut Text) -> Result<(), AllocError> {
        out.text(alloc, false, "name", self.as_str())
    }
}

/// What has a name, which is borrowed.
#[derive(Drop)]
struct NamedRow<'a> {
    name: &'a str,
}

impl<'a> Model for NamedRow<'a> {
    ghost use Rattle.std.specs.Prelude.{List, ℕ};

    ghost Value = { List ℕ };

    ghost view = { λ row. row.name.now };
}

impl<'a> Row for NamedRow<'a> {
    ghost fields = { named_fields };

    fn put_fields(&self, alloc: Global, out: &mut Text) -> Result<(), AllocError> {
        out.text(alloc, false, "name", self.name)
    }
}

impl Row for Pair {
    ghost fields = { pair_fields };

    fn put_fields(&self, alloc: Global, out: &mut Text) -> Result<(), AllocError> {
        put_pair(alloc, out, self.action(), self.resource())
    }
}

fn put_pair(
    alloc: Global,
    out: &mut Text,
    action: Action,
    resource: &Resource,
) -> Result<(), AllocError>
    ensures { OnOk result (Adds false out.old out.new (pair_fields (record { action = action; resource = resource.now }))) }
{
    put_named(alloc, out, false, "action", action.text())?;
    put_resource(alloc, out, resource)?;
    Ok(())
}

fn put_resource(alloc: Global, out: &mut Text, resource: &Resource) -> Result<(), AllocError>
    ensures { OnOk result (Adds true out.old out.new ((codes "resource", named_data (resource_text resource.now)) ∷ [])) }
{
    match resource {
        Resource::Kind(kind) => put_named(alloc, out, true, "resource", kind.text()),
        Resource::Dag(part, dag) => {
            let text = dag_resource(alloc, *part, dag)?;
            put_named(alloc, out, true, "resource", text.as_str())
        }
    }
}

/// The text of a single DAG, or of its runs, as a resource.
fn dag_resource(alloc: Global, part: DagPart, dag: &DagId) -> Result<String, AllocError>
    ensures { IfOk result (λ text. string_bytes text ≡ part_prefix part ++ dag.now) }
{
    let mut text = String::from_str(alloc, part.prefix())?;
    text.push_str(dag.as_str())?;
    Ok(text)
}

/// A member that has a name.
fn put_named(
    alloc: Global,
    out: &mut Text,
    later: bool,
    it: &str,
    name: &str,
) -> Result<(), AllocError>
    requires { IsTrue (is_name it.now) }
    ensures { OnOk result (Adds later out.old out.new ((it.now, named_data name.now) ∷ [])) }
{
    out.row(alloc, later, it, &NamedRow { name })
}

impl<'a> Row for RoleShown<'a> {
    ghost fields = { role_fields };

    fn put_fields(&self, alloc: Global, out: &mut Text) -> Result<(), AllocError> {
        put_role(alloc, out, self.name(), self.permissions())
    }
}

fn put_role(
    alloc: Global,
    out: &mut Text,
    name: &RoleName,
    permissions: &Permissions,
) -> Result<(), AllocError>
    ensures { OnOk result (Adds false out.old out.new (role_fields (record { name = name.now; pairs = permissions.now }))) }
{
    let pairs = pairs_of(alloc, permissions)?;
    out.rows(alloc, false, "actions", pairs.as_slice())?;
    out.text(alloc, true, "name", name.as_str())?;
    Ok(())
}

/// The permissions, borrowed.
fn pairs_of(alloc: Global, permissions: &Permissions) -> Result<Vec<&Pair>, AllocError>
    ensures { IfOk result (λ pairs. map (λ pair. pair.now) pairs.items ≡ permissions.now) }
{
    permissions.iter().collect(alloc)
}

impl<'a> Row for UserShown<'a> {
    ghost fields = { user_fields };

    fn put_fields(&self, alloc: Global, out: &mut Text) -> Result<(), AllocError> {
        put_user(alloc, out, self)
    }
}

fn put_user(alloc: Global, out: &mut Text, user: &UserShown<'_>) -> Result<(), AllocError>
    ensures { OnOk result (Adds false out.old out.new (user_fields user.now)) }
{
    out.rows(alloc, false, "roles", user.roles())?;
    out.text(alloc, true, "username", user.name().as_str())?;
    Ok(())
}

/// The text of what is read of the policy. `AllocError` only where a growth was refused.
pub(crate) fn reply_text(alloc: Global, reply: &PolicyReply<'_>) -> Result<Vec<u8>, AllocError>
    ensures { IfOk result (λ text. text.items ≡ compact_text (reply_data reply.now)) }
{
    match reply {
        PolicyReply::Roles(page) => roles_text(alloc, page),
        PolicyReply::Role(role) => row_text(alloc, role),
        PolicyReply::Users(page) => users_text(alloc, page),
        PolicyReply::User(user) => row_text(alloc, user),
    }
}

fn roles_text(alloc: Global, page: &Page<RoleShown<'_>>) -> Result<Vec<u8>, AllocError>
    ensures { IfOk result (λ text. text.items ≡ compact_text (listing_of (codes "roles") (map role_data page.now.rows) page.now.total)) }
{
    let rows: Vec<&RoleShown<'_>> = page.rows().iter().collect(alloc)?;
    let text = listing_text(alloc, "roles", rows.as_slice(), page.total())?;
    Ok(text)
}

fn users_text(alloc: Global, page: &Page<UserShown<'_>>) -> Result<Vec<u8>, AllocError>
    ensures { IfOk result (λ text. text.items ≡ compact_text (late_listing_of (codes "users") (map user_data page.now.rows) page.now.total)) }
{
    let rows: Vec<&UserShown<'_>> = page.rows().iter().collect(alloc)?;
    let text = late_listing_text(alloc, "users", rows.as_slice(), page.total())?;
    Ok(text)
}
