// A role of the configuration: `name`, and `actions` as the API shows them.
ghost use Rattle.std.specs.Prelude.{◌≡◌, map};
ghost use Rattle.af_base.specs.JsonValue.{view};
ghost use Rattle.af_base.specs.Readings.{OrMemory, Makes, first_fault, seen};
ghost use Rattle.af_server.specs.declared.reason.Reason.{Reason};
ghost use Rattle.af_server.specs.Accounts.{action_in, pair_in, pair_taken, permissions_in, role_in, texts_in};

use crate::members::{list, name, object, text};
use crate::reason::Reason;
use af_base::Json;
use af_role::{Action, Pair, Permissions, Resource, Role};
use std::alloc::Global;

/// Reads a role: its members first, then the first action that is none, then the first pair that may not stand.
pub fn read_role(alloc: Global, row: &Json<'_>) -> Result<Role, Reason>
    ensures { OrMemory Reason.Memory (role_in (view row.now)) result }
{
    let name = name(alloc, row, "name")?;
    let items = list(row, "actions")?;
    test_texts(items)?;
    test_actions(items)?;
    let permissions = read_pairs(alloc, items)?;
    Ok(Role::new(name, permissions))
}

/// Whether each item has its texts; the reason of the first that has not.
fn test_texts(items: &[Json<'_>]) -> Result<(), Reason>
    ensures { result ≡ first_fault texts_in (map view items.now) }
{
    for item in items {
        read_texts(item)?;
    }
    Ok(())
}

/// Whether each item names an action; the reason of the first that does not.
fn test_actions(items: &[Json<'_>]) -> Result<(), Reason>
    ensures { result ≡ first_fault action_in (map view items.now) }
{
    for item in items {
        read_action(item)?;
    }
    Ok(())
}

/// The permissions of the items, each once.
fn read_pairs(alloc: Global, items: &[Json<'_>]) -> Result<Permissions, Reason>
    ensures { OrMemory Reason.Memory (permissions_in (map view items.now)) result }
{
    let mut permissions = Permissions::new(alloc);
    for item in items {
        add_pair(alloc, &mut permissions, item)?;
    }
    Ok(permissions)
}

fn add_pair(alloc: Global, permissions: &mut Permissions, item: &Json<'_>) -> Result<(), Reason>
    ensures { Makes Reason.Memory (pair_taken permissions.old (view item.now)) permissions.new result }
{
    let pair = read_pair(alloc, item)?;
    permissions.add(pair)?;
    Ok(())
}

/// The texts of an action and of a resource, as in `{"action":{"name":..},"resource":{"name":..}}`.
fn read_texts<'a>(item: &Json<'a>) -> Result<(&'a str, &'a str), Reason>
    ensures { seen (λ texts. (texts.0.now, texts.1.now)) result ≡ texts_in (view item.now) }
{
    let action = text(object(item, "action")?, "name")?;
    let resource = text(object(item, "resource")?, "name")?;
    Ok((action, resource))
}

fn read_action(item: &Json<'_>) -> Result<Action, Reason>
    ensures { result ≡ action_in (view item.now) }
{
    let (action, _) = read_texts(item)?;
    Action::read(action).ok_or(Reason::Action)
}

fn read_pair(alloc: Global, item: &Json<'_>) -> Result<Pair, Reason>
    ensures { OrMemory Reason.Memory (pair_in (view item.now)) result }
{
    let (_, resource) = read_texts(item)?;
    let action = read_action(item)?;
    match Resource::read(alloc, resource)? {
        Some(resource) => Pair::new(action, resource).ok_or(Reason::Pair),
        None => Err(Reason::Pair),
    }
}
