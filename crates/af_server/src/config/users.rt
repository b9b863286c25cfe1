// A user of the configuration: `username`, `roles` by name, and `token_sha256`.
ghost use Rattle.std.specs.Prelude.{◌≡◌, map};
ghost use Rattle.af_base.specs.JsonValue.{view};
ghost use Rattle.af_base.specs.Readings.{OrMemory, Makes, first_fault, seen};
ghost use Rattle.af_server.specs.declared.reason.Reason.{Reason};
ghost use Rattle.af_server.specs.Accounts.{digest_of, name_taken, name_text_in, names_in, role_names_in, user_in};

use crate::members::{list, name, text};
use crate::reason::Reason;
use af_base::Json;
use af_names::RoleName;
use af_policy::User;
use hex::FromHex;
use std::alloc::Global;

/// Reads a user: each member, and of the roles only that they are names.
pub fn read_user(alloc: Global, row: &Json<'_>) -> Result<User, Reason>
    ensures { OrMemory Reason.Memory (user_in (view row.now)) result }
{
    let name = name(alloc, row, "username")?;
    let roles = read_roles(alloc, list(row, "roles")?)?;
    let digest = read_digest(text(row, "token_sha256")?)?;
    Ok(User::new(name, digest, roles))
}

/// The names of roles: that each is a text is tested before one is read.
fn read_roles(alloc: Global, items: &[Json<'_>]) -> Result<Vec<RoleName>, Reason>
    ensures { OrMemory Reason.Memory (role_names_in (map view items.now)) (seen (λ roles. roles.items) result) }
{
    test_names(items)?;
    read_names(alloc, items)
}

/// Whether each item has a name that is a text; the reason of the first that has not.
fn test_names(items: &[Json<'_>]) -> Result<(), Reason>
    ensures { result ≡ first_fault name_text_in (map view items.now) }
{
    for item in items {
        text(item, "name")?;
    }
    Ok(())
}

/// The names of the items.
fn read_names(alloc: Global, items: &[Json<'_>]) -> Result<Vec<RoleName>, Reason>
    ensures { OrMemory Reason.Memory (names_in (map view items.now)) (seen (λ roles. roles.items) result) }
{
    let mut roles = Vec::with_capacity(alloc, items.len())?;
    for item in items {
        add_name(alloc, &mut roles, item)?;
    }
    Ok(roles)
}

fn add_name(alloc: Global, roles: &mut Vec<RoleName>, item: &Json<'_>) -> Result<(), Reason>
    ensures { Makes Reason.Memory (name_taken roles.old.items (view item.now)) roles.new.items result }
{
    let role = name(alloc, item, "name")?;
    roles.push(role)?;
    Ok(())
}

/// 64 hexadecimal digits, in either case.
fn read_digest(text: &str) -> Result<[u8; 32], Reason>
    ensures { result ≡ digest_of text.now }
{
    match <[u8; 32] as FromHex>::from_hex(text) {
        Ok(digest) => Ok(digest),
        Err(_) => Err(Reason::Shape),
    }
}
