//! Who asks.
use af_names::{DagId, RoleName, UserName};
use af_policy::{Policy, PolicyDraft, User};
use af_role::{Action, DagPart, Pair, Permissions, Resource, ResourceKind, Role};
use sha2::{Digest, Sha256};
use std::alloc::Global;
use std::test::Fail;

/// A user's name, token and roles.
type Named = (&'static str, &'static str, &'static [&'static str]);

/// A role's name, what it does to the DAG b, and whether it reads all runs.
type OnB = (&'static str, Action, bool);

/// Who there is, and the roles beside the default ones.
#[derive(Clone, Copy)]
pub struct Users {
    named: &'static [Named],
    roles: &'static [OnB],
}

/// Who asks a plane: each user's name is the token.
pub const OF_PLANES: Users = Users {
    named: &[
        ("adam", "adam", &["Admin"]),
        ("pat", "pat", &["Public"]),
        ("uma", "uma", &["User"]),
        ("vera", "vera", &["Viewer"]),
    ],
    roles: &[],
};

/// Who asks under the sample configuration.
pub const OF_SAMPLE: Users = Users {
    named: &[
        ("adam", "admin", &["Admin"]),
        ("zoe", "password", &["Admin"]),
        ("vera", "test", &["Viewer"]),
        ("bob", "foo", &["OnlyB"]),
        ("pat", "bar", &["Public"]),
        ("edna", "hello", &["Viewer", "EditB"]),
        ("uma", "abc", &["User"]),
        ("ron", "secret", &["RunsB"]),
    ],
    roles: &[
        ("OnlyB", Action::Read, false),
        ("EditB", Action::Edit, false),
        ("RunsB", Action::Read, true),
    ],
};

fn add_pair(permissions: &mut Permissions, pair: Option<Pair>) -> Result<(), Fail> {
    match pair {
        Some(pair) => Ok(permissions.add(pair)?),
        None => Err(Fail::new("no permission")),
    }
}

/// Adds the permission to do this to the DAG b.
fn add_on_b(alloc: Global, permissions: &mut Permissions, action: Action) -> Result<(), Fail> {
    let b = DagId::parse(alloc, "b")?;
    add_pair(
        permissions,
        Pair::new(action, Resource::Dag(DagPart::Itself, b)),
    )
}

/// Adds the permission to read all runs.
fn add_runs(permissions: &mut Permissions) -> Result<(), Fail> {
    let runs = Resource::Kind(ResourceKind::DagRuns);
    add_pair(permissions, Pair::new(Action::Read, runs))
}

fn permissions(alloc: Global, action: Action, reads_runs: bool) -> Result<Permissions, Fail> {
    let mut permissions = Permissions::new(alloc);
    add_on_b(alloc, &mut permissions, action)?;
    if reads_runs {
        add_runs(&mut permissions)?;
    }
    Ok(permissions)
}

fn role(alloc: Global, on_b: OnB) -> Result<Role, Fail> {
    let (name, action, reads_runs) = on_b;
    let name = RoleName::parse(alloc, name)?;
    Ok(Role::new(name, permissions(alloc, action, reads_runs)?))
}

fn add_role(alloc: Global, draft: &mut PolicyDraft, on_b: OnB) -> Result<(), Fail> {
    let role = role(alloc, on_b)?;
    Ok(draft.add_role(role)?)
}

fn add_roles(alloc: Global, draft: &mut PolicyDraft, roles: &[OnB]) -> Result<(), Fail> {
    for on_b in roles {
        add_role(alloc, draft, *on_b)?;
    }
    Ok(())
}

fn add_name(alloc: Global, names: &mut Vec<RoleName>, role: &str) -> Result<(), Fail> {
    let name = RoleName::parse(alloc, role)?;
    Ok(names.push(name)?)
}

/// The names of roles.
fn names_of(alloc: Global, roles: &[&str]) -> Result<Vec<RoleName>, Fail> {
    let mut names = Vec::new(alloc);
    for role in roles {
        add_name(alloc, &mut names, role)?;
    }
    Ok(names)
}

fn user(alloc: Global, named: Named) -> Result<User, Fail> {
    let (name, token, roles) = named;
    let digest = Sha256::digest(token.as_bytes());
    let name = UserName::parse(alloc, name)?;
    Ok(User::new(name, digest, names_of(alloc, roles)?))
}

fn add_user(alloc: Global, draft: &mut PolicyDraft, named: Named) -> Result<(), Fail> {
    let user = user(alloc, named)?;
    Ok(draft.add_user(alloc, user)?)
}

fn add_users(alloc: Global, draft: &mut PolicyDraft, users: &[Named]) -> Result<(), Fail> {
    for named in users {
        add_user(alloc, draft, *named)?;
    }
    Ok(())
}

fn fill(alloc: Global, draft: &mut PolicyDraft, users: Users) -> Result<(), Fail> {
    add_roles(alloc, draft, users.roles)?;
    add_users(alloc, draft, users.named)
}

fn draft(alloc: Global, users: Users) -> Result<PolicyDraft, Fail> {
    let mut draft = PolicyDraft::new(alloc)?;
    match fill(alloc, &mut draft, users) {
        Ok(()) => Ok(draft),
        Err(fault) => {
            drop(draft);
            Err(fault)
        }
    }
}

/// The policy of these users.
pub fn policy(alloc: Global, users: Users) -> Result<Policy, Fail> {
    let draft = draft(alloc, users)?;
    Ok(draft.finish(alloc)?)
}

/// The token of a user, or none for nobody.
pub fn token(who: &str) -> Option<&[u8]> {
    if who.is_empty() {
        None
    } else {
        Some(who.as_bytes())
    }
}
