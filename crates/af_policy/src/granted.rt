ghost use Rattle.std.specs.Prelude.{◌≡◌};

use af_role::Permissions;
use std::alloc::Global;
use std::marker::Model;

/// The permissions of a user: those of the only role, borrowed, or those of several roles put together. Contracts see them as a list in the
/// order in which permissions are shown, each once.
#[derive(Drop)]
pub struct Granted<'a> {
    only: Option<&'a Permissions>,
    joined: Permissions,
}

impl<'a> Model for Granted<'a> {
    ghost use Rattle.std.specs.Prelude.{List, unwrap_or};
    ghost use Rattle.std.specs.Option.{option_copied};
    ghost use Rattle.af_role.specs.Pairs.{PairRow};

    ghost Value = { List PairRow };

    ghost view = { λ granted. unwrap_or (option_copied granted.only) granted.joined };
}

impl<'a> Granted<'a> {
    /// The permissions of the only role. It takes no memory.
    pub(crate) fn only(alloc: Global, permissions: &'a Permissions) -> Granted<'a>
        ensures { result ≡ permissions.now }
    {
        Granted {
            only: Some(permissions),
            joined: Permissions::new(alloc),
        }
    }

    /// The permissions of several roles, put together.
    pub(crate) fn joined(permissions: Permissions) -> Granted<'a>
        ensures { result ≡ permissions }
    {
        Granted {
            only: None,
            joined: permissions,
        }
    }

    /// The permissions.
    pub fn as_permissions(&self) -> &Permissions
        ensures { result.now ≡ self.now }
    {
        match self.only {
            Some(permissions) => permissions,
            None => &self.joined,
        }
    }
}
