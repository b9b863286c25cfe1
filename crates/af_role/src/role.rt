ghost use Rattle.std.specs.Prelude.{◌≡◌};

use crate::Permissions;
use af_names::RoleName;
use std::marker::Model;

/// A role: a name, and the permissions of whoever has it. Contracts see it as its row: the name, and the permissions
/// in the order in which they are shown, each once.
#[derive(Drop)]
pub struct Role {
    name: RoleName,
    permissions: Permissions,
}

impl Model for Role {
    ghost use Rattle.af_role.specs.Roles.{RoleRow};

    ghost Value = { RoleRow };

    ghost view = { λ role. record { name = role.name; pairs = role.permissions } };
}

impl Role {
    /// The role of this name and these permissions.
    pub fn new(name: RoleName, permissions: Permissions) -> Role
        ensures { result ≡ record { name = name; pairs = permissions } }
    {
        Role { name, permissions }
    }

    /// The role's name.
    pub fn name(&self) -> &RoleName
        ensures { result.now ≡ self.now.name }
    {
        &self.name
    }

    /// What the role permits.
    pub fn permissions(&self) -> &Permissions
        ensures { result.now ≡ self.now.pairs }
    {
        &self.permissions
    }
}
