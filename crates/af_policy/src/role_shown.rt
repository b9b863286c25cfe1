ghost use Rattle.std.specs.Prelude.{◌≡◌, IfOk};
ghost use Rattle.af_policy.specs.SharedRows.{seen};

use crate::role_rows::RoleByName;
use af_names::RoleName;
use af_role::{Permissions, Role};
use std::alloc::{AllocError, Global};
use std::marker::Model;

/// A role as it is shown. Contracts see it as the role.
#[derive(Drop)]
pub struct RoleShown<'a> {
    role: &'a Role,
}

impl<'a> Model for RoleShown<'a> {
    ghost use Rattle.af_role.specs.Roles.{RoleRow};

    ghost Value = { RoleRow };

    ghost view = { λ shown. shown.role.now };
}

impl<'a> RoleShown<'a> {
    /// A role as it is shown.
    pub(crate) fn new(role: &'a Role) -> RoleShown<'a>
        ensures { result ≡ role.now }
    {
        RoleShown { role }
    }

    /// The role's name.
    pub fn name(&self) -> &'a RoleName
        ensures { result.now ≡ self.now.name }
    {
        self.role.name()
    }

    /// What the role permits, in the order in which permissions are shown.
    pub fn permissions(&self) -> &'a Permissions
        ensures { result.now ≡ self.now.pairs }
    {
        self.role.permissions()
    }
}

/// Roles as they are shown.
pub(crate) fn roles_shown<'a>(
    alloc: Global,
    rows: &[&'a RoleByName],
) -> Result<Vec<RoleShown<'a>>, AllocError>
    ensures { IfOk result (λ shown. shown.items ≡ seen rows.now) }
{
    rows.iter()
        .map(|row| RoleShown::new(row.role()))
        .collect(alloc)
}
