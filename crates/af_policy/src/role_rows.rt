ghost use Rattle.std.specs.Prelude.{◌≡◌};
ghost use Rattle.std.specs.Arc.{arc_value};
ghost use Rattle.af_policy.specs.Rows.{PermissionsAscend};

use crate::masked_role::MaskedRole;
use crate::shared::{Row, front};
use af_role::{Permissions, Role};
use std::alloc::AllocError;
use std::marker::Model;
use std::sync::Arc;

/// What holds of each role: its permissions stand in the order in which they are shown, each once.
pub(crate) fn in_order(role: &Role)
    ensures { PermissionsAscend role.now }
{
    let _pairs = role.permissions().iter();
}

/// A role with its mask, found by name, whose front stands beside it. Contracts see it as the role.
#[derive(Drop)]
pub(crate) struct RoleByName {
    front: u64,
    role: Arc<MaskedRole>,
}

impl Model for RoleByName {
    ghost use Rattle.std.specs.Prelude.{◌≡◌};
    ghost use Rattle.std.specs.Arc.{arc_value};
    ghost use Rattle.af_policy.specs.Fronts.{front_of};
    ghost use Rattle.af_role.specs.Roles.{RoleRow};

    ghost Value = { RoleRow };

    ghost view = { λ row. arc_value row.role };

    ghost invariant = { λ row. row.front ≡ front_of (arc_value row.role).name };
}

impl RoleByName {
    pub(crate) fn new(role: Arc<MaskedRole>) -> RoleByName
        ensures { result ≡ arc_value role }
    {
        RoleByName {
            front: front(role.role().name().as_str().as_bytes()),
            role,
        }
    }

    /// The role with its mask.
    pub(crate) fn masked(&self) -> &MaskedRole
        ensures { result.now ≡ self.now }
    {
        &self.role
    }

    /// The role.
    pub(crate) fn role(&self) -> &Role
        ensures { result.now ≡ self.now }
    {
        self.role.role()
    }

    /// What the role permits.
    pub(crate) fn permissions(&self) -> &Permissions
        ensures { result.now ≡ self.now.pairs }
    {
        self.role.permissions()
    }
}

impl Row for RoleByName {
    ghost key = { λ row. row.name };

    fn key(&self) -> &[u8] {
        self.role.role().name().as_str().as_bytes()
    }

    fn front(&self) -> u64 {
        self.front
    }

    fn copied(&self) -> Result<RoleByName, AllocError> {
        let role = Arc::try_clone(&self.role)?;
        Ok(RoleByName {
            front: self.front,
            role,
        })
    }
}
