ghost use Rattle.std.specs.Prelude.{◌≡◌, ◌⊎◌, ◌<◌, length, true, false, is_ok, Ok, Err, IfOk};
ghost use Rattle.af_role.specs.PairTexts.{pairs_read};
ghost use Rattle.af_policy.specs.Rows.{has_role, most_roles, role_in_use, with_role, without_role};
ghost use Rattle.af_policy.specs.Changes.{after_pairs, is_default, role_added, role_dropped, role_set, wants_memory};

use crate::draft::MOST_ROLES;
use crate::{ChangeFault, Policy, RoleInput};
use af_names::RoleName;
use af_role::{Permissions, Role, check_pairs, read_pairs};
use std::alloc::Global;

impl Policy {
    /// The policy with a further role.
    pub(super) fn add_role(&self, alloc: Global, input: &RoleInput) -> Result<Policy, ChangeFault>
        ensures told { (result ≡ after_pairs (pairs_read input.now.actions) (role_added self.now input.now.name)) ⊎ (result ≡ Err ChangeFault.OutOfMemory) }
        ensures memory { result ≡ Err ChangeFault.OutOfMemory → wants_memory (after_pairs (pairs_read input.now.actions) (role_added self.now input.now.name)) ≡ true }
    {
        check_pairs(alloc, input.actions.as_slice())?;
        if self.tables.roles.has(&input.name) {
            return Err(ChangeFault::Exists);
        }
        if self.tables.roles.len() >= MOST_ROLES {
            return Err(ChangeFault::TooMany);
        }
        self.with_input(alloc, input)
    }

    /// The policy with other permissions of a role.
    pub(super) fn set_role(&self, alloc: Global, input: &RoleInput) -> Result<Policy, ChangeFault>
        ensures told { (result ≡ after_pairs (pairs_read input.now.actions) (role_set self.now input.now.name)) ⊎ (result ≡ Err ChangeFault.OutOfMemory) }
        ensures memory { result ≡ Err ChangeFault.OutOfMemory → wants_memory (after_pairs (pairs_read input.now.actions) (role_set self.now input.now.name)) ≡ true }
    {
        check_pairs(alloc, input.actions.as_slice())?;
        if !self.tables.roles.has(&input.name) {
            return Err(ChangeFault::NoSuchRole);
        }
        if is_default(&input.name) {
            return Err(ChangeFault::DefaultRole);
        }
        self.with_input(alloc, input)
    }

    /// The policy with a role of these permissions, where each is there.
    fn with_input(&self, alloc: Global, input: &RoleInput) -> Result<Policy, ChangeFault>
        requires room { (has_role self.now.roles input.now.name ≡ true) ⊎ (length self.now.roles < most_roles) }
        requires read { is_ok (pairs_read input.now.actions) ≡ true }
        ensures { IfOk (pairs_read input.now.actions) (λ pairs. (result ≡ Ok (record { users = self.now.users; roles = with_role self.now.roles (record { name = input.now.name; pairs = pairs }) })) ⊎ (result ≡ Err ChangeFault.OutOfMemory)) }
    {
        let permissions = read_pairs(alloc, input.actions.as_slice())?;
        self.with_role(alloc, &input.name, permissions)
    }

    /// The policy with a role at its place, where there is room for one more, or in the place of the role of its name.
    fn with_role(
        &self,
        alloc: Global,
        name: &RoleName,
        permissions: Permissions,
    ) -> Result<Policy, ChangeFault>
        requires { (has_role self.now.roles name.now ≡ true) ⊎ (length self.now.roles < most_roles) }
        ensures { (result ≡ Ok (record { users = self.now.users; roles = with_role self.now.roles (record { name = name.now; pairs = permissions }) })) ⊎ (result ≡ Err ChangeFault.OutOfMemory) }
    {
        let name = name.copied(alloc)?;
        let mut tables = self.tables.copied()?;
        tables.put_role(Role::new(name, permissions))?;
        Ok(Policy { tables })
    }

    /// The policy without a role.
    pub(super) fn drop_role(&self, name: &RoleName) -> Result<Policy, ChangeFault>
        ensures told { (result ≡ role_dropped self.now name.now) ⊎ (result ≡ Err ChangeFault.OutOfMemory) }
        ensures memory { result ≡ Err ChangeFault.OutOfMemory → wants_memory (role_dropped self.now name.now) ≡ true }
    {
        if !self.tables.roles.has(name) {
            return Err(ChangeFault::NoSuchRole);
        }
        if is_default(name) {
            return Err(ChangeFault::DefaultRole);
        }
        if self.tables.is_used(name.as_str()) {
            return Err(ChangeFault::RoleInUse);
        }
        self.without_role(name)
    }

    /// The policy without a role that no user has.
    fn without_role(&self, name: &RoleName) -> Result<Policy, ChangeFault>
        requires { role_in_use self.now.users name.now ≡ false }
        ensures { (result ≡ Ok (record { users = self.now.users; roles = without_role self.now.roles name.now })) ⊎ (result ≡ Err ChangeFault.OutOfMemory) }
    {
        let mut tables = self.tables.copied()?;
        tables.take_role(name)?;
        Ok(Policy { tables })
    }
}

/// Whether a name is that of a default role.
fn is_default(name: &RoleName) -> bool
    ensures { result ≡ is_default name.now }
{
    let name = name.as_str();
    name == "Public" || name == "Viewer" || name == "User" || name == "Op" || name == "Admin"
}
