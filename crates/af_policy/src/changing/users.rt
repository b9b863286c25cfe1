ghost use Rattle.std.specs.Prelude.{◌≡◌, ◌⊎◌, ◌<◌, length, true, false, None, Some, Ok, Err, IfOk, codes};
ghost use Rattle.std.specs.List.{list_any};
ghost use Rattle.std.specs.Option.{option_copied};
ghost use Rattle.af_policy.specs.Rows.{found_user, has_admin, has_digest, has_user, most_users, same_name, with_user, without_user};
ghost use Rattle.af_policy.specs.Changes.{is_anothers, new_user, patched, replaced, unknown_given, unknown_role, user_added, user_dropped, user_gone, user_patched, user_set, wants_memory};

use crate::draft::MOST_USERS;
use crate::user::names_copied;
use crate::{ChangeFault, Policy, User, UserPatch};
use af_names::{RoleName, UserName};
use std::alloc::{AllocError, Global};

impl Policy {
    /// The policy with a further user.
    pub(super) fn add_user(&self, alloc: Global, user: &User) -> Result<Policy, ChangeFault>
        ensures told { (result ≡ user_added self.now user.now) ⊎ (result ≡ Err ChangeFault.OutOfMemory) }
        ensures memory { result ≡ Err ChangeFault.OutOfMemory → wants_memory (user_added self.now user.now) ≡ true }
    {
        match self.tables.roles.first_unknown(user.roles()) {
            Some(name) => Err(ChangeFault::UnknownRole(name.copied(alloc)?)),
            None => self.add_known(alloc, user),
        }
    }

    /// The policy with a further user, whose roles are there.
    fn add_known(&self, alloc: Global, user: &User) -> Result<Policy, ChangeFault>
        requires { unknown_role self.now.roles user.now.roles ≡ None }
        ensures told { (result ≡ new_user self.now user.now) ⊎ (result ≡ Err ChangeFault.OutOfMemory) }
        ensures memory { result ≡ Err ChangeFault.OutOfMemory → wants_memory (new_user self.now user.now) ≡ true }
    {
        if self.tables.users.has(user.name()) || self.tables.users.has_digest(&user.digest()) {
            return Err(ChangeFault::Exists);
        }
        if self.tables.users.len() >= MOST_USERS {
            return Err(ChangeFault::TooMany);
        }
        self.with_user(alloc, user)
    }

    /// The policy with one more user, whose roles are there and whose name and digest are nobody's.
    fn with_user(&self, alloc: Global, user: &User) -> Result<Policy, ChangeFault>
        requires roles { unknown_role self.now.roles user.now.roles ≡ None }
        requires name { has_user self.now.users user.now.name ≡ false }
        requires digest { has_digest self.now.users user.now.digest ≡ false }
        requires room { length self.now.users < most_users }
        ensures { (result ≡ Ok (record { users = with_user self.now.users user.now; roles = self.now.roles })) ⊎ (result ≡ Err ChangeFault.OutOfMemory) }
    {
        let user = user.copied(alloc)?;
        let mut tables = self.tables.copied()?;
        tables.put_user(alloc, user)?;
        Ok(Policy { tables })
    }

    /// The policy with another digest or other roles of a user.
    pub(super) fn set_user(&self, alloc: Global, patch: &UserPatch) -> Result<Policy, ChangeFault>
        ensures told { (result ≡ user_set self.now patch.now) ⊎ (result ≡ Err ChangeFault.OutOfMemory) }
        ensures memory { result ≡ Err ChangeFault.OutOfMemory → wants_memory (user_set self.now patch.now) ≡ true }
    {
        match self.unknown_given(patch) {
            Some(name) => Err(ChangeFault::UnknownRole(name.copied(alloc)?)),
            None => self.set_known(alloc, patch),
        }
    }

    /// The policy with a patch of a user, whose roles are there.
    fn set_known(&self, alloc: Global, patch: &UserPatch) -> Result<Policy, ChangeFault>
        requires { unknown_given self.now.roles patch.now.roles ≡ None }
        ensures told { (result ≡ user_patched self.now patch.now (found_user self.now.users patch.now.name)) ⊎ (result ≡ Err ChangeFault.OutOfMemory) }
        ensures memory { result ≡ Err ChangeFault.OutOfMemory → wants_memory (user_patched self.now patch.now (found_user self.now.users patch.now.name)) ≡ true }
    {
        match self.tables.users.get(&patch.name) {
            Some(user) => self.set_found(alloc, patch, user),
            None => Err(ChangeFault::NoSuchUser),
        }
    }

    /// The policy with a patch of the user who is found.
    fn set_found(
        &self,
        alloc: Global,
        patch: &UserPatch,
        user: &User,
    ) -> Result<Policy, ChangeFault>
        requires found { found_user self.now.users patch.now.name ≡ Some user.now }
        requires roles { unknown_given self.now.roles patch.now.roles ≡ None }
        ensures told { (result ≡ user_patched self.now patch.now (Some user.now)) ⊎ (result ≡ Err ChangeFault.OutOfMemory) }
        ensures memory { result ≡ Err ChangeFault.OutOfMemory → wants_memory (user_patched self.now patch.now (Some user.now)) ≡ true }
    {
        if self.is_anothers(patch, user) {
            return Err(ChangeFault::Exists);
        }
        if !self.keeps_admin(patch, user) {
            return Err(ChangeFault::LastAdmin);
        }
        self.with_patched(alloc, patch, user)
    }

    /// The first role that a patch names and that is not there.
    fn unknown_given<'a>(&self, patch: &'a UserPatch) -> Option<&'a RoleName>
        ensures { option_copied result ≡ unknown_given self.now.roles patch.now.roles }
    {
        match &patch.roles {
            Some(roles) => self.tables.roles.first_unknown(roles.as_slice()),
            None => None,
        }
    }

    /// Whether the digest of a patch is that of a user of another name.
    fn is_anothers(&self, patch: &UserPatch, user: &User) -> bool
        requires { found_user self.now.users patch.now.name ≡ Some user.now }
        ensures { result ≡ is_anothers self.now.users patch.now.name patch.now.digest }
    {
        match patch.digest {
            Some(digest) => self.tables.has_other_digest(&patch.name, user, &digest),
            None => false,
        }
    }

    /// Whether some user has the role Admin after a patch.
    fn keeps_admin(&self, patch: &UserPatch, user: &User) -> bool
        requires { found_user self.now.users patch.now.name ≡ Some user.now }
        ensures { result ≡ has_admin (replaced self.now.users (patched patch.now user.now)) }
    {
        let named = names_admin_after(patch, user);
        let other = self.tables.has_other_admin(&patch.name, user);
        named || other
    }

    /// The policy with another row of a user.
    fn with_patched(
        &self,
        alloc: Global,
        patch: &UserPatch,
        user: &User,
    ) -> Result<Policy, ChangeFault>
        requires found { found_user self.now.users patch.now.name ≡ Some user.now }
        requires roles { unknown_given self.now.roles patch.now.roles ≡ None }
        requires digest { is_anothers self.now.users patch.now.name patch.now.digest ≡ false }
        requires admin { has_admin (replaced self.now.users (patched patch.now user.now)) ≡ true }
        ensures { (result ≡ Ok (record { users = replaced self.now.users (patched patch.now user.now); roles = self.now.roles })) ⊎ (result ≡ Err ChangeFault.OutOfMemory) }
    {
        self.tables.facts();
        let row = patched(alloc, patch, user)?;
        let mut tables = self.tables.copied()?;
        tables.set_user(alloc, user, row)?;
        Ok(Policy { tables })
    }

    /// The policy without a user.
    pub(super) fn drop_user(&self, alloc: Global, name: &UserName) -> Result<Policy, ChangeFault>
        ensures told { (result ≡ user_dropped self.now name.now) ⊎ (result ≡ Err ChangeFault.OutOfMemory) }
        ensures memory { result ≡ Err ChangeFault.OutOfMemory → wants_memory (user_dropped self.now name.now) ≡ true }
    {
        match self.tables.users.get(name) {
            Some(user) => self.drop_found(alloc, name, user),
            None => Err(ChangeFault::NoSuchUser),
        }
    }

    /// The policy without the user who is found.
    fn drop_found(&self, alloc: Global, name: &UserName, user: &User) -> Result<Policy, ChangeFault>
        requires { found_user self.now.users name.now ≡ Some user.now }
        ensures told { (result ≡ user_gone self.now name.now (Some user.now)) ⊎ (result ≡ Err ChangeFault.OutOfMemory) }
        ensures memory { result ≡ Err ChangeFault.OutOfMemory → wants_memory (user_gone self.now name.now (Some user.now)) ≡ true }
    {
        if !self.tables.has_other_admin(name, user) {
            return Err(ChangeFault::LastAdmin);
        }
        self.without_user(alloc, name)
    }

    /// The policy without a user, where some other is Admin.
    fn without_user(&self, alloc: Global, name: &UserName) -> Result<Policy, ChangeFault>
        requires { has_admin (without_user self.now.users name.now) ≡ true }
        ensures { (result ≡ Ok (record { users = without_user self.now.users name.now; roles = self.now.roles })) ⊎ (result ≡ Err ChangeFault.OutOfMemory) }
    {
        let mut tables = self.tables.copied()?;
        tables.take_user(alloc, name)?;
        Ok(Policy { tables })
    }
}

/// Whether Admin is among a user's roles after a patch.
fn names_admin_after(patch: &UserPatch, user: &User) -> bool
    ensures { result ≡ list_any (λ name. same_name name (codes "Admin")) (patched patch.now user.now).roles }
{
    match &patch.roles {
        Some(roles) => names_admin(roles.as_slice()),
        None => names_admin(user.roles()),
    }
}

/// Whether Admin is among these names.
fn names_admin(names: &[RoleName]) -> bool
    ensures { result ≡ list_any (λ name. same_name name (codes "Admin")) names.now }
{
    names.iter().any(|name| name.as_str() == "Admin")
}

/// A user's row after a patch.
fn patched(alloc: Global, patch: &UserPatch, user: &User) -> Result<User, AllocError>
    ensures { IfOk result (λ row. row ≡ patched patch.now user.now) }
{
    let name = patch.name.copied(alloc)?;
    let digest = patch.digest.unwrap_or(user.digest());
    let roles = match &patch.roles {
        Some(roles) => names_copied(alloc, roles.as_slice())?,
        None => names_copied(alloc, user.roles())?,
    };
    Ok(User::new(name, digest, roles))
}
