ghost use Rattle.std.specs.Prelude.{◌≡◌, ◌⊎◌, ◌<◌, length, List, ℕ, [], true, false, not, Some, map, IfOk, IfSome, OnOk, OnErr};
ghost use Rattle.std.specs.List.{AllByRecursion};
ghost use Rattle.std.specs.Option.{option_map};
ghost use Rattle.af_role.specs.Access.{synced_role};
ghost use Rattle.af_role.specs.Pairs.{PairRow};
ghost use Rattle.af_policy.specs.Changes.{replaced};
ghost use Rattle.af_policy.specs.Grants.{grants, reads, reads_dag, reads_runs, reads_runs_of};
ghost use Rattle.af_policy.specs.Identity.{user_of};
ghost use Rattle.af_policy.specs.Uses.{IsTables, count_at, is_counted, mentions};
ghost use Rattle.af_policy.specs.Views.{held};
ghost use Rattle.af_policy.specs.Rows.{IsWithinLimits, NamesAscend, PermissionsAscend, digests_differ, found_user, has_admin, has_digest, has_role, has_roles, has_user, most_roles, most_users, role_in_use, role_names, roles_exist, same_digest, user_names, with_role, with_user, without_role, without_user};

use crate::role_table::RoleTable;
use crate::user_table::UserTable;
use crate::uses::Uses;
use crate::{Bearer, User, View};
use af_names::{DagId, RoleName, UserName};
use af_role::{AccessControl, Role};
use std::alloc::{AllocError, Global};
use std::marker::Model;

/// The tables of a policy: its users, its roles, and how often the users name each role. Contracts see them as the rows of
/// users and roles.
pub(crate) struct Tables {
    pub(crate) users: UserTable,
    pub(crate) roles: RoleTable,
    uses: Uses,
}

impl Drop for Tables {
    fn drop(self) {
        let Tables {
            users: _,
            roles: _,
            uses: _,
        } = self;
    }
}

impl Model for Tables {
    ghost use Rattle.af_policy.specs.Rows.{PolicyRows};
    ghost use Rattle.af_policy.specs.Uses.{IsTables};

    ghost Value = { PolicyRows };

    ghost view = { λ tables. record { users = tables.users; roles = tables.roles } };

    ghost invariant = { λ tables. IsTables tables.users tables.roles tables.uses };
}

impl Tables {
    /// These users and roles, where those counts are the users'.
    pub(crate) fn of_parts(users: UserTable, roles: RoleTable, uses: Uses) -> Tables
        requires { IsTables users roles uses }
        ensures { result ≡ record { users = users; roles = roles } }
    {
        Tables { users, roles, uses }
    }

    /// The tables once more, which share all rows.
    pub(crate) fn copied(&self) -> Result<Tables, AllocError>
        ensures { IfOk result (λ tables. tables ≡ self.now) }
    {
        let users = self.users.copied()?;
        let roles = self.roles.copied()?;
        let uses = self.uses.copied()?;
        Ok(Tables { users, roles, uses })
    }

    /// Adds a role, where there is room for one more, or puts it in the place of the role of its name.
    pub(crate) fn put_role(&mut self, role: Role) -> Result<(), AllocError>
        requires { (has_role self.old.roles role.name ≡ true) ⊎ (length self.old.roles < most_roles) }
        ensures ok { OnOk result (self.new ≡ record self.old { roles = with_role self.old.roles role }) }
        ensures err { OnErr result (self.new ≡ self.old) }
    {
        self.roles.facts();
        self.roles.put(role)?;
        Ok(())
    }

    /// Takes out a role that no user has.
    pub(crate) fn take_role(&mut self, name: &RoleName) -> Result<(), AllocError>
        requires { role_in_use self.old.users name.now ≡ false }
        ensures { OnOk result (self.new ≡ record self.old { roles = without_role self.old.roles name.now }) }
    {
        self.roles.remove(name)?;
        Ok(())
    }

    /// Adds a user whose name and digest are nobody's and whose roles are there.
    pub(crate) fn put_user(&mut self, alloc: Global, user: User) -> Result<(), AllocError>
        requires roles { has_roles self.old.roles user.roles ≡ true }
        requires name { has_user self.old.users user.name ≡ false }
        requires digest { has_digest self.old.users user.digest ≡ false }
        requires room { length self.old.users < most_users }
        ensures ok { OnOk result (self.new ≡ record self.old { users = with_user self.old.users user }) }
        ensures err { OnErr result (self.new ≡ self.old) }
    {
        let mut uses = self.uses.copied()?;
        uses.add_all(alloc, user.roles())?;
        self.users.insert(alloc, user)?;
        self.uses = uses;
        Ok(())
    }

    /// Puts a user in the place of this one, who has the same name, where the roles are there and the digest is nobody else's.
    pub(crate) fn set_user(
        &mut self,
        alloc: Global,
        before: &User,
        user: User,
    ) -> Result<(), AllocError>
        requires found { found_user self.old.users user.name ≡ Some before.now }
        requires roles { has_roles self.old.roles user.roles ≡ true }
        requires digest { has_digest (without_user self.old.users user.name) user.digest ≡ false }
        ensures { OnOk result (self.new ≡ record self.old { users = replaced self.old.users user }) }
    {
        self.users.facts();
        let mut uses = self.uses.copied()?;
        uses.take_all(alloc, before.roles())?;
        uses.add_all(alloc, user.roles())?;
        self.users.replace(alloc, before, user)?;
        self.uses = uses;
        Ok(())
    }

    /// Takes out the user of a name, if there is one.
    pub(crate) fn take_user(&mut self, alloc: Global, name: &UserName) -> Result<(), AllocError>
        ensures { OnOk result (self.new ≡ record self.old { users = without_user self.old.users name.now }) }
    {
        let uses = self.uses_without(alloc, name)?;
        let users = self.users.without(alloc, name)?;
        self.users = users;
        self.uses = uses;
        Ok(())
    }

    /// How often the users but that of a name name each role.
    fn uses_without(&self, alloc: Global, name: &UserName) -> Result<Uses, AllocError>
        ensures { IfOk result (λ uses. (role : List ℕ) → is_counted role ≡ true → count_at uses role ≡ mentions (without_user self.now.users name.now) role) }
    {
        self.users.facts();
        match self.users.get(name) {
            Some(user) => {
                let mut uses = self.uses.copied()?;
                uses.take_all(alloc, user.roles())?;
                Ok(uses)
            }
            None => {
                let uses = self.uses.copied()?;
                Ok(uses)
            }
        }
    }

    /// Takes over a DAG's access control.
    pub(crate) fn sync(
        &mut self,
        alloc: Global,
        dag: &DagId,
        access: &AccessControl,
    ) -> Result<(), AllocError>
        ensures { OnOk result (self.new ≡ record self.old { roles = map (synced_role dag.now access.now) self.old.roles }) }
    {
        self.roles.sync(alloc, dag, access)?;
        Ok(())
    }

    /// Whether some user has a role that is counted.
    pub(crate) fn is_used(&self, name: &str) -> bool
        requires { is_counted name.now ≡ true }
        ensures { result ≡ role_in_use self.now.users name.now }
    {
        self.uses.count(name) != 0
    }

    /// Whether some user but that of a name, who is this one, has the role Admin.
    pub(crate) fn has_other_admin(&self, name: &UserName, user: &User) -> bool
        requires { found_user self.now.users name.now ≡ Some user.now }
        ensures { result ≡ has_admin (without_user self.now.users name.now) }
    {
        self.users.facts();
        self.uses.count("Admin") != user.admin_count()
    }

    /// Whether some user but that of a name, who is this one, has a digest.
    pub(crate) fn has_other_digest(&self, name: &UserName, user: &User, digest: &[u8; 32]) -> bool
        requires { found_user self.now.users name.now ≡ Some user.now }
        ensures { result ≡ has_digest (without_user self.now.users name.now) digest.now }
    {
        self.users.facts();
        let other = differ(&user.digest(), digest);
        let taken = self.users.has_digest(digest);
        other && taken
    }

    /// What the policy of these tables grants a user, whose row is looked up once.
    pub(crate) fn view(&self, user: &UserName) -> View<'_>
        ensures held { (pair : PairRow) → held result pair ≡ grants self.now user.now pair }
        ensures reads { (dag : List ℕ) → reads_dag (held result) dag ≡ reads self.now user.now dag }
        ensures runs { (dag : List ℕ) → reads_runs_of (held result) dag ≡ reads_runs self.now user.now dag }
    {
        View::new(&self.roles, self.users.roles_of(user))
    }

    /// The user who has a digest, and what the policy of these tables grants that user, whose row is looked up once.
    pub(crate) fn bearer(&self, digest: &[u8; 32]) -> Option<Bearer<'_>>
        ensures user { option_map (λ bearer. bearer.user.now) result ≡ user_of self.now digest.now }
        ensures held { IfSome result (λ bearer. (pair : PairRow) → held bearer.view pair ≡ grants self.now bearer.user.now pair) }
        ensures reads { IfSome result (λ bearer. (dag : List ℕ) → reads_dag (held bearer.view) dag ≡ reads self.now bearer.user.now dag) }
        ensures runs { IfSome result (λ bearer. (dag : List ℕ) → reads_runs_of (held bearer.view) dag ≡ reads_runs self.now bearer.user.now dag) }
    {
        match self.users.with_digest(digest) {
            Some(found) => {
                let view = View::new(&self.roles, Some(found.roles()));
                let user = found.name();
                Some(Bearer { user, view })
            }
            None => None,
        }
    }

    /// What holds of each policy's tables but that some user is Admin.
    pub(crate) fn facts(&self)
        ensures users { NamesAscend (user_names self.now.users) }
        ensures roles { NamesAscend (role_names self.now.roles) }
        ensures digests { digests_differ self.now.users ≡ true }
        ensures exist { roles_exist self.now ≡ true }
        ensures within { IsWithinLimits self.now }
        ensures permissions { AllByRecursion PermissionsAscend self.now.roles }
    {
        self.users.facts();
        self.roles.facts();
    }
}

/// Whether two digests differ.
fn differ(one: &[u8; 32], other: &[u8; 32]) -> bool
    ensures { result ≡ not (same_digest one.now other.now) }
{
    *one != *other
}
