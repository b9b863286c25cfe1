ghost use Rattle.std.specs.Prelude.{◌≡◌, ◌<◌, ◌≤◌, ◌||◌, length, [], true, false, not, IfOk, OnOk, OnErr};
ghost use Rattle.std.specs.Arc.{arc_value};
ghost use Rattle.af_policy.specs.Rows.{has_admin, has_digest, has_roles, has_user, most_roles, most_users, with_role, with_user};

use crate::User;
use crate::role_table::RoleTable;
use crate::tables::Tables;
use crate::user_draft::UserDraft;
use af_role::Role;
use std::alloc::{AllocError, Global};
use std::marker::Model;
use std::sync::Arc;

/// The tables of a policy that is put together: its users and its roles. Contracts see them as the rows of users and roles.
pub(crate) struct TablesDraft {
    pub(crate) users: UserDraft,
    pub(crate) roles: RoleTable,
}

impl Drop for TablesDraft {
    fn drop(self) {
        let TablesDraft { users: _, roles: _ } = self;
    }
}

impl Model for TablesDraft {
    ghost use Rattle.std.specs.Prelude.{◌≡◌, true};
    ghost use Rattle.af_policy.specs.Rows.{IsWithinLimits, PolicyRows, roles_exist};

    ghost Value = { PolicyRows };

    ghost view = { λ tables. record { users = tables.users; roles = tables.roles } };

    ghost invariant = { λ tables. (roles_exist (record { users = tables.users; roles = tables.roles }) ≡ true) × IsWithinLimits (record { users = tables.users; roles = tables.roles }) };
}

impl TablesDraft {
    /// These roles, and no user.
    pub(crate) fn new(alloc: Global, roles: RoleTable) -> TablesDraft
        requires { length roles ≤ most_roles }
        ensures { result ≡ record { users = []; roles = roles } }
    {
        TablesDraft {
            users: UserDraft::new(alloc),
            roles,
        }
    }

    /// Adds a role, or puts it in the place of the role of its name.
    pub(crate) fn put_role(&mut self, role: Role) -> Result<(), AllocError>
        requires { length self.old.roles < most_roles }
        ensures ok { OnOk result (self.new ≡ record self.old { roles = with_role self.old.roles role }) }
        ensures err { OnErr result (self.new ≡ self.old) }
    {
        self.roles.put(role)?;
        Ok(())
    }

    /// Adds a user whose roles are there, where its name and digest are nobody's, and tells whether they were.
    pub(crate) fn put_user(&mut self, user: &Arc<User>) -> Result<bool, AllocError>
        requires roles { has_roles self.old.roles (arc_value user.now).roles ≡ true }
        requires room { length self.old.users < most_users }
        ensures is_new { IfOk result (λ is_new. is_new ≡ not (has_user self.old.users (arc_value user.now).name || has_digest self.old.users (arc_value user.now).digest)) }
        ensures added { IfOk result (λ is_new. is_new ≡ true → self.new ≡ record self.old { users = with_user self.old.users (arc_value user.now) }) }
        ensures taken { IfOk result (λ is_new. is_new ≡ false → self.new ≡ self.old) }
        ensures err { OnErr result (self.new ≡ self.old) }
    {
        let is_new = self.users.insert(user)?;
        Ok(is_new)
    }

    /// Whether some user has the role Admin.
    pub(crate) fn has_admin(&self) -> bool
        ensures { result ≡ has_admin self.now.users }
    {
        self.users.has_admin()
    }

    /// The tables of these rows.
    pub(crate) fn finish(self, alloc: Global) -> Result<Tables, AllocError>
        ensures { IfOk result (λ tables. tables ≡ self) }
    {
        let TablesDraft { users, roles } = self;
        let (users, uses) = users.finish(alloc)?;
        Ok(Tables::of_parts(users, roles, uses))
    }
}
