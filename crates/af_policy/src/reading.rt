ghost use Rattle.std.specs.Prelude.{◌≡◌, ◌≢◌, true, Err, Some};
ghost use Rattle.std.specs.Option.{option_copied};
ghost use Rattle.af_policy.specs.Reads.{MemoryLast, me_by, me_of, me_shown, read_by, read_of, reading_wants, rows_told};

use crate::{
    Me, MeFault, Policy, PolicyRead, PolicyReply, Presented, ReadFault, RoleShown, Span, User,
    UserShown,
};
use af_names::{DagId, RoleName, UserName};
use std::alloc::Global;

impl Policy {
    /// Who brings a token, and what that user has. The faults are told in the order of `MeFault`, out of memory only where
    /// no other applies.
    pub fn me(&self, alloc: Global, token: Option<&Presented<'_>>) -> Result<Me<'_>, MeFault>
        ensures { MemoryLast MeFault.OutOfMemory (me_of self.now (option_copied token.entry)) result }
    {
        match self.bearer(token) {
            Some(name) => self.me_named(alloc, name),
            None => Err(MeFault::Unauthenticated),
        }
    }

    /// What the user of a name has.
    fn me_named(&self, alloc: Global, name: &UserName) -> Result<Me<'_>, MeFault>
        ensures { MemoryLast MeFault.OutOfMemory (me_by self.now (Some name.now)) result }
    {
        match self.tables.users.get(name) {
            Some(user) => self.me_found(alloc, user),
            None => Err(MeFault::Unauthenticated),
        }
    }

    /// What a user has.
    fn me_found<'a>(&'a self, alloc: Global, user: &'a User) -> Result<Me<'a>, MeFault>
        ensures { MemoryLast MeFault.OutOfMemory (me_shown self.now (Some user.now)) result }
    {
        let permissions = self.tables.roles.permissions_of(alloc, user.roles())?;
        let user = UserShown::new(alloc, user)?;
        Ok(Me { user, permissions })
    }

    /// What is told of this policy to the bearer of a token. The faults are told in the order of `ReadFault`, out of memory
    /// only where no other applies, and never of one role.
    pub fn read(
        &self,
        alloc: Global,
        token: Option<&Presented<'_>>,
        read: &PolicyRead,
    ) -> Result<PolicyReply<'_>, ReadFault>
        ensures told { MemoryLast ReadFault.OutOfMemory (read_of self.now (option_copied token.entry) read.now) result }
        ensures memory { result ≡ Err ReadFault.OutOfMemory → reading_wants read.now ≡ true }
    {
        match self.bearer(token) {
            Some(user) => self.read_for(alloc, user, read),
            None => Err(ReadFault::Unauthenticated),
        }
    }

    /// What is told to a user.
    fn read_for(
        &self,
        alloc: Global,
        user: &UserName,
        read: &PolicyRead,
    ) -> Result<PolicyReply<'_>, ReadFault>
        ensures told { MemoryLast ReadFault.OutOfMemory (read_by self.now read.now (Some user.now)) result }
        ensures memory { result ≡ Err ReadFault.OutOfMemory → reading_wants read.now ≡ true }
    {
        let dags: &[DagId] = &[];
        match self.missing(user, read.kind().needs(), None, dags) {
            Some(need) => Err(ReadFault::Denied(need)),
            None => self.rows_of(alloc, read),
        }
    }

    /// What is told to whoever lacks nothing.
    fn rows_of(&self, alloc: Global, read: &PolicyRead) -> Result<PolicyReply<'_>, ReadFault>
        ensures told { MemoryLast ReadFault.OutOfMemory (rows_told self.now read.now) result }
        ensures memory { result ≡ Err ReadFault.OutOfMemory → reading_wants read.now ≡ true }
    {
        match read {
            PolicyRead::Roles(span) => self.roles_of(alloc, *span),
            PolicyRead::Role(name) => self.role_of(name),
            PolicyRead::Users(span) => self.users_of(alloc, *span),
            PolicyRead::User(name) => self.user_named(alloc, name),
            PolicyRead::Bad(_, input) => Err(ReadFault::BadBody(*input)),
        }
    }

    fn roles_of(&self, alloc: Global, span: Span) -> Result<PolicyReply<'_>, ReadFault>
        ensures { MemoryLast ReadFault.OutOfMemory (rows_told self.now (PolicyRead.Roles span)) result }
    {
        let page = self.tables.roles.page(alloc, span)?;
        Ok(PolicyReply::Roles(page))
    }

    fn role_of(&self, name: &RoleName) -> Result<PolicyReply<'_>, ReadFault>
        ensures told { MemoryLast ReadFault.OutOfMemory (rows_told self.now (PolicyRead.Role name.now)) result }
        ensures unasked { result ≢ Err ReadFault.OutOfMemory }
    {
        match self.tables.roles.role(name) {
            Some(role) => Ok(PolicyReply::Role(RoleShown::new(role))),
            None => Err(ReadFault::NoSuchRole),
        }
    }

    fn users_of(&self, alloc: Global, span: Span) -> Result<PolicyReply<'_>, ReadFault>
        ensures { MemoryLast ReadFault.OutOfMemory (rows_told self.now (PolicyRead.Users span)) result }
    {
        let page = self.tables.users.page(alloc, span)?;
        Ok(PolicyReply::Users(page))
    }

    fn user_named(&self, alloc: Global, name: &UserName) -> Result<PolicyReply<'_>, ReadFault>
        ensures { MemoryLast ReadFault.OutOfMemory (rows_told self.now (PolicyRead.User name.now)) result }
    {
        match self.tables.users.get(name) {
            Some(user) => {
                let shown = UserShown::new(alloc, user)?;
                Ok(PolicyReply::User(shown))
            }
            None => Err(ReadFault::NoSuchUser),
        }
    }
}
