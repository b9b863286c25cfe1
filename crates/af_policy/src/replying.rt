ghost use Rattle.std.specs.Prelude.{◌≡◌, true, IfOk, OnErr};
ghost use Rattle.af_policy.specs.Replies.{change_told, role_reply, telling_wants, user_reply};

use crate::{Change, ChangeReply, Policy, RoleShown, UserShown};
use af_names::{RoleName, UserName};
use std::alloc::{AllocError, Global};

impl Policy {
    /// What is told of a change under the policy that it left, which is this one. None where the row that the change names
    /// is not there; under the policy that it left it is (`changes_are_told`). `AllocError` only where a user is told and a growth
    /// was refused.
    pub fn reply(
        &self,
        alloc: Global,
        change: &Change,
    ) -> Result<Option<ChangeReply<'_>>, AllocError>
        ensures told { IfOk result (λ reply. reply ≡ change_told self.now change.now) }
        ensures memory { OnErr result (telling_wants change.now ≡ true) }
    {
        match change {
            Change::AddRole(input) => Ok(self.role_reply(&input.name)),
            Change::SetRole(input) => Ok(self.role_reply(&input.name)),
            Change::DropRole(_) => Ok(Some(ChangeReply::Gone)),
            Change::AddUser(user) => self.user_reply(alloc, user.name()),
            Change::SetUser(patch) => self.user_reply(alloc, &patch.name),
            Change::DropUser(_) => Ok(Some(ChangeReply::Gone)),
            Change::SyncDag(_) => Ok(Some(ChangeReply::Synced)),
        }
    }

    /// The role of a name as it stands.
    fn role_reply(&self, name: &RoleName) -> Option<ChangeReply<'_>>
        ensures { result ≡ role_reply self.now name.now }
    {
        match self.tables.roles.role(name) {
            Some(role) => Some(ChangeReply::Role(RoleShown::new(role))),
            None => None,
        }
    }

    /// The user of a name as it stands.
    fn user_reply(
        &self,
        alloc: Global,
        name: &UserName,
    ) -> Result<Option<ChangeReply<'_>>, AllocError>
        ensures { IfOk result (λ reply. reply ≡ user_reply self.now name.now) }
    {
        match self.tables.users.get(name) {
            Some(user) => {
                let shown = UserShown::new(alloc, user)?;
                Ok(Some(ChangeReply::User(shown)))
            }
            None => Ok(None),
        }
    }
}
