ghost use Rattle.std.specs.Prelude.{◌≡◌, ◌⊎◌, true, Ok, Err, IfOk};
ghost use Rattle.af_policy.specs.Changes.{changed, may_want_memory};

use crate::{Change, ChangeFault, Policy};
use std::alloc::{AllocError, Global};

mod roles;
mod sync;
mod users;

impl Policy {
    /// The same policy again, which shares all rows. `AllocError` only where a growth was refused.
    pub fn copy(&self) -> Result<Policy, AllocError>
        ensures { IfOk result (λ policy. policy ≡ self.now) }
    {
        let tables = self.tables.copied()?;
        Ok(Policy { tables })
    }

    /// The policy after a change, or the first fault of `ChangeFault` that applies; this one stays as it is. A fault without
    /// a text is told whether there is memory or not.
    pub fn changed(&self, alloc: Global, change: &Change) -> Result<Policy, ChangeFault>
        ensures told { (result ≡ changed self.now change.now) ⊎ (result ≡ Err ChangeFault.OutOfMemory) }
        ensures memory { result ≡ Err ChangeFault.OutOfMemory → may_want_memory self.now change.now ≡ true }
    {
        match change {
            Change::AddRole(input) => self.add_role(alloc, input),
            Change::SetRole(input) => self.set_role(alloc, input),
            Change::DropRole(name) => self.drop_role(name),
            Change::AddUser(user) => self.add_user(alloc, user),
            Change::SetUser(patch) => self.set_user(alloc, patch),
            Change::DropUser(name) => self.drop_user(alloc, name),
            Change::SyncDag(access) => self.sync_dag(alloc, access),
        }
    }
}
