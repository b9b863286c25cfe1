ghost use Rattle.std.specs.Prelude.{◌≡◌, ◌⊎◌, true, Ok, Err, map};
ghost use Rattle.af_role.specs.Access.{synced_role};
ghost use Rattle.af_policy.specs.Changes.{dag_synced, wants_memory};

use crate::{ChangeFault, DagAccess, Policy};
use af_names::DagId;
use af_role::AccessControl;
use std::alloc::Global;

impl Policy {
    /// The policy after a DAG's access control is taken over.
    pub(super) fn sync_dag(&self, alloc: Global, input: &DagAccess) -> Result<Policy, ChangeFault>
        ensures told { (result ≡ dag_synced self.now input.now.dag input.now.access) ⊎ (result ≡ Err ChangeFault.OutOfMemory) }
        ensures memory { result ≡ Err ChangeFault.OutOfMemory → wants_memory (dag_synced self.now input.now.dag input.now.access) ≡ true }
    {
        let Some(access) = &input.access else {
            let same = self.copy()?;
            return Ok(same);
        };
        if let Some(text) = access.bad_action() {
            return Err(ChangeFault::BadAction(text.copied(alloc)?));
        }
        if let Some(name) = self.tables.roles.first_unknown_row(access) {
            return Err(ChangeFault::UnknownRole(name.copied(alloc)?));
        }
        self.with_synced(alloc, &input.dag, access)
    }

    /// The policy with each role as it is after a sync.
    fn with_synced(
        &self,
        alloc: Global,
        dag: &DagId,
        access: &AccessControl,
    ) -> Result<Policy, ChangeFault>
        ensures { (result ≡ Ok (record { users = self.now.users; roles = map (synced_role dag.now access.now) self.now.roles })) ⊎ (result ≡ Err ChangeFault.OutOfMemory) }
    {
        let mut tables = self.tables.copied()?;
        tables.sync(alloc, dag, access)?;
        Ok(Policy { tables })
    }
}
