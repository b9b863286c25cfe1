ghost use Rattle.std.specs.Prelude.{◌≡◌, ◌||◌, List, ℕ, [], ◌∷◌, length, map, not, IfOk, OnOk, OnErr};
ghost use Rattle.std.specs.List.{AllByRecursion, find};
ghost use Rattle.std.specs.Option.{option_copied};
ghost use Rattle.af_role.specs.Access.{synced_role};
ghost use Rattle.af_role.specs.declared.action.Action.{Action};
ghost use Rattle.af_role.specs.declared.resource.ResourceKind.{ResourceKind};
ghost use Rattle.af_role.specs.KindMasks.{kind_has};
ghost use Rattle.af_role.specs.Pairs.{on_dag, on_kind, on_part};
ghost use Rattle.af_policy.specs.Rows.{NamesAscend, PermissionsAscend, has_role, has_roles, role_names, with_role, without_role};
ghost use Rattle.af_policy.specs.Grants.{role_lists, some_role_lists};
ghost use Rattle.af_policy.specs.Changes.{unknown_role, unknown_row};
ghost use Rattle.af_role.specs.Pairs.{with_pairs};
ghost use Rattle.af_policy.specs.Shown.{page_rows};
ghost use Rattle.af_policy.specs.Views.{is_named};
ghost use Rattle.af_role.specs.declared.action.Action.TheVariants.{Read};
ghost use Rattle.af_policy.specs.Tables.{found_role, listed_of, pairs_of, permissions_of};

use crate::masked_role::MaskedRole;
use crate::named_dags::{NamedDag, add_readable};
use crate::role_rows::{RoleByName, in_order};
use crate::role_shown::roles_shown;
use crate::role_sync::synced;
use crate::shared::Table;
use crate::{Granted, Page, RoleShown, Span};
use af_base::Ordered;
use af_names::{DagId, RoleName};
use af_role::{AccessControl, AccessRow, Action, DagPart, KindMask, Permissions, Role};
use std::alloc::{AllocError, Global};
use std::marker::Model;
use std::sync::Arc;

/// The roles of a policy, found by name in steps that grow with the logarithm of their number. Tables of different versions
/// share the roles that they have in common. Contracts see it as the roles' rows, in byte order of their names.
pub(crate) struct RoleTable {
    alloc: Global,
    by_name: Table<RoleByName>,
}

impl Drop for RoleTable {
    fn drop(self) {
        let RoleTable {
            alloc: _,
            by_name: _,
        } = self;
    }
}

impl Model for RoleTable {
    ghost use Rattle.std.specs.Prelude.{List};
    ghost use Rattle.std.specs.List.{AllByRecursion};
    ghost use Rattle.af_role.specs.Roles.{RoleRow};
    ghost use Rattle.af_policy.specs.Rows.{PermissionsAscend};

    ghost Value = { List RoleRow };

    ghost view = { λ table. table.by_name };

    // the type of permissions keeps their order, and the table keeps it of each role
    ghost invariant = { λ table. AllByRecursion PermissionsAscend table.by_name };
}

impl RoleTable {
    /// No role.
    pub(crate) fn new(alloc: Global) -> RoleTable
        ensures { result ≡ [] }
    {
        RoleTable {
            alloc,
            by_name: Table::new(),
        }
    }

    /// The table once more, which shares all roles.
    pub(crate) fn copied(&self) -> Result<RoleTable, AllocError>
        ensures { IfOk result (λ table. table ≡ self.now) }
    {
        Ok(RoleTable {
            alloc: self.alloc,
            by_name: self.by_name.copied()?,
        })
    }

    /// Adds a role, or puts it in the place of the role of its name.
    pub(crate) fn put(&mut self, role: Role) -> Result<(), AllocError>
        ensures ok { OnOk result (self.new ≡ with_role self.old role) }
        ensures err { OnErr result (self.new ≡ self.old) }
    {
        in_order(&role);
        let masked = MaskedRole::of(self.alloc, role)?;
        let shared = Arc::new(self.alloc, masked)?;
        self.by_name.put(self.alloc, RoleByName::new(shared))?;
        Ok(())
    }

    /// Takes out the role of a name, if there is one.
    pub(crate) fn remove(&mut self, name: &RoleName) -> Result<(), AllocError>
        ensures ok { OnOk result (self.new ≡ without_role self.old name.now) }
        ensures err { OnErr result (self.new ≡ self.old) }
    {
        self.by_name.remove(self.alloc, name.as_str().as_bytes())?;
        Ok(())
    }

    /// Takes over a DAG's access control. Roles that it does not touch stay shared.
    pub(crate) fn sync(
        &mut self,
        alloc: Global,
        dag: &DagId,
        access: &AccessControl,
    ) -> Result<(), AllocError>
        ensures ok { OnOk result (self.new ≡ map (synced_role dag.now access.now) self.old) }
        ensures err { OnErr result (self.new ≡ self.old) }
    {
        let by_name = synced(alloc, &self.by_name, dag, access)?;
        self.by_name = by_name;
        Ok(())
    }

    /// How many roles there are.
    pub(crate) fn len(&self) -> usize
        ensures { result ≡ length self.now }
    {
        self.by_name.len()
    }

    /// The permissions of the role of a name.
    pub(crate) fn get(&self, name: &RoleName) -> Option<&Permissions>
        ensures value { option_copied result ≡ pairs_of self.now name.now }
        ensures ascend { NamesAscend (role_names self.now) }
    {
        self.by_name.facts();
        match self.by_name.get(name.as_str().as_bytes()) {
            Some(row) => Some(row.permissions()),
            None => None,
        }
    }

    /// The role of a name, with its mask.
    pub(crate) fn masked(&self, name: &RoleName) -> Option<&MaskedRole>
        ensures value { option_copied result ≡ found_role self.now name.now }
        ensures ascend { NamesAscend (role_names self.now) }
    {
        self.by_name.facts();
        match self.by_name.get(name.as_str().as_bytes()) {
            Some(row) => Some(row.masked()),
            None => None,
        }
    }

    /// The role of a name.
    pub(crate) fn role(&self, name: &RoleName) -> Option<&Role>
        ensures { option_copied result ≡ found_role self.now name.now }
    {
        match self.by_name.get(name.as_str().as_bytes()) {
            Some(row) => Some(row.role()),
            None => None,
        }
    }

    /// The roles of a span.
    #[tactic(auto, using(crate::proofs::ShownLemmas::page_of_front))]
    pub(crate) fn page(&self, alloc: Global, span: Span) -> Result<Page<RoleShown<'_>>, AllocError>
        ensures { IfOk result (λ page. page ≡ record { rows = page_rows span self.now; total = length self.now }) }
    {
        let front = self.by_name.front(alloc, span.end())?;
        let rows = roles_shown(alloc, span.past(front.as_slice()))?;
        Ok(Page::new(rows, self.len()))
    }

    /// The permissions of the roles of these names, each once, in the order in which permissions are shown. Those of one role
    /// alone take no memory.
    pub(crate) fn permissions_of(
        &self,
        alloc: Global,
        names: &[RoleName],
    ) -> Result<Granted<'_>, AllocError>
        ensures { IfOk result (λ permissions. permissions ≡ permissions_of self.now names.now) }
    {
        if let Some((name, others)) = names.split_first() {
            if others.is_empty() {
                return Ok(self.granted_by(alloc, name));
            }
        }
        let joined = self.joined_permissions(alloc, names)?;
        Ok(Granted::joined(joined))
    }

    /// The permissions of the role of a name, none where there is no such role.
    fn granted_by(&self, alloc: Global, name: &RoleName) -> Granted<'_>
        ensures { result ≡ permissions_of self.now (name.now ∷ []) }
    {
        match self.get(name) {
            Some(permissions) => {
                let _in_order = permissions.iter();
                Granted::only(alloc, permissions)
            }
            None => Granted::joined(Permissions::new(alloc)),
        }
    }

    /// The permissions of the roles of these names, put together.
    fn joined_permissions(
        &self,
        alloc: Global,
        names: &[RoleName],
    ) -> Result<Permissions, AllocError>
        ensures { IfOk result (λ permissions. permissions ≡ permissions_of self.now names.now) }
    {
        let mut all = Permissions::new(alloc);
        for name in names {
            self.add_permissions(alloc, name, &mut all)?;
        }
        Ok(all)
    }

    /// Adds the permissions of the role of a name, if there is one.
    fn add_permissions(
        &self,
        alloc: Global,
        name: &RoleName,
        all: &mut Permissions,
    ) -> Result<(), AllocError>
        ensures { OnOk result (all.new ≡ with_pairs all.old (listed_of self.now name.now)) }
    {
        match self.get(name) {
            Some(permissions) => all.add_all(alloc, permissions),
            None => Ok(()),
        }
    }

    /// Whether there is a role of that name.
    pub(crate) fn has(&self, name: &RoleName) -> bool
        ensures { result ≡ has_role self.now name.now }
    {
        self.by_name.has(name.as_str().as_bytes())
    }

    /// The first of these names that no role has.
    pub(crate) fn first_unknown<'a>(&self, names: &'a [RoleName]) -> Option<&'a RoleName>
        ensures { option_copied result ≡ unknown_role self.now names.now }
    {
        names.iter().find(|name| !self.has(name))
    }

    /// The first role that access control names and that is not there.
    pub(crate) fn first_unknown_row<'a>(&self, access: &'a AccessControl) -> Option<&'a RoleName>
        ensures { option_copied result ≡ unknown_row self.now access.now }
    {
        match self.first_unknown_in(access.as_slice()) {
            Some(row) => Some(&row.role),
            None => None,
        }
    }

    /// The first of these rows whose role is not there.
    fn first_unknown_in<'a>(&self, rows: &'a [AccessRow]) -> Option<&'a AccessRow>
        ensures { option_copied result ≡ find (λ row. not (has_role self.now row.role)) rows.now }
    {
        rows.iter().find(|row| !self.has(&row.role))
    }

    /// Whether there is a role of each of these names.
    pub(crate) fn has_each(&self, names: &[RoleName]) -> bool
        ensures { result ≡ has_roles self.now names.now }
    {
        names.iter().all(|name| self.has(name))
    }

    /// Adds the actions on whole kinds that the roles of these names list.
    pub(crate) fn add_kinds(&self, names: &[RoleName], kinds: &mut KindMask)
        ensures { (kind : ResourceKind) (action : Action) → kind_has kinds.new kind action ≡ (kind_has kinds.old kind action || some_role_lists self.now names.now (on_kind action kind)) }
    {
        for name in names {
            self.add_kinds_of(name, kinds);
        }
    }

    /// Adds the actions on whole kinds that the role of a name lists.
    fn add_kinds_of(&self, name: &RoleName, kinds: &mut KindMask)
        ensures { (kind : ResourceKind) (action : Action) → kind_has kinds.new kind action ≡ (kind_has kinds.old kind action || role_lists self.now name.now (on_kind action kind)) }
    {
        match self.masked(name) {
            Some(role) => kinds.add_all(role.kinds()),
            None => {}
        }
    }

    /// Adds the DAGs that the roles of these names let one read by permissions on them alone.
    pub(crate) fn add_named<'a>(
        &'a self,
        names: &[RoleName],
        named: &mut Ordered<NamedDag<'a>>,
    ) -> Result<(), AllocError>
        ensures { OnOk result ((dag : List ℕ) → is_named named.new.rows dag ≡ (is_named named.old.rows dag || some_role_lists self.now names.now (on_dag Read dag))) }
    {
        for name in names {
            self.add_named_of(name, named)?;
        }
        Ok(())
    }

    /// Adds the DAGs that the role of a name lets one read by permissions on them alone.
    fn add_named_of<'a>(
        &'a self,
        name: &RoleName,
        named: &mut Ordered<NamedDag<'a>>,
    ) -> Result<(), AllocError>
        ensures { OnOk result ((dag : List ℕ) → is_named named.new.rows dag ≡ (is_named named.old.rows dag || role_lists self.now name.now (on_dag Read dag))) }
    {
        match self.masked(name) {
            Some(role) => {
                add_readable(named, role.dags())?;
                Ok(())
            }
            None => Ok(()),
        }
    }

    /// Whether the role of a name lists an action on one DAG, or on its runs.
    fn lists_on(&self, name: &RoleName, part: DagPart, action: Action, dag: &DagId) -> bool
        ensures { result ≡ role_lists self.now name.now (on_part part action dag.now) }
    {
        match self.masked(name) {
            Some(role) => role.lists_on(part, action, dag),
            None => false,
        }
    }

    /// Whether a role of one of these names lists an action on one DAG, or on its runs.
    pub(crate) fn some_lists_on(
        &self,
        names: &[RoleName],
        part: DagPart,
        action: Action,
        dag: &DagId,
    ) -> bool
        ensures { result ≡ some_role_lists self.now names.now (on_part part action dag.now) }
    {
        names
            .iter()
            .any(|name| self.lists_on(name, part, action, dag))
    }

    /// What holds of each table: names ascend, so no two roles have one, and so do the permissions of each role.
    pub(crate) fn facts(&self)
        ensures names { NamesAscend (role_names self.now) }
        ensures permissions { AllByRecursion PermissionsAscend self.now }
    {
        self.by_name.facts();
    }
}
