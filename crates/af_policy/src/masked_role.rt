ghost use Rattle.std.specs.Prelude.{◌≡◌, ◌||◌, ◌&&◌, false, List, ℕ, IfOk};
ghost use Rattle.af_role.specs.declared.action.Action.{Action};
ghost use Rattle.af_role.specs.declared.resource.ResourceKind.{ResourceKind};
ghost use Rattle.af_role.specs.declared.dag_part.DagPart.{DagPart};
ghost use Rattle.af_role.specs.Access.{is_admin_name, listed_pairs, synced_role};
ghost use Rattle.af_role.specs.DagMasks.{dag_has};
ghost use Rattle.af_role.specs.KindMasks.{kind_has};
ghost use Rattle.af_role.specs.Pairs.{on_kind, on_part};
ghost use Rattle.af_role.specs.Roles.{contains_pair, lists};

use crate::role_rows::in_order;
use af_names::DagId;
use af_role::{AccessControl, Action, DagMask, DagPart, KindMask, Mask, Permissions, Role};
use std::alloc::{AllocError, Global};
use std::marker::Model;

/// A role with the mask of its permissions. Contracts see it as the role.
pub(crate) struct MaskedRole {
    role: Role,
    mask: Mask,
}

impl Drop for MaskedRole {
    fn drop(self) {
        let MaskedRole { role: _, mask: _ } = self;
    }
}

impl Model for MaskedRole {
    ghost use Rattle.std.specs.Prelude.{◌≡◌};
    ghost use Rattle.af_role.specs.Masks.{allows};
    ghost use Rattle.af_role.specs.Pairs.{PairRow};
    ghost use Rattle.af_role.specs.Roles.{RoleRow, lists};

    ghost Value = { RoleRow };

    ghost view = { λ masked. masked.role };

    ghost invariant = { λ masked. (pair : PairRow) → allows masked.mask pair ≡ lists masked.role pair };
}

impl MaskedRole {
    /// The role with its mask. `AllocError` only where a growth was refused.
    pub(crate) fn of(alloc: Global, role: Role) -> Result<MaskedRole, AllocError>
        ensures { IfOk result (λ masked. masked ≡ role) }
    {
        let mask = Mask::of(alloc, role.permissions())?;
        Ok(MaskedRole { role, mask })
    }

    /// The role.
    pub(crate) fn role(&self) -> &Role
        ensures { result.now ≡ self.now }
    {
        &self.role
    }

    /// What the role permits.
    pub(crate) fn permissions(&self) -> &Permissions
        ensures { result.now ≡ self.now.pairs }
    {
        self.role.permissions()
    }

    /// The actions on whole kinds that the role lists.
    pub(crate) fn kinds(&self) -> &KindMask
        ensures { (kind : ResourceKind) (action : Action) → kind_has result.now kind action ≡ lists self.now (on_kind action kind) }
    {
        self.mask.kinds()
    }

    /// The actions on single DAGs and on their runs that the role lists.
    pub(crate) fn dags(&self) -> &DagMask
        ensures { (part : DagPart) (dag : List ℕ) (action : Action) → dag_has result.now part dag action ≡ lists self.now (on_part part action dag) }
    {
        self.mask.dags()
    }

    /// Whether the role lists an action on one DAG, or on its runs.
    pub(crate) fn lists_on(&self, part: DagPart, action: Action, dag: &DagId) -> bool
        ensures { result ≡ lists self.now (on_part part action dag.now) }
    {
        self.mask.has_on(part, action, dag)
    }

    /// False only if a sync of a DAG's access control leaves the role as it is. The DAG's row in the mask is found by binary search.
    pub(crate) fn is_touched(&self, dag: &DagId, access: &AccessControl) -> bool
        ensures stays { result ≡ false → synced_role dag.now access.now self.now ≡ self.now }
    {
        in_order(&self.role);
        self.is_touched_on(DagPart::Itself, dag, access)
            || self.is_touched_on(DagPart::Runs, dag, access)
    }

    /// False only if what is listed for the role on a DAG, or on its runs, with what Admin keeps, is what the role lists there.
    fn is_touched_on(&self, part: DagPart, dag: &DagId, access: &AccessControl) -> bool
        ensures stays { result ≡ false → (action : Action) → (contains_pair (listed_pairs dag.now access.now self.now.name) (on_part part action dag.now) || (is_admin_name self.now.name && lists self.now (on_part part action dag.now))) ≡ lists self.now (on_part part action dag.now) }
    {
        let has = self.dags().on(part, dag);
        let listed = access.actions_of(part, self.role.name());
        if self.role.is_admin() {
            has.with_all(listed) != has
        } else {
            listed != has
        }
    }
}
