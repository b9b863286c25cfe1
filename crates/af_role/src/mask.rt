ghost use Rattle.std.specs.Prelude.{◌≡◌, ◌||◌, IfOk, OnOk};
ghost use Rattle.af_role.specs.Pairs.{PairRow, on_kind, on_part, same_pair};
ghost use Rattle.af_role.specs.Roles.{contains_pair};
ghost use Rattle.af_role.specs.Masks.{allows};

use crate::{Action, DagMask, DagPart, KindMask, Pair, Permissions, Resource, ResourceKind};
use af_names::DagId;
use std::alloc::{AllocError, Global};

/// Permissions, for tests that go over none of them: the actions on each kind, and those on each single DAG and its runs.
#[derive(Drop)]
pub struct Mask {
    kinds: KindMask,
    dags: DagMask,
}

impl Mask {
    /// The mask of these permissions. `AllocError` only where a growth was refused.
    pub fn of(alloc: Global, permissions: &Permissions) -> Result<Mask, AllocError>
        ensures { IfOk result (λ mask. (pair : PairRow) → allows mask pair ≡ contains_pair permissions.now pair) }
    {
        let mut mask = Mask {
            kinds: KindMask::none(),
            dags: DagMask::new(alloc),
        };
        for pair in permissions.iter() {
            mask.add(alloc, pair)?;
        }
        Ok(mask)
    }

    /// Adds a permission.
    fn add(&mut self, alloc: Global, pair: &Pair) -> Result<(), AllocError>
        ensures { OnOk result ((other : PairRow) → allows self.new other ≡ (same_pair pair.now other || allows self.old other)) }
    {
        match pair.resource() {
            Resource::Kind(kind) => {
                self.kinds.add(pair.action(), *kind);
                Ok(())
            }
            Resource::Dag(part, dag) => self.dags.add(alloc, *part, pair.action(), dag),
        }
    }

    /// Whether an action on a whole kind is among the permissions.
    pub fn has_on_kind(&self, action: Action, kind: ResourceKind) -> bool
        ensures { result ≡ allows self.now (on_kind action kind) }
    {
        self.kinds.has(action, kind)
    }

    /// Whether an action on one DAG, or on its runs, is among them, which is looked for as `DagMask::on` does.
    pub fn has_on(&self, part: DagPart, action: Action, dag: &DagId) -> bool
        ensures { result ≡ allows self.now (on_part part action dag.now) }
    {
        self.dags.has(part, action, dag)
    }

    /// The actions on whole kinds.
    pub fn kinds(&self) -> &KindMask
        ensures { result.now ≡ self.now.kinds }
    {
        &self.kinds
    }

    /// The actions on single DAGs and on their runs.
    pub fn dags(&self) -> &DagMask
        ensures { result.now ≡ self.now.dags }
    {
        &self.dags
    }
}
