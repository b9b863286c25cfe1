ghost use Rattle.std.specs.Prelude.{◌≡◌, true, Some, IfOk};
ghost use Rattle.std.proofs.Common.{rules};
ghost use Rattle.std.specs.Cmp.{partial_order_from_own_ties};
ghost use Rattle.std.specs.Cmp.Rules.{comparing};
ghost use Rattle.std.specs.Ordering.{as_partial_cmp};
ghost use Rattle.af_role.specs.Pairs.{carries, on_kind, pair_cmp, pair_of, pair_text, same_pair, same_pair-ties};
ghost use Rattle.af_role.specs.Access.{is_about};

use crate::{Action, Resource, ResourceKind};
use af_names::DagId;
use std::alloc::{AllocError, Global};
use std::cmp::Ordering;
use std::fmt;
use std::marker::Model;

/// A permission: an action that its resource carries. A single DAG carries no `can_create`.
/// Contracts see it as its action and its resource.
#[derive(Drop)]
pub struct Pair {
    action: Action,
    resource: Resource,
}

impl Model for Pair {
    ghost use Rattle.std.specs.Prelude.{◌≡◌, true};
    ghost use Rattle.af_role.specs.Pairs.{PairRow, carries};

    ghost Value = { PairRow };

    ghost view = { λ pair. record { action = pair.action; resource = pair.resource } };

    ghost invariant = { λ pair. carries pair.resource pair.action ≡ true };
}

impl Pair {
    /// The permission of an action and a resource. None where the resource does not carry the action: `can_create`
    /// on a single DAG.
    pub fn new(action: Action, resource: Resource) -> Option<Pair>
        ensures { result ≡ pair_of action resource }
    {
        if resource.carries(action) {
            Some(Pair { action, resource })
        } else {
            None
        }
    }

    /// The permission of an action on a whole kind, which there always is.
    pub fn on_kind(action: Action, kind: ResourceKind) -> Pair
        ensures { result ≡ on_kind action kind }
    {
        Pair {
            action,
            resource: Resource::Kind(kind),
        }
    }

    /// What may be done.
    pub fn action(&self) -> Action
        ensures value { result ≡ self.now.action }
        ensures carried { carries self.now.resource self.now.action ≡ true }
    {
        self.action
    }

    /// What it may be done to.
    pub fn resource(&self) -> &Resource
        ensures value { result.now ≡ self.now.resource }
        ensures carried { carries self.now.resource self.now.action ≡ true }
    {
        &self.resource
    }

    /// Whether it is about that DAG alone, or about its runs alone.
    pub fn is_about(&self, dag: &DagId) -> bool
        ensures { result ≡ is_about dag.now self.now }
    {
        match &self.resource {
            Resource::Kind(_) => false,
            Resource::Dag(_, own) => own == dag,
        }
    }

    /// The same permission again. `AllocError` only where a growth was refused.
    pub fn copied(&self, alloc: Global) -> Result<Pair, AllocError>
        ensures { IfOk result (λ pair. pair ≡ self.now) }
    {
        Ok(Pair {
            action: self.action,
            resource: self.resource.copied(alloc)?,
        })
    }
}

impl Resource {
    /// Whether there is a permission of that action on it.
    fn carries(&self, action: Action) -> bool
        ensures { result ≡ carries self.now action }
    {
        match self {
            Resource::Kind(_) => true,
            Resource::Dag(part, _) => part.carries(action),
        }
    }
}

impl PartialEq for Pair {
    ghost eq = { same_pair };

    ghost laws = { Prim.search (comparing, rules) depth 9 };

    fn eq(&self, other: &Pair) -> bool {
        self.resource == other.resource && self.action == other.action
    }
}

impl Eq for Pair {
    ghost laws = { Prim.search (comparing, rules) depth 9 };
}

impl PartialOrd for Pair {
    ghost partial_cmp = { as_partial_cmp pair_cmp };

    ghost laws = { partial_order_from_own_ties (Prim.search (comparing, rules) depth 9) same_pair-ties };

    fn partial_cmp(&self, other: &Pair) -> Option<Ordering> {
        Some(self.cmp(other))
    }
}

impl Ord for Pair {
    ghost cmp = { pair_cmp };

    ghost total = { Prim.search (comparing, rules) depth 9 };

    ghost matches_partial_cmp = { Prim.search (comparing, rules) depth 9 };

    ghost matches_eq = { same_pair-ties };

    fn cmp(&self, other: &Pair) -> Ordering {
        self.resource
            .cmp(&other.resource)
            .then(self.action.cmp(&other.action))
    }
}

impl fmt::Display for Pair {
    ghost output = { λ pair. Some (pair_text pair) };

    fn fmt<W: fmt::Write>(&self, f: &mut fmt::Formatter<W>) -> fmt::Result {
        write!(f, "{}.{}", self.resource, self.action)
    }
}
