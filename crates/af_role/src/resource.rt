ghost use Rattle.std.specs.Prelude.{◌≡◌, ◌<◌, ◌⊎◌, true, Some, Ok, Err, IfOk, alloc_error};
ghost use Rattle.std.specs.Option.{is_some, option_copied};
ghost use Rattle.std.proofs.Common.{rules};
ghost use Rattle.std.specs.Cmp.{partial_order_from_own_ties};
ghost use Rattle.std.specs.Cmp.Rules.{comparing};
ghost use Rattle.std.specs.Ordering.{as_partial_cmp, nat_cmp, on};
ghost use Rattle.af_names.specs.Names.{id_grammar, named};
ghost use Rattle.af_role.specs.declared.dag_part.DagPart.{DagPart};
ghost use Rattle.af_role.specs.PairTexts.{pair_of_both};
ghost use Rattle.af_role.specs.Resources.{dag_named, kind_of, kind_rank, kind_text, resource_cmp, resource_id, resource_of, resource_rank, resource_text, rest_after, same_kind, same_resource};

use crate::{Action, DagPart};
use af_names::{DagId, NameError};
use std::alloc::{AllocError, Global};
use std::cmp::Ordering;
use std::fmt;

/// The kinds of resources. They stand in this order wherever they are shown.
#[derive(Clone, Copy, Debug)]
pub enum ResourceKind {
    /// `DAGs`
    Dags,
    /// `DAG Runs`
    DagRuns,
    /// `Task Instances`
    TaskInstances,
    /// `Pools`
    Pools,
    /// `Variables`
    Variables,
    /// `Audit Logs`
    AuditLogs,
    /// `Roles`
    Roles,
    /// `Users`
    Users,
}

/// What a permission is about. Kinds stand first, then single DAGs, then the runs of single DAGs, both in byte order of the DAGs' ids.
#[derive(Drop)]
pub enum Resource {
    /// All of a kind.
    Kind(ResourceKind),
    /// One DAG, or the runs of one DAG, whether there is such a DAG or not.
    Dag(DagPart, DagId),
}

impl ResourceKind {
    /// The eight kinds, in order.
    pub const ALL: [ResourceKind; 8] = [
        ResourceKind::Dags,
        ResourceKind::DagRuns,
        ResourceKind::TaskInstances,
        ResourceKind::Pools,
        ResourceKind::Variables,
        ResourceKind::AuditLogs,
        ResourceKind::Roles,
        ResourceKind::Users,
    ];

    /// The kind's text, as `DAG Runs`.
    pub fn text(self) -> &'static str
        ensures { result.now ≡ kind_text self }
    {
        match self {
            ResourceKind::Dags => "DAGs",
            ResourceKind::DagRuns => "DAG Runs",
            ResourceKind::TaskInstances => "Task Instances",
            ResourceKind::Pools => "Pools",
            ResourceKind::Variables => "Variables",
            ResourceKind::AuditLogs => "Audit Logs",
            ResourceKind::Roles => "Roles",
            ResourceKind::Users => "Users",
        }
    }

    /// The kind whose text this is, letter for letter. None where the text is none of the eight.
    pub fn read(text: &str) -> Option<ResourceKind>
        ensures { result ≡ kind_of text.now }
    {
        ResourceKind::ALL
            .iter()
            .copied()
            .find(|kind| kind.text() == text)
    }

    /// The kind's place in their order, below eight.
    #[tactic(auto, using(crate::proofs::MaskLemmas::kind_rank_below))]
    pub(crate) fn place(self) -> usize
        ensures place { result ≡ kind_rank self }
        ensures below { result < 8 }
    {
        usize::from(self.rank())
    }

    fn rank(self) -> u8
        ensures { result ≡ kind_rank self }
    {
        match self {
            ResourceKind::Dags => 0,
            ResourceKind::DagRuns => 1,
            ResourceKind::TaskInstances => 2,
            ResourceKind::Pools => 3,
            ResourceKind::Variables => 4,
            ResourceKind::AuditLogs => 5,
            ResourceKind::Roles => 6,
            ResourceKind::Users => 7,
        }
    }
}

impl Resource {
    /// The resource whose text this is: a kind's, or `DAG:` or `DAG Run:` followed by the id of a DAG. None where the text is
    /// none of these, an id that is too long among them. `AllocError` only where a growth was refused, and never in place of None.
    pub fn read(alloc: Global, text: &str) -> Result<Option<Resource>, AllocError>
        ensures told { (result ≡ Ok (resource_of text.now)) ⊎ (result ≡ Err alloc_error) }
        ensures memory { result ≡ Err alloc_error → is_some (resource_of text.now) ≡ true }
    {
        if let Some(id) = rest_after(text, DagPart::Itself.prefix()) {
            return Resource::read_dag(alloc, DagPart::Itself, id);
        }
        if let Some(id) = rest_after(text, DagPart::Runs.prefix()) {
            return Resource::read_dag(alloc, DagPart::Runs, id);
        }
        match ResourceKind::read(text) {
            Some(kind) => Ok(Some(Resource::Kind(kind))),
            None => Ok(None),
        }
    }

    fn read_dag(alloc: Global, part: DagPart, id: &str) -> Result<Option<Resource>, AllocError>
        ensures told { (result ≡ Ok (dag_named part (named id_grammar id.now))) ⊎ (result ≡ Err alloc_error) }
        ensures memory { result ≡ Err alloc_error → is_some (dag_named part (named id_grammar id.now)) ≡ true }
    {
        match DagId::parse(alloc, id) {
            Ok(dag) => Ok(Some(Resource::Dag(part, dag))),
            Err(NameError::OutOfMemory) => Err(AllocError),
            Err(_) => Ok(None),
        }
    }

    /// Whether a text is that of a resource which carries an action, whether there is memory to read it or not.
    pub(crate) fn is_carrier(alloc: Global, text: &str, action: Action) -> bool
        ensures { result ≡ is_some (pair_of_both (Some action) (resource_of text.now)) }
    {
        if let Some(id) = rest_after(text, DagPart::Itself.prefix()) {
            return DagPart::Itself.carries(action) && is_dag_id(alloc, id);
        }
        if let Some(id) = rest_after(text, DagPart::Runs.prefix()) {
            return DagPart::Runs.carries(action) && is_dag_id(alloc, id);
        }
        ResourceKind::read(text).is_some()
    }

    /// The same resource again. `AllocError` only where a growth was refused.
    pub fn copied(&self, alloc: Global) -> Result<Resource, AllocError>
        ensures { IfOk result (λ resource. resource ≡ self.now) }
    {
        match self {
            Resource::Kind(kind) => Ok(Resource::Kind(*kind)),
            Resource::Dag(part, dag) => {
                let dag = dag.copied(alloc)?;
                Ok(Resource::Dag(*part, dag))
            }
        }
    }

    fn rank(&self) -> u8
        ensures { result ≡ resource_rank self.now }
    {
        match self {
            Resource::Kind(kind) => kind.rank(),
            Resource::Dag(part, _) => part.rank(),
        }
    }

    fn id(&self) -> &str
        ensures { result.now ≡ resource_id self.now }
    {
        match self {
            Resource::Kind(_) => "",
            Resource::Dag(_, dag) => dag.as_str(),
        }
    }
}

/// Whether a text is the id of a DAG, whether there is memory to read it or not.
fn is_dag_id(alloc: Global, id: &str) -> bool
    ensures { (part : DagPart) → result ≡ is_some (dag_named part (named id_grammar id.now)) }
{
    match DagId::parse(alloc, id) {
        Ok(_) | Err(NameError::OutOfMemory) => true,
        Err(_) => false,
    }
}

/// What follows a prefix. None where the text does not begin so.
fn rest_after<'a>(text: &'a str, prefix: &str) -> Option<&'a str>
    ensures { option_copied result ≡ rest_after text.now prefix.now }
{
    text.strip_prefix(prefix)
}

impl PartialEq for ResourceKind {
    ghost eq = { same_kind };

    ghost laws = { Prim.search (comparing, rules) };

    fn eq(&self, other: &ResourceKind) -> bool {
        self.rank() == other.rank()
    }
}

impl Eq for ResourceKind {
    ghost laws = { Prim.search (comparing, rules) };
}

impl fmt::Display for ResourceKind {
    ghost output = { λ kind. Some (kind_text kind) };

    fn fmt<W: fmt::Write>(&self, f: &mut fmt::Formatter<W>) -> fmt::Result {
        f.write_str(self.text())
    }
}

impl PartialEq for Resource {
    ghost eq = { same_resource };

    ghost laws = { Prim.search (comparing, rules) };

    fn eq(&self, other: &Resource) -> bool {
        self.rank() == other.rank() && self.id() == other.id()
    }
}

impl Eq for Resource {
    ghost laws = { Prim.search (comparing, rules) };
}

impl PartialOrd for Resource {
    ghost partial_cmp = { as_partial_cmp resource_cmp };

    ghost laws = { partial_order_from_own_ties (Prim.search (comparing, rules)) (Prim.search (comparing, rules)) };

    fn partial_cmp(&self, other: &Resource) -> Option<Ordering> {
        Some(self.cmp(other))
    }
}

impl Ord for Resource {
    ghost cmp = { resource_cmp };

    ghost total = { Prim.search (comparing, rules) };

    ghost matches_partial_cmp = { Prim.search (comparing, rules) };

    ghost matches_eq = { Prim.search (comparing, rules) };

    fn cmp(&self, other: &Resource) -> Ordering {
        self.rank()
            .cmp(&other.rank())
            .then(self.id().cmp(other.id()))
    }
}

impl fmt::Display for Resource {
    ghost output = { λ resource. Some (resource_text resource) };

    fn fmt<W: fmt::Write>(&self, f: &mut fmt::Formatter<W>) -> fmt::Result {
        match self {
            Resource::Kind(kind) => f.write_str(kind.text()),
            Resource::Dag(part, dag) => write!(f, "{part}{dag}"),
        }
    }
}
