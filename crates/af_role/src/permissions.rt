ghost use Rattle.std.specs.Prelude.{◌≡◌, [], length, not, IfOk, OnOk, OnErr};
ghost use Rattle.std.specs.List.{filter};
ghost use Rattle.std.specs.Map.Iter.{ShowsInOrder, deref};
ghost use Rattle.std.specs.List.Sorted.{IsStrictlySortedBy};
ghost use Rattle.af_role.specs.Pairs.{PairRow, pair_cmp, with_pair, with_pairs};
ghost use Rattle.af_role.specs.Access.{is_about};

use crate::Pair;
use af_names::DagId;
use std::alloc::{AllocError, Global};
use std::collections::BTreeSet;
use std::collections::btree_set::Iter;
use std::marker::Model;

/// A set of permissions. Contracts see it as a list in the order in which permissions are shown, each once.
#[derive(Drop)]
pub struct Permissions {
    pairs: BTreeSet<Pair>,
}

impl Model for Permissions {
    ghost use Rattle.std.specs.Prelude.{List};
    ghost use Rattle.af_role.specs.Pairs.{PairRow};

    ghost Value = { List PairRow };

    ghost view = { λ permissions. permissions.pairs.keys };
}

impl Permissions {
    /// No permission.
    pub fn new(alloc: Global) -> Permissions
        ensures { result ≡ [] }
    {
        Permissions {
            pairs: BTreeSet::new(alloc),
        }
    }

    /// Adds a permission at its place; one that stands there already stays.
    /// `AllocError` only where a growth was refused; the set is then as before.
    pub fn add(&mut self, pair: Pair) -> Result<(), AllocError>
        ensures ok { OnOk result (self.new ≡ with_pair self.old pair) }
        ensures err { OnErr result (self.new ≡ self.old) }
    {
        self.pairs.insert(pair)?;
        Ok(())
    }

    /// How many permissions there are.
    pub fn len(&self) -> usize
        ensures { result ≡ length self.now }
    {
        self.pairs.len()
    }

    /// The permissions, in the order in which they are shown, each once.
    pub fn iter(&self) -> Iter<'_, Pair>
        ensures rest { result ≡ self.now }
        ensures runs { ShowsInOrder (deref {X = PairRow}) }
        ensures order { IsStrictlySortedBy pair_cmp self.now }
    {
        self.pairs.iter()
    }

    /// Adds the permissions of another set, each at its place. `AllocError` only where a growth was refused.
    pub fn add_all(&mut self, alloc: Global, more: &Permissions) -> Result<(), AllocError>
        ensures { OnOk result (self.new ≡ with_pairs self.old more.now) }
    {
        for pair in more.iter() {
            self.add(pair.copied(alloc)?)?;
        }
        Ok(())
    }

    /// The same permissions again. `AllocError` only where a growth was refused.
    pub fn copied(&self, alloc: Global) -> Result<Permissions, AllocError>
        ensures { IfOk result (λ permissions. permissions ≡ self.now) }
    {
        let mut made = Permissions::new(alloc);
        for pair in self.iter() {
            made.add(pair.copied(alloc)?)?;
        }
        Ok(made)
    }

    /// The permissions but those on one DAG alone and on its runs alone. `AllocError` only where a growth was refused.
    pub fn without_dag(&self, alloc: Global, dag: &DagId) -> Result<Permissions, AllocError>
        ensures { IfOk result (λ permissions. permissions ≡ filter (λ pair. not (is_about dag.now pair)) self.now) }
    {
        let mut kept = Permissions::new(alloc);
        for pair in self.iter() {
            if !pair.is_about(dag) {
                kept.add(pair.copied(alloc)?)?;
            }
        }
        Ok(kept)
    }
}
