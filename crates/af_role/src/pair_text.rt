ghost use Rattle.std.specs.Prelude.{◌≡◌, IfOk};
ghost use Rattle.std.specs.Option.{is_some};
ghost use Rattle.af_role.specs.Resources.{action_of};
ghost use Rattle.af_role.specs.PairTexts.{pair_of_both, pair_read};

use crate::{Action, Pair, Resource, Text};
use af_base::{Again, Items};
use std::alloc::{AllocError, Global};

/// Permissions as they were given, in their order.
pub type PairTexts = Items<PairText>;

/// A permission as it was given: the texts of its action and of its resource.
#[derive(Drop)]
pub struct PairText {
    pub action: Text,
    pub resource: Text,
}

impl PairText {
    /// The same texts again. `AllocError` only where a growth was refused.
    pub fn copied(&self, alloc: Global) -> Result<PairText, AllocError>
        ensures { IfOk result (λ text. text ≡ self.now) }
    {
        let action = self.action.copied(alloc)?;
        let resource = self.resource.copied(alloc)?;
        Ok(PairText { action, resource })
    }

    /// Whether the first text is one of the four actions.
    pub(crate) fn has_action(&self) -> bool
        ensures { result ≡ is_some (action_of self.now.action) }
    {
        Action::read(self.action.as_str()).is_some()
    }

    /// Whether it is a permission, whether there is memory to read it or not.
    pub(crate) fn is_pair(&self, alloc: Global) -> bool
        ensures { result ≡ is_some (pair_read self.now) }
    {
        match Action::read(self.action.as_str()) {
            Some(action) => Resource::is_carrier(alloc, self.resource.as_str(), action),
            None => false,
        }
    }

    /// The permission. None where a text is no action or no resource, or the resource does not carry the action.
    pub(crate) fn read(&self, alloc: Global) -> Result<Option<Pair>, AllocError>
        ensures { IfOk result (λ pair. pair ≡ pair_read self.now) }
    {
        let resource = Resource::read(alloc, self.resource.as_str())?;
        Ok(Pair::of(Action::read(self.action.as_str()), resource))
    }
}

impl Again for PairText {
    fn copied(&self, alloc: Global) -> Result<PairText, AllocError> {
        PairText::copied(self, alloc)
    }
}

impl Pair {
    /// The permission of an action and a resource, where both are there.
    fn of(action: Option<Action>, resource: Option<Resource>) -> Option<Pair>
        ensures { result ≡ pair_of_both action resource }
    {
        match action {
            Some(action) => match resource {
                Some(resource) => Pair::new(action, resource),
                None => None,
            },
            None => None,
        }
    }
}
