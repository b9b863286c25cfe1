ghost use Rattle.std.specs.Prelude.{◌≡◌, ◌||◌, ◌&&◌, false};
ghost use Rattle.af_role.specs.declared.action.Action.{Action};
ghost use Rattle.af_role.specs.declared.resource.ResourceKind.{ResourceKind};
ghost use Rattle.af_role.specs.Resources.{same_action, same_kind};
ghost use Rattle.af_role.specs.KindMasks.{kind_has};

use crate::{Action, Actions, ResourceKind};

/// How many kinds of resources there are.
const KINDS: usize = 8;

/// The actions on whole kinds of resources: a set for each kind, at the kind's place in their order.
#[derive(Clone, Copy)]
pub struct KindMask {
    sets: [Actions; 8],
}

impl KindMask {
    /// No action on any kind.
    pub fn none() -> KindMask
        ensures { (kind : ResourceKind) (action : Action) → kind_has result kind action ≡ false }
    {
        KindMask {
            sets: [Actions::none(); 8],
        }
    }

    /// Whether an action on a kind is there.
    pub fn has(&self, action: Action, kind: ResourceKind) -> bool
        ensures { result ≡ kind_has self.now kind action }
    {
        self.sets[kind.place()].has(action)
    }

    /// Adds an action on a kind.
    pub fn add(&mut self, action: Action, kind: ResourceKind)
        ensures { (other : ResourceKind) (a : Action) → kind_has self.new other a ≡ ((same_kind kind other && same_action action a) || kind_has self.old other a) }
    {
        let place = kind.place();
        self.sets[place] = self.sets[place].with(action);
    }

    /// Adds the actions of another mask.
    pub fn add_all(&mut self, more: &KindMask)
        ensures { (kind : ResourceKind) (action : Action) → kind_has self.new kind action ≡ (kind_has more.now kind action || kind_has self.old kind action) }
    {
        for place in 0..KINDS {
            self.sets[place] = self.sets[place].with_all(more.sets[place]);
        }
    }
}
