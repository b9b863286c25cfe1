ghost use Rattle.std.specs.Prelude.{⊤, ◌≡◌, false, ◌||◌, [], ◌∷◌, codes};
ghost use Rattle.af_role.specs.declared.action.Action.{Action};
ghost use Rattle.af_role.specs.Resources.{same_action};
ghost use Rattle.af_role.specs.ActionSets.{bit_of, bits_of, has};

use crate::Action;
use bitflags::{Flag, Flags, bitflag_items};

/// A set of actions. Contracts see which actions it has.
#[derive(Clone, Copy, PartialEq, Eq, Debug)]
pub struct Actions(u8);

bitflag_items! {
    impl Actions: u8 {
        const CREATE = 1;
        const READ = 2;
        const EDIT = 4;
        const DELETE = 8;
    }
}

impl Flags for Actions {
    type Bits = u8;

    ghost exact = { ⊤ };

    ghost table = { (codes "CREATE", 1) ∷ (codes "READ", 2) ∷ (codes "EDIT", 4) ∷ (codes "DELETE", 8) ∷ [] };

    ghost set_of = { λ actions. actions.0 };

    fn flags<'a>() -> &'a [Flag<Actions>] {
        Actions::FLAGS
    }

    fn bits(&self) -> u8 {
        self.0
    }

    fn from_bits_retain(bits: u8) -> Actions {
        Actions(bits)
    }
}

impl Actions {
    /// The set without actions.
    pub fn none() -> Actions
        ensures { (action : Action) → has result action ≡ false }
    {
        Actions(0)
    }

    /// Whether an action is in the set.
    pub fn has(self, action: Action) -> bool
        ensures { result ≡ has self action }
    {
        self.contains(Actions::of(action))
    }

    /// The set with one more action.
    pub fn with(self, action: Action) -> Actions
        ensures { (other : Action) → has result other ≡ (same_action action other || has self other) }
    {
        self.union(Actions::of(action))
    }

    /// The set with the actions of another.
    pub fn with_all(self, more: Actions) -> Actions
        ensures { (action : Action) → has result action ≡ (has more action || has self action) }
    {
        self.union(more)
    }

    /// The set of one action.
    fn of(action: Action) -> Actions
        ensures { bits_of result ≡ bit_of action }
    {
        match action {
            Action::Create => Actions::CREATE,
            Action::Read => Actions::READ,
            Action::Edit => Actions::EDIT,
            Action::Delete => Actions::DELETE,
        }
    }
}
