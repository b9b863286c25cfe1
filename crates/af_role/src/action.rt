ghost use Rattle.std.specs.Prelude.{◌≡◌, Some};
ghost use Rattle.std.proofs.Common.{rules};
ghost use Rattle.std.specs.Cmp.{partial_order_from_own_ties};
ghost use Rattle.std.specs.Cmp.Rules.{comparing};
ghost use Rattle.std.specs.Ordering.{as_partial_cmp, nat_cmp, on};
ghost use Rattle.af_role.specs.Resources.{action_of, action_rank, action_text, same_action};

use std::cmp::Ordering;
use std::fmt;

/// What may be done to a resource. Actions stand in this order wherever they are shown.
#[derive(Clone, Copy, Debug)]
pub enum Action {
    /// `can_create`
    Create,
    /// `can_read`
    Read,
    /// `can_edit`
    Edit,
    /// `can_delete`
    Delete,
}

impl Action {
    /// The four actions, in order.
    pub const ALL: [Action; 4] = [Action::Create, Action::Read, Action::Edit, Action::Delete];

    /// The action's text, as `can_read`.
    pub fn text(self) -> &'static str
        ensures { result.now ≡ action_text self }
    {
        match self {
            Action::Create => "can_create",
            Action::Read => "can_read",
            Action::Edit => "can_edit",
            Action::Delete => "can_delete",
        }
    }

    /// The action whose text this is. None where the text is none of the four.
    pub fn read(text: &str) -> Option<Action>
        ensures { result ≡ action_of text.now }
    {
        Action::ALL
            .iter()
            .copied()
            .find(|action| action.text() == text)
    }

    fn rank(self) -> u8
        ensures { result ≡ action_rank self }
    {
        match self {
            Action::Create => 0,
            Action::Read => 1,
            Action::Edit => 2,
            Action::Delete => 3,
        }
    }
}

impl PartialEq for Action {
    ghost eq = { same_action };

    ghost laws = { Prim.search (comparing, rules) };

    fn eq(&self, other: &Action) -> bool {
        self.rank() == other.rank()
    }
}

impl Eq for Action {
    ghost laws = { Prim.search (comparing, rules) };
}

impl PartialOrd for Action {
    ghost partial_cmp = { as_partial_cmp (on action_rank nat_cmp) };

    ghost laws = { partial_order_from_own_ties (Prim.search (comparing, rules)) (Prim.search (comparing, rules)) };

    fn partial_cmp(&self, other: &Action) -> Option<Ordering> {
        Some(self.cmp(other))
    }
}

impl Ord for Action {
    ghost cmp = { on action_rank nat_cmp };

    ghost total = { Prim.search (comparing, rules) };

    ghost matches_partial_cmp = { Prim.search (comparing, rules) };

    ghost matches_eq = { Prim.search (comparing, rules) };

    fn cmp(&self, other: &Action) -> Ordering {
        self.rank().cmp(&other.rank())
    }
}

impl fmt::Display for Action {
    ghost output = { λ action. Some (action_text action) };

    fn fmt<W: fmt::Write>(&self, f: &mut fmt::Formatter<W>) -> fmt::Result {
        f.write_str(self.text())
    }
}
