ghost use Rattle.std.specs.Prelude.{◌≡◌};

use crate::Mark;
use af_names::UserName;
use af_policy::Change;
use std::marker::Model;

/// A change that made a version: its author, the change, the version under which it was decided, and the version that it made.
pub struct Receipt {
    pub(crate) author: UserName,
    pub(crate) change: Change,
    pub(crate) base: Mark,
    pub(crate) mark: Mark,
}

impl Drop for Receipt {
    fn drop(self) {
        let Receipt {
            author: _,
            change: _,
            base: _,
            mark: _,
        } = self;
    }
}

impl Model for Receipt {
    ghost use Rattle.af_board.specs.Drafted.{Received};

    ghost Value = { Received };

    ghost view = { λ r. record { author = r.author; change = r.change; base = r.base; mark = r.mark } };
}

impl Receipt {
    /// The user who asked for the change.
    pub fn author(&self) -> &UserName
        ensures { result.now ≡ self.now.author }
    {
        &self.author
    }

    /// The change.
    pub fn change(&self) -> &Change
        ensures { result.now ≡ self.now.change }
    {
        &self.change
    }

    /// The version under which the change was decided.
    pub fn base(&self) -> &Mark
        ensures { result.now ≡ self.now.base }
    {
        &self.base
    }

    /// The version that the change made.
    pub fn mark(&self) -> &Mark
        ensures { result.now ≡ self.now.mark }
    {
        &self.mark
    }
}
