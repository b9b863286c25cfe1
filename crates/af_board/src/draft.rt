ghost use Rattle.std.specs.Prelude.{◌≡◌, Some};
ghost use Rattle.boxcar.specs.Table.{Shows};

use crate::{Board, Mark, Receipt};
use af_mask::Compiled;
use af_names::UserName;
use af_policy::{Change, Policy};
use boxcar::Pushed;
use std::marker::Model;

/// A change that was decided under a version, and the policy that it makes, which is compiled, is in the board's table and is no version yet.
pub struct Draft {
    pub(crate) author: UserName,
    pub(crate) change: Change,
    pub(crate) base: Mark,
    pub(crate) place: u32,
    pub(crate) pushed: Pushed<Compiled>,
}

impl Drop for Draft {
    fn drop(self) {
        let Draft {
            author: _,
            change: _,
            base: _,
            place: _,
            pushed: _,
        } = self;
    }
}

impl Model for Draft {
    ghost use Rattle.af_board.specs.Drafted.{Drafted};

    ghost Value = { Drafted };

    ghost view = { λ d. record { author = d.author; change = d.change; base = d.base; place = d.place; pushed = d.pushed } };
}

impl Draft {
    /// The user who asked for the change.
    pub fn author(&self) -> &UserName
        ensures { result.now ≡ self.now.author }
    {
        &self.author
    }

    /// The change.
    pub fn change(&self) -> &Change
        ensures { result.now ≡ self.now.change }
    {
        &self.change
    }

    /// The version under which the change was decided.
    pub fn base(&self) -> &Mark
        ensures { result.now ≡ self.now.base }
    {
        &self.base
    }

    /// The receipt of the version of this number, which the draft has become.
    pub(crate) fn published(self, version: u32) -> Receipt
        ensures { result ≡ record {
          author = self.author;
          change = self.change;
          base = self.base;
          mark = record { version = version; token = Some self.pushed };
        } }
    {
        let Draft {
            author,
            change,
            base,
            place: _,
            pushed,
        } = self;
        Receipt {
            author,
            change,
            base,
            mark: Mark {
                version,
                token: Some(pushed),
            },
        }
    }

    /// The policy that the change makes. The board is the one on which the draft was made.
    pub fn policy<'a>(&self, board: &'a Board) -> &'a Policy
        requires { Shows board.now.table self.now.pushed }
        ensures { result.now ≡ self.now.pushed.value }
    {
        board.table.value(&self.pushed).policy()
    }
}
