ghost use Rattle.std.specs.Prelude.{◌≡◌, Some};
ghost use Rattle.af_role.specs.Resources.{part_prefix, part_rank, same_part};
ghost use Rattle.af_role.specs.Pairs.{part_carries};
ghost use Rattle.std.proofs.Common.{rules};
ghost use Rattle.std.specs.Cmp.Rules.{comparing};

use crate::Action;
use std::fmt;

/// What of one DAG a permission is about. The DAG itself stands before its runs wherever both are shown.
#[derive(Clone, Copy, Debug)]
pub enum DagPart {
    /// The DAG itself, written `DAG:` and its id.
    Itself,
    /// The DAG's runs, written `DAG Run:` and its id.
    Runs,
}

impl DagPart {
    /// What stands before the id of the DAG.
    pub fn prefix(self) -> &'static str
        ensures { result.now ≡ part_prefix self }
    {
        match self {
            DagPart::Itself => "DAG:",
            DagPart::Runs => "DAG Run:",
        }
    }

    /// Whether there is a permission of that action on it. The DAG itself carries no `can_create`.
    pub(crate) fn carries(self, action: Action) -> bool
        ensures { result ≡ part_carries self action }
    {
        match self {
            DagPart::Itself => action != Action::Create,
            DagPart::Runs => true,
        }
    }

    /// The place among resources, where the eight kinds stand first.
    pub(crate) fn rank(self) -> u8
        ensures { result ≡ part_rank self }
    {
        match self {
            DagPart::Itself => 8,
            DagPart::Runs => 9,
        }
    }
}

impl PartialEq for DagPart {
    ghost eq = { same_part };

    ghost laws = { Prim.search (comparing, rules) };

    fn eq(&self, other: &DagPart) -> bool {
        self.rank() == other.rank()
    }
}

impl Eq for DagPart {
    ghost laws = { Prim.search (comparing, rules) };
}

impl fmt::Display for DagPart {
    ghost output = { λ part. Some (part_prefix part) };

    fn fmt<W: fmt::Write>(&self, f: &mut fmt::Formatter<W>) -> fmt::Result {
        f.write_str(self.prefix())
    }
}
