use af_mask::Compiled;
use boxcar::Pushed;
use std::marker::Model;

/// Evidence that the places of the table are used up: a push to it whose place is above 4,294,967,295.
#[derive(Drop)]
pub struct Spent {
    pub(crate) pushed: Pushed<Compiled>,
}

impl Model for Spent {
    ghost use Rattle.boxcar.specs.Table.{Where};
    ghost use Rattle.af_policy.specs.Rows.{PolicyRows};

    ghost Value = { Where PolicyRows };

    ghost view = { λ s. s.pushed };
}
