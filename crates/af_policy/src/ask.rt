ghost use Rattle.std.specs.Prelude.{◌≡◌};
ghost use Rattle.af_policy.specs.Versions.{asked_kind};

use crate::{BadInput, Change, ChangeKind};

/// A change that somebody asks for, or what is wrong with the body that asks for one of a kind.
#[derive(Drop)]
pub enum Ask {
    /// The change.
    Made(Change),
    /// A kind of change, and why the body is none of that kind.
    Bad(ChangeKind, BadInput),
}

impl Ask {
    /// Which kind of change is asked for.
    pub fn kind(&self) -> ChangeKind
        ensures { result ≡ asked_kind self.now }
    {
        match self {
            Ask::Made(change) => change.kind(),
            Ask::Bad(kind, _) => *kind,
        }
    }
}
