ghost use Rattle.std.specs.Prelude.{◌≡◌};

use af_audit::{Act, Actor, Entry};
use af_names::Instant;

/// Who does something, and what.
pub struct Deed {
    pub actor: Actor,
    pub act: Act,
}

impl Drop for Deed {
    fn drop(self) {
        let Deed { actor: _, act: _ } = self;
    }
}

impl Deed {
    /// Its entry of this number, at a moment, under a version of the policy.
    pub(crate) fn entered(self, seq: u32, moment: Instant, version: u32) -> Entry
        ensures { result ≡ record { seq = seq; moment = moment; actor = self.actor; version = version; act = self.act } }
    {
        let Deed { actor, act } = self;
        Entry {
            seq,
            moment,
            actor,
            version,
            act,
        }
    }
}
