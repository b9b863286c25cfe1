ghost use Rattle.std.specs.Prelude.{◌≡◌, option_map};
ghost use Rattle.af_audit.specs.Logs.{entry_run, id_named};

use crate::act::Act;
use crate::actor::Actor;
use crate::run_name::RunName;
use af_names::Instant;

/// One entry of the audit: a change that was done.
pub struct Entry {
    /// Its number: the first entry has 1, and each later one the next.
    pub seq: u32,
    /// When it was done.
    pub moment: Instant,
    /// Who did it.
    pub actor: Actor,
    /// The policy version under which it was done.
    pub version: u32,
    /// What was done.
    pub act: Act,
}

impl Drop for Entry {
    fn drop(self) {
        let Entry {
            seq: _,
            moment: _,
            actor: _,
            version: _,
            act: _,
        } = self;
    }
}

impl Entry {
    /// The run that it names, if it names one: of a trigger, the one that was added.
    pub fn run(&self) -> Option<RunName<'_>>
        ensures { option_map id_named result ≡ entry_run self.now }
    {
        self.act.run(&self.moment)
    }
}
