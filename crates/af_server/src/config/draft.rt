ghost use Rattle.std.specs.Prelude.{◌≡◌, IfOk};
ghost use Rattle.af_base.specs.Readings.{seen};
ghost use Rattle.af_server.specs.Drafts.{opening_draft};

use crate::reason::Reason;
use af_sched::{Script, State};
use std::alloc::{AllocError, Global};
use std::marker::Model;

/// What was read so far of the lists that make the state.
#[derive(Drop)]
pub struct StateDraft {
    pub state: State,
    /// The outcomes of the tries of the tasks that say them.
    pub scripts: Vec<Script>,
    /// Whether a row gave the default pool its slots.
    pub has_default: bool,
}

impl Model for StateDraft {
    ghost use Rattle.af_server.specs.Drafts.{Draft};

    ghost Value = { Draft };

    ghost view = { λ draft. record {
      state = draft.state.rows;
      scripts = draft.scripts.items;
      has_default = draft.has_default;
    } };
}

impl StateDraft {
    /// No DAGs and no variables, and of pools the default one alone. `AllocError` only where a growth was refused.
    pub fn new(alloc: Global) -> Result<StateDraft, AllocError>
        ensures { IfOk result (λ draft. draft ≡ opening_draft) }
    {
        let state = State::new(alloc)?;
        Ok(StateDraft {
            state,
            scripts: Vec::new(alloc),
            has_default: false,
        })
    }

    /// The draft, where the rows that were to be added to it were; where one was refused, why.
    pub fn unless_refused(self, told: Result<(), Reason>) -> Result<StateDraft, Reason>
        ensures { result ≡ seen (λ _. self) told }
    {
        match told {
            Ok(()) => Ok(self),
            Err(reason) => {
                drop(self);
                Err(reason)
            }
        }
    }
}
