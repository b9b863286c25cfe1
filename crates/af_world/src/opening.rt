ghost use Rattle.std.specs.Prelude.{◌≡◌, [], IfOk, replicate};
ghost use Rattle.af_audit.specs.Acts.{IsState};
ghost use Rattle.af_audit.specs.Ledgers.{opened};
ghost use Rattle.af_world.specs.Worlds.{nothing_seen};

use crate::session::Seen;
use crate::versions::Versions;
use af_audit::Ledger;
use af_policy::Policy;
use af_sched::State;
use std::alloc::{AllocError, Global};
use std::marker::Model;

/// What a world opens with: version 0 of the policy, and the greatest number that a version may have; the state, and how many entries
/// the audit may have; and how many sessions there are.
pub struct Opening {
    policy: Policy,
    version_limit: u32,
    state: State,
    history_limit: u32,
    sessions: u32,
}

impl Drop for Opening {
    fn drop(self) {
        let Opening {
            policy: _,
            version_limit: _,
            state: _,
            history_limit: _,
            sessions: _,
        } = self;
    }
}

impl Model for Opening {
    ghost use Rattle.af_world.specs.Worlds.{OpeningRows};

    ghost Value = { OpeningRows };

    ghost view = { λ o. record {
      policy = o.policy;
      version_limit = o.version_limit;
      state = o.state.rows;
      history_limit = o.history_limit;
      sessions = o.sessions;
    } };
}

impl Opening {
    /// Opens with these. It takes no memory.
    pub fn of(
        policy: Policy,
        version_limit: u32,
        state: State,
        history_limit: u32,
        sessions: u32,
    ) -> Opening
        ensures { result ≡ record {
          policy = policy;
          version_limit = version_limit;
          state = state.rows;
          history_limit = history_limit;
          sessions = sessions;
        } }
    {
        Opening {
            policy,
            version_limit,
            state,
            history_limit,
            sessions,
        }
    }

    /// The rows of the state are as they are at all times.
    pub fn conditions(&self)
        ensures { IsState self.now.state }
    {
        let _dags = self.state.dags();
        let _runs = self.state.runs();
    }

    /// The one version 0.
    pub(crate) fn versions(&self, alloc: Global) -> Result<Versions, AllocError>
        ensures { IfOk result (λ versions. versions ≡ record { earlier = []; latest = self.now.policy; last = self.now.version_limit }) }
    {
        let policy = self.policy.copy()?;
        Ok(Versions::open(alloc, policy, self.version_limit))
    }

    /// A ledger without entries.
    pub(crate) fn ledger(&self, alloc: Global) -> Result<Ledger, AllocError>
        ensures { IfOk result (λ ledger. ledger ≡ opened self.now.state self.now.history_limit) }
    {
        let state = self.state.copied(alloc)?;
        Ok(Ledger::open(alloc, state, self.history_limit))
    }

    /// Each session has seen nothing.
    pub(crate) fn nothing_seen(&self, alloc: Global) -> Result<Vec<Seen>, AllocError>
        ensures { IfOk result (λ seen. seen.items ≡ replicate self.now.sessions nothing_seen) }
    {
        vec![in alloc; Seen {
            version: 0,
            entries: 0
        }; self.sessions as usize]
    }
}
