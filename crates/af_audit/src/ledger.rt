ghost use Rattle.std.specs.Prelude.{◌≡◌, ◌≤◌};
ghost use Rattle.af_audit.specs.Ledgers.{IsLedger, opened};

use crate::audit::Audit;
use crate::opening_state::OpeningState;
use crate::replaying::show_state;
use af_sched::State;
use std::alloc::Global;
use std::marker::Model;

mod answering;
mod claiming;
mod identifying;
mod listing;
mod reading;
mod recording;
mod reporting;
mod ticking;

/// The state that stands, and the entries that made it of the one that it was opened with: at all times it is their replay. It also
/// keeps the policy version under which acts are decided. The opening state stands in proofs alone: who wants to replay reads it again.
pub struct Ledger {
    opening: OpeningState,
    state: State,
    audit: Audit,
    version: u32,
}

impl Drop for Ledger {
    fn drop(self) {
        let Ledger {
            opening: _,
            state: _,
            audit: _,
            version: _,
        } = self;
    }
}

impl Model for Ledger {
    ghost use Rattle.af_audit.specs.Ledgers.{IsLedger, LedgerRows};

    ghost Value = { LedgerRows };

    ghost view = { λ ledger. record { opening = ledger.opening.rows; state = ledger.state.rows; audit = ledger.audit; version = ledger.version } };

    ghost invariant = { λ ledger. IsLedger (record { opening = ledger.opening.rows; state = ledger.state.rows; audit = ledger.audit; version = ledger.version }) };
}

impl Ledger {
    /// No entries yet, room for so many, and version 0, over this state. It takes no memory.
    pub fn open(alloc: Global, state: State, limit: u32) -> Ledger
        ensures { result ≡ opened state.rows limit }
    {
        show_state(&state);
        Ledger {
            opening: OpeningState::of(&state),
            state,
            audit: Audit::new(alloc, limit),
            version: 0,
        }
    }

    /// The state that stands.
    pub fn state(&self) -> &State
        ensures { result.now.rows ≡ self.now.state }
    {
        &self.state
    }

    /// The entries, and how many there may be.
    pub fn audit(&self) -> &Audit
        ensures { result.now ≡ self.now.audit }
    {
        &self.audit
    }

    /// The policy version under which acts are decided.
    pub fn version(&self) -> u32
        ensures { result ≡ self.now.version }
    {
        self.version
    }

    /// From now on acts are decided under this version, which is no earlier than the one before.
    pub fn look(&mut self, version: u32)
        requires { self.old.version ≤ version }
        ensures { self.new ≡ record self.old { version = version } }
    {
        self.version = version;
    }

    /// The conditions that a ledger meets at all times: the state is the replay of the entries over the opening one, their
    /// numbers go from 1 without gaps, there are at most so many, each names one whose act it is, and versions never fall.
    pub fn conditions(&self)
        ensures { IsLedger self.now }
    {
        let _version = self.version;
    }
}
