ghost use Rattle.std.specs.Prelude.{◌≡◌, ◌<◌, [], Some, length, slice_get, IfErr, IfOk};
ghost use Rattle.af_audit.specs.Acts.{IsState};
ghost use Rattle.af_audit.specs.Claimed.{IsClaimed};
ghost use Rattle.af_audit.specs.Ledgers as ledgers;
ghost use Rattle.af_audit.specs.Ledgers.{IsLedger};
ghost use Rattle.af_audit.specs.Reported.{IsReported};
ghost use Rattle.af_audit.specs.Ticked.{IsTicked};
ghost use Rattle.af_board.specs.Marks.{IsLast, IsOf, policy_of};
ghost use Rattle.af_word.specs.Calls.{Looked};
ghost use Rattle.af_plane.specs.Blind.{TellsWhatIsRead};
ghost use Rattle.af_plane.specs.Looks.{looked};
ghost use Rattle.af_plane.specs.Growth.{HasStayed, IsOneMore};
ghost use Rattle.af_plane.specs.Planes.{Applies, ClaimIs, ReportIs, TickIs};

use crate::request::Request;
use af_audit::{AuditFault, Entry, Ledger, ReportRefusal};
use af_board::{Board, Mark, NotFound};
use af_names::Instant;
use af_ops::{Call, Served};
use af_policy::Policy;
use af_sched::{Claim, Outcome, State};
use af_tally::Keeper;
use af_word::Pass;
use std::alloc::Global;
use std::marker::Model;

mod turning;
mod visiting;

/// The ledger of a world, with a pass of a board of versions of the policy, and the keeper of its entries, which shows them to sessions. It
/// decides under the version that it looked at last, which its pass has seen.
pub struct Plane {
    pub(crate) pass: Pass,
    pub(crate) keeper: Keeper<Entry>,
    ledger: Ledger,
}

impl Drop for Plane {
    fn drop(self) {
        let Plane {
            pass: _,
            keeper: _,
            ledger: _,
        } = self;
    }
}

impl Model for Plane {
    ghost use Rattle.std.specs.Prelude.{◌≡◌, ◌<◌, Some, length, slice_get};
    ghost use Rattle.af_plane.specs.Visits.{PlaneRows};

    ghost Value = { PlaneRows };

    ghost view = { λ plane. record { pass = plane.pass; keeper = plane.keeper; ledger = plane.ledger } };

    ghost invariant = { λ plane. (plane.ledger.version < length plane.pass.places) × (plane.keeper.entries ≡ plane.ledger.audit.entries) × (slice_get plane.pass.places 0 ≡ Some 0) };
}

impl Plane {
    /// No entries yet, room for as many as `history_limit`, and version 0, over this state, with this pass and this keeper. It takes no
    /// memory.
    pub fn open(
        alloc: Global,
        state: State,
        history_limit: u32,
        pass: Pass,
        keeper: Keeper<Entry>,
    ) -> Plane
        requires entries { keeper.entries ≡ [] }
        requires begins { slice_get pass.places 0 ≡ Some 0 }
        ensures { result ≡ record { pass = pass; keeper = keeper; ledger = ledgers.opened state.rows history_limit } }
    {
        let _seen = pass.seen();
        Plane {
            pass,
            keeper,
            ledger: Ledger::open(alloc, state, history_limit),
        }
    }

    /// The ledger: the opening state, the state, the entries that made it of that one, and the version looked at.
    pub fn ledger(&self) -> &Ledger
        ensures { result.now ≡ self.now.ledger }
    {
        &self.ledger
    }

    /// What holds at all times: the state is the replay of the entries over the opening one, there are at most so many, their versions never
    /// fall and none is past the plane's, which its pass has seen; and the rows of the state are as they are at all times.
    pub fn conditions(&self)
        ensures ledger { IsLedger self.now.ledger }
        ensures state { IsState self.now.ledger.state }
        ensures under { self.now.ledger.version < length self.now.pass.places }
        ensures entries { self.now.keeper.entries ≡ self.now.ledger.audit.entries }
    {
        let _dags = self.ledger.state().dags();
        let _runs = self.ledger.state().runs();
        self.ledger.conditions();
    }

    /// Looks at the last version of the board, and gives its mark: from now on acts are decided under it. `NotFound` if the policy of that
    /// version is not to be had; then the ledger is as before.
    #[tactic(auto, using(af_prefixes::proofs::PrefixLemmas::prefix_length, af_prefixes::proofs::PrefixLemmas::prefix_get))]
    pub fn look(&mut self, board: &Board) -> Result<Mark, NotFound>
        requires { self.old.pass.word ≡ board.now.word }
        ensures pass { Looked self.old.pass self.new.pass }
        ensures mark { IfOk result (λ m. IsLast board.now self.new.pass m) }
        ensures looked { IfOk result (λ m. self.new.ledger ≡ looked m.version self.old.ledger) }
        ensures not_found { IfErr result (λ _. 1 < length self.new.pass.places) }
        ensures stays { IfErr result (λ _. self.new.ledger ≡ self.old.ledger) }
        ensures keeper { self.new.keeper ≡ self.old.keeper }
    {
        let mark = board.current(&mut self.pass)?;
        self.ledger.look(mark.version());
        Ok(mark)
    }

    /// Decides an operation on the state, or a request for event logs, under the version that was looked at, of which this is the mark; none
    /// if the call is an operation on the policy, which is not the plane's. Where the state changes there is one entry, of the token's owner.
    /// After `NothingDone`, out of memory, the plane is as before. What is read of DAGs, tasks, runs and instances shows nothing of a DAG,
    /// or of runs, that the user may not read: status and body are those on every state that the user can't tell from this one (`blind`).
    pub fn apply(
        &mut self,
        alloc: Global,
        board: &Board,
        mark: &Mark,
        request: &Request<'_>,
    ) -> Option<Served>
        requires mark { IsOf board.now mark.now }
        requires looked { mark.now.version ≡ self.old.ledger.version }
        ensures stays { HasStayed self.old self.new }
        ensures applied { Applies (policy_of board.now mark.now) self.old.ledger request.now.token request.now.call request.now.at result self.new.ledger }
        ensures blind { TellsWhatIsRead (policy_of board.now mark.now) self.old.ledger request.now.token request.now.call request.now.at result }
    {
        self.decide(alloc, board.policy(mark), request)
    }

    /// Decides under a policy.
    #[tactic(auto, using(crate::proofs::VersionLemmas::may_version, crate::proofs::VersionLemmas::may_one))]
    fn decide(&mut self, alloc: Global, policy: &Policy, request: &Request<'_>) -> Option<Served>
        ensures stays { HasStayed self.old self.new }
        ensures applied { Applies policy.now self.old.ledger request.now.token request.now.call request.now.at result self.new.ledger }
    {
        match request.call {
            Call::State(op) => {
                let served = self
                    .ledger
                    .answer(alloc, policy, request.token, op, request.at);
                record(&mut self.keeper, &self.ledger);
                Some(served)
            }
            Call::Entries(asked) => {
                Some(self.ledger.entries(alloc, policy, request.token, asked))
            }
            Call::Policy(_) => None,
        }
    }

    /// Ticks at a moment, and returns whether that changed the state; then there is one entry, of the scheduler. `HistoryFull` if there is no
    /// room for it; `OutOfMemory`. After an error the plane is as before.
    #[tactic(auto, using(crate::proofs::VersionLemmas::ticked_version, crate::proofs::VersionLemmas::ticked_one))]
    pub fn tick(&mut self, alloc: Global, at: Instant) -> Result<bool, AuditFault>
        ensures stays { HasStayed self.old self.new }
        ensures ticked { IsTicked at self.old.ledger self.new.ledger result }
        ensures step { TickIs self.old.ledger at result self.new.ledger }
    {
        let told = self.ledger.tick(alloc, at);
        record(&mut self.keeper, &self.ledger);
        told
    }

    /// Claims the first queued instance at a moment, if there is one; then there is one entry, of an executor, that names it. `HistoryFull`
    /// if there is no room for it; `OutOfMemory`. After an error the plane is as before.
    #[tactic(auto, using(crate::proofs::VersionLemmas::claimed_version, crate::proofs::VersionLemmas::claimed_one))]
    pub fn claim(&mut self, alloc: Global, at: Instant) -> Result<Option<Claim>, AuditFault>
        ensures stays { HasStayed self.old self.new }
        ensures claimed { IsClaimed at self.old.ledger self.new.ledger result }
        ensures step { ClaimIs self.old.ledger at result self.new.ledger }
    {
        let told = self.ledger.claim(alloc, at);
        record(&mut self.keeper, &self.ledger);
        told
    }

    /// Takes the outcome of a claimed try at a moment; then there is one entry, of an executor. The report's own errors come first, then a
    /// full history, then out of memory. After an error the plane is as before.
    #[tactic(auto, using(crate::proofs::VersionLemmas::reported_version, crate::proofs::VersionLemmas::reported_one))]
    pub fn report(
        &mut self,
        alloc: Global,
        claim: &Claim,
        outcome: Outcome,
        at: Instant,
    ) -> Result<(), ReportRefusal>
        ensures stays { HasStayed self.old self.new }
        ensures reported { IsReported at claim.now outcome self.old.ledger self.new.ledger result }
        ensures step { ReportIs self.old.ledger claim.now outcome at result self.new.ledger }
    {
        let told = self.ledger.report(alloc, claim, outcome, at);
        record(&mut self.keeper, &self.ledger);
        told
    }
}

/// Records the entry that a ledger has more than its keeper, if there is one.
fn record(keeper: &mut Keeper<Entry>, ledger: &Ledger)
    requires { IsOneMore keeper.old.entries ledger.now.audit.entries }
    ensures keeper { keeper.new.keeper ≡ keeper.old.keeper }
    ensures entries { keeper.new.entries ≡ ledger.now.audit.entries }
{
    ledger.conditions();
    let audit = ledger.audit();
    let _limit = audit.limit();
    if let Some(entry) = audit.entries().get(keeper.count() as usize) {
        keeper.record(entry);
    }
}
