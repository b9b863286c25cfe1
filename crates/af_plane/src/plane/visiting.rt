ghost use Rattle.std.specs.Prelude.{◌≡◌};
ghost use Rattle.af_audit.specs.Claimed.{IsClaimed};
ghost use Rattle.af_audit.specs.Reported.{IsReported};
ghost use Rattle.af_audit.specs.Ticked.{IsTicked};
ghost use Rattle.af_plane.specs.Closings.{HasTakenIn, IsWithin};
ghost use Rattle.af_plane.specs.Looks.{AreOver, HasVisited};
ghost use Rattle.af_plane.specs.Planes.{ClaimIs, ReportIs, TickIs};

use crate::ended_session::EndedSession;
use crate::plane::Plane;
use crate::session::Session;
use af_audit::{AuditFault, ReportRefusal};
use af_board::Board;
use af_names::Instant;
use af_sched::{Claim, Outcome};
use std::alloc::Global;
use std::mem;

impl Plane {
    /// Ticks at a moment, while a session visits.
    pub fn tick_with(
        &mut self,
        alloc: Global,
        board: &Board,
        session: &mut Session,
        at: Instant,
    ) -> Result<bool, AuditFault>
        requires { AreOver board.now self.old.keeper.keeper self.old session.old }
        ensures visited { HasVisited board.now self.old.keeper.keeper self.old session.old self.new session.new }
        ensures ticked { IsTicked at self.old.ledger self.new.ledger result }
        ensures step { TickIs self.old.ledger at result self.new.ledger }
    {
        self.meet(board, session);
        let told = self.tick(alloc, at);
        session.witness = self.keeper.give();
        told
    }

    /// Claims the first queued instance at a moment, while a session visits.
    pub fn claim_with(
        &mut self,
        alloc: Global,
        board: &Board,
        session: &mut Session,
        at: Instant,
    ) -> Result<Option<Claim>, AuditFault>
        requires { AreOver board.now self.old.keeper.keeper self.old session.old }
        ensures visited { HasVisited board.now self.old.keeper.keeper self.old session.old self.new session.new }
        ensures claimed { IsClaimed at self.old.ledger self.new.ledger result }
        ensures step { ClaimIs self.old.ledger at result self.new.ledger }
    {
        self.meet(board, session);
        let told = self.claim(alloc, at);
        session.witness = self.keeper.give();
        told
    }

    /// Takes the outcome of a claimed try at a moment, while a session visits.
    pub fn report_with(
        &mut self,
        alloc: Global,
        board: &Board,
        session: &mut Session,
        claim: &Claim,
        outcome: Outcome,
        at: Instant,
    ) -> Result<(), ReportRefusal>
        requires { AreOver board.now self.old.keeper.keeper self.old session.old }
        ensures visited { HasVisited board.now self.old.keeper.keeper self.old session.old self.new session.new }
        ensures reported { IsReported at claim.now outcome self.old.ledger self.new.ledger result }
        ensures step { ReportIs self.old.ledger claim.now outcome at result self.new.ledger }
    {
        self.meet(board, session);
        let told = self.report(alloc, claim, outcome, at);
        session.witness = self.keeper.give();
        told
    }

    /// The session's pass meets the plane's, and the session is shown all entries.
    fn meet(&mut self, board: &Board, session: &mut Session)
        requires { AreOver board.now self.old.keeper.keeper self.old session.old }
        ensures visited { HasVisited board.now self.old.keeper.keeper self.old session.old self.new session.new }
        ensures same { (self.new.ledger ≡ self.old.ledger) × (self.new.keeper ≡ self.old.keeper) }
    {
        let pass = mem::replace(&mut session.pass, board.split(&mut self.pass));
        board.meet(&mut self.pass, pass);
        self.keeper.meet(&mut session.witness);
        session.pass = board.split(&mut self.pass);
    }
    /// Takes in a session that is over. What it had seen, of the versions and of the entries, begins what the plane has then seen.
    #[tactic(auto, using(af_prefixes::proofs::PrefixLemmas::prefix_trans))]
    pub fn take_in(&mut self, board: &Board, session: &mut EndedSession)
        requires plane { self.old.pass.word ≡ board.now.word }
        requires word { session.old.visit.pass.word ≡ board.now.word }
        requires keeper { session.old.visit.entries.keeper ≡ self.old.keeper.keeper }
        ensures same { session.new ≡ session.old }
        ensures within { IsWithin self.new session.old.visit }
        ensures taken { HasTakenIn self.old self.new }
    {
        let pass = board.split(&mut session.pass);
        board.meet(&mut self.pass, pass);
        self.keeper.meet(&mut session.witness);
    }
}
