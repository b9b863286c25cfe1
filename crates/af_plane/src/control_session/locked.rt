ghost use Rattle.std.specs.Prelude.{◌≡◌, true, IfNone, IfSome, OnOk, drop};
ghost use Rattle.af_audit.specs.Claimed.{IsClaimed};
ghost use Rattle.af_audit.specs.Reported.{IsReported};
ghost use Rattle.af_audit.specs.Ticked.{IsTicked};
ghost use Rattle.af_plane.specs.Closings.{HasTakenIn, IsOfControl, IsWithin};
ghost use Rattle.af_plane.specs.Handings.{TakesEach, WasShown};
ghost use Rattle.af_plane.specs.Logs.{HasCalled, HasClaimed, HasDoneNothing, HasReported, HasTicked, new_session};
ghost use Rattle.af_plane.specs.Looks.{HasOnlyLooked, held};
ghost use Rattle.af_plane.specs.Names.{IsCall, IsDoneOn, IsNamed, IsOfName};
ghost use Rattle.af_plane.specs.Planes.{ClaimIs, ReportIs, TickIs};
ghost use Rattle.af_plane.specs.Requests.{only_reads};
ghost use Rattle.af_plane.specs.Solos.{first_mark};
ghost use Rattle.af_plane.specs.Turns.{IsOfPlane};

use crate::control_session::ControlSession;
use crate::ended_session::EndedSession;
use crate::entry_taker::EntryTaker;
use crate::named::Named;
use crate::plane::Plane;
use crate::request::Request;
use crate::session_permit::SessionPermit;
use af_audit::{AuditFault, Entry, ReportRefusal};
use af_board::Board;
use af_names::Instant;
use af_ops::Served;
use af_sched::{Claim, Outcome};
use std::alloc::Global;
use std::marker::PhantomData;

/// The plane that a name means, as it lies behind a lock.
pub(crate) struct Locked<N: Named> {
    plane: Plane,
    of: PhantomData<N>,
    ghost whose: { IsOfName N.name plane },
}

impl<N: Named> Drop for Locked<N> {
    fn drop(self) {
        let Locked { plane: _, of: _ } = self;
    }
}

impl<N: Named> Locked<N> {
    /// The plane that the name means.
    pub(crate) fn of(plane: Plane) -> Locked<N>
        requires { IsOfName N.name plane }
    {
        Locked {
            plane,
            of: PhantomData,
        }
    }

    /// One turn of a session.
    pub(crate) fn turn(
        &mut self,
        alloc: Global,
        board: &Board,
        session: &mut ControlSession<N>,
        request: &Request<'_>,
    ) -> Served
        requires board { board.now ≡ N.name.site }
        requires call { IsOfPlane request.now.call }
        ensures once { HasCalled session.old request.now.call request.now.at result session.new }
        ensures call { (it : IsCall N.name request.now session.old.visit result session.new.visit) × (it.old ≡ self.old.plane) × (it.new ≡ self.new.plane) }
    {
        self.plane.conditions();
        let turn = self.plane.turn(alloc, board, &mut session.session, request);
        self.plane.conditions();
        let Some(served) = turn else { unreachable!() };
        session.log.calls = session.log.calls.and(request.call, &served);
        session.log.times = session.log.times.and(&request.at, &served);
        served
    }

    /// One turn of a session, for a call that only reads. It borrows the plane as shared and changes nothing of it, so that other sessions may
    /// do so at the same time. None if it has to be a turn on the plane alone: then the session has looked, and nothing else is done.
    pub(crate) fn read(
        &self,
        alloc: Global,
        board: &Board,
        session: &mut ControlSession<N>,
        request: &Request<'_>,
    ) -> Option<Served>
        requires board { board.now ≡ N.name.site }
        requires reads { only_reads request.now.call ≡ true }
        ensures once { IfSome result (λ gave. HasCalled session.old request.now.call request.now.at gave session.new) }
        ensures call { IfSome result (λ gave. (it : IsCall N.name request.now session.old.visit gave session.new.visit) × (it.old ≡ self.now.plane) × (it.new ≡ self.now.plane)) }
        ensures none { IfNone result (HasOnlyLooked session.old.visit session.new.visit × HasDoneNothing session.old session.new) }
    {
        self.plane.conditions();
        let read = self.plane.read(alloc, board, &mut session.session, request);
        let Some(served) = read else {
            return None;
        };
        session.log.calls = session.log.calls.and(request.call, &served);
        session.log.times = session.log.times.and(&request.at, &served);
        Some(served)
    }

    /// A tick, while a session visits.
    pub(crate) fn tick(
        &mut self,
        alloc: Global,
        board: &Board,
        session: &mut ControlSession<N>,
        at: Instant,
    ) -> Result<bool, AuditFault>
        requires { board.now ≡ N.name.site }
        ensures done { IsDoneOn N.name self.old.plane self.new.plane session.old.visit session.new.visit (λ old new. IsTicked at old new result × TickIs old at result new) }
        ensures once { HasTicked session.old at result session.new }
    {
        self.plane.conditions();
        let told = self.plane.tick_with(alloc, board, &mut session.session, at);
        self.plane.conditions();
        session.log.ticks = session.log.ticks.and(&at, &told);
        told
    }

    /// A claim, while a session visits.
    pub(crate) fn claim(
        &mut self,
        alloc: Global,
        board: &Board,
        session: &mut ControlSession<N>,
        at: Instant,
    ) -> Result<Option<Claim>, AuditFault>
        requires { board.now ≡ N.name.site }
        ensures done { IsDoneOn N.name self.old.plane self.new.plane session.old.visit session.new.visit (λ old new. IsClaimed at old new result × ClaimIs old at result new) }
        ensures once { HasClaimed session.old at result session.new }
    {
        self.plane.conditions();
        let told = self
            .plane
            .claim_with(alloc, board, &mut session.session, at);
        self.plane.conditions();
        session.log.claims = session.log.claims.and(&at, &told);
        told
    }

    /// A report, while a session visits.
    pub(crate) fn report(
        &mut self,
        alloc: Global,
        board: &Board,
        session: &mut ControlSession<N>,
        claim: &Claim,
        outcome: Outcome,
        at: Instant,
    ) -> Result<(), ReportRefusal>
        requires { board.now ≡ N.name.site }
        ensures done { IsDoneOn N.name self.old.plane self.new.plane session.old.visit session.new.visit (λ old new. IsReported at claim.now outcome old new result × ReportIs old claim.now outcome at result new) }
        ensures once { HasReported session.old claim.now outcome at result session.new }
    {
        self.plane.conditions();
        let told = self
            .plane
            .report_with(alloc, board, &mut session.session, claim, outcome, at);
        self.plane.conditions();
        session.log.reports = session.log.reports.and(claim, &told);
        session.log.outcomes = session.log.outcomes.and(&outcome, &at);
        told
    }

    /// Shows a session all entries, and hands those after the first `count` to a taker, in order. It borrows the plane as shared. None if the
    /// entries could not be shown (`Keeper::show`): then nothing is done.
    pub(crate) fn show_entries<T: EntryTaker>(
        &self,
        session: &mut ControlSession<N>,
        count: u32,
        taker: &mut T,
    ) -> Option<Result<(), T::Refusal>>
        ensures shown { IfSome result (λ _. WasShown session.old session.new) }
        ensures handed { IfSome result (λ told. OnOk told (TakesEach T.takes (drop count session.new.visit.entries.entries) taker.old taker.new)) }
        ensures none { IfNone result ((session.new ≡ session.old) × (taker.new ≡ taker.old)) }
    {
        if !self.plane.keeper.show(&mut session.session.witness) {
            return None;
        }
        Some(self.hand(session, count, taker))
    }

    /// The same by a turn alone, where they can always be shown.
    pub(crate) fn show_alone<T: EntryTaker>(
        &mut self,
        session: &mut ControlSession<N>,
        count: u32,
        taker: &mut T,
    ) -> Result<(), T::Refusal>
        ensures plane { self.new.plane ≡ self.old.plane }
        ensures shown { WasShown session.old session.new }
        ensures handed { OnOk result (TakesEach T.takes (drop count session.new.visit.entries.entries) taker.old taker.new) }
    {
        self.plane.keeper.meet(&mut session.session.witness);
        self.hand(session, count, taker)
    }

    /// Hands the entries after the first `count` to a taker, in order. The session has seen all.
    fn hand<T: EntryTaker>(
        &self,
        session: &ControlSession<N>,
        count: u32,
        taker: &mut T,
    ) -> Result<(), T::Refusal>
        requires { session.now.visit.entries ≡ self.now.plane.keeper }
        ensures { OnOk result (TakesEach T.takes (drop count session.now.visit.entries.entries) taker.old taker.new) }
    {
        let _ = session;
        self.plane.conditions();
        let entries = self.plane.ledger().audit().entries();
        let Some(entries) = entries.get(count as usize..) else {
            return Ok(());
        };
        hand_each(entries, taker)
    }

    /// A session that is opened with a permit. It has done nothing yet, and holds the mark of version 0.
    pub(crate) fn session(&mut self, board: &Board, permit: SessionPermit<N>) -> ControlSession<N>
        requires { board.now ≡ N.name.site }
        ensures plane { self.new.plane.ledger ≡ self.old.plane.ledger }
        ensures mark { held result.visit.grounds ≡ first_mark }
        ensures new { result ≡ new_session result.visit }
    {
        ControlSession::open(self.plane.session(board), permit)
    }
    /// Takes in a session that is over.
    pub(crate) fn take_in(&mut self, board: &Board, session: &mut EndedSession)
        requires board { board.now ≡ N.name.site }
        requires of { IsOfControl N.name session.old }
        ensures same { session.new ≡ session.old }
        ensures within { IsWithin self.new.plane session.old.visit }
        ensures taken { HasTakenIn self.old.plane self.new.plane }
    {
        self.plane.take_in(board, session);
    }

    /// The plane alone.
    pub(crate) fn into_plane(self) -> Plane
        ensures plane { result ≡ self.plane }
        ensures named { IsNamed N.name result }
    {
        let Locked { plane, of: _ } = self;
        plane.conditions();
        plane
    }
}

/// Hands entries to a taker, in order, until it refuses one.
fn hand_each<T: EntryTaker>(entries: &[Entry], taker: &mut T) -> Result<(), T::Refusal>
    ensures { OnOk result (TakesEach T.takes entries.now taker.old taker.new) }
{
    for entry in entries {
        taker.take(entry)?;
    }
    Ok(())
}
