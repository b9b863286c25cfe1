ghost use Rattle.std.specs.Prelude.{◌≡◌, ◌+◌, length};
ghost use Rattle.std.specs.Option.{option_copied};
ghost use Rattle.af_ops.specs.declared.policy_op.PolicyOp.TheVariants as asks;
ghost use Rattle.af_plane.specs.Administered.{HasAsked};
ghost use Rattle.af_plane.specs.Logs.{HasAskedOnce, new_session, rows_of};
ghost use Rattle.af_plane.specs.Closings.{IsOfControl};
ghost use Rattle.af_plane.specs.Looks.{IsOn};

use crate::ended_session::EndedSession;
use crate::grounds::Grounds;
use crate::named::Named;
use crate::session::Session;
use crate::session_log::SessionLog;
use crate::session_permit::SessionPermit;
use af_audit::{AuditFault, ReportRefusal};
use af_board::Board;
use af_names::Instant;
use af_ops::{Call, Served};
use af_policy::{Ask, ChangeKind, PolicyRead, Presented};
use af_sched::{Claim, Outcome};
use http_server::Log;
use std::alloc::Global;
use std::marker::{Model, PhantomData};
use std::sync::Wait;

mod locked;

pub(crate) use locked::Locked;

/// A session of one control. Contracts see what it holds, and all that it has done there. What it has done takes no memory: it is known in
/// proofs alone.
pub struct ControlSession<N: Named> {
    session: Session,
    log: SessionLog,
    of: PhantomData<N>,
}

impl<N: Named> Drop for ControlSession<N> {
    fn drop(self) {
        let ControlSession {
            session: _,
            log: _,
            of: _,
        } = self;
    }
}

impl<N: Named> Model for ControlSession<N> {
    ghost use Rattle.std.specs.Prelude.{◌≡◌};
    ghost use Rattle.af_plane.specs.Logs.{rows_of};
    ghost use Rattle.af_plane.specs.Looks.{IsOn};
    ghost use Rattle.af_plane.specs.Visits.{SessionRows};

    ghost Value = { SessionRows };

    ghost view = { λ v. rows_of v.session v.log };

    ghost invariant = { λ v. IsOn N.name.site v.session × (v.session.entries.keeper ≡ N.name.keeper) };
}

impl<N: Named> ControlSession<N> {
    /// A session that is opened with a permit. It has done nothing yet.
    fn open(session: Session, _permit: SessionPermit<N>) -> ControlSession<N>
        requires on { IsOn N.name.site session }
        requires keeper { session.entries.keeper ≡ N.name.keeper }
        ensures { result ≡ new_session session }
    {
        ControlSession {
            session,
            log: SessionLog {
                calls: Log::new(),
                times: Log::new(),
                ticks: Log::new(),
                claims: Log::new(),
                reports: Log::new(),
                outcomes: Log::new(),
                mes: Log::new(),
                reads: Log::new(),
                changes: Log::new(),
                unreads: Log::new(),
            },
            of: PhantomData,
        }
    }

    /// The session, when it is over.
    pub fn end(self) -> EndedSession
        ensures rows { result ≡ self }
        ensures of { IsOfControl N.name self }
    {
        EndedSession::of(self)
    }

    /// All that it has done so far.
    pub fn log(&self) -> &SessionLog
        ensures { rows_of self.now.visit result.now ≡ self.now }
    {
        &self.log
    }

    /// What it holds of its last answer that was decided under a version.
    pub fn grounds(&self) -> &Grounds
        ensures { result.now ≡ self.now.visit.grounds }
    {
        self.session.grounds()
    }

    /// What it holds at its end, and all that it has done.
    pub(crate) fn into_parts(self) -> (Session, SessionLog)
        ensures rows { rows_of result.0 result.1 ≡ self }
        ensures on { IsOn N.name.site result.0 }
        ensures keeper { result.0.entries.keeper ≡ N.name.keeper }
    {
        let ControlSession {
            session,
            log,
            of: _,
        } = self;
        (session, log)
    }

    /// The last version that it has seen, and how many entries it has seen.
    pub fn seen(&self) -> (u32, u32)
        ensures version { length self.now.visit.pass.places ≡ result.0 + 1 }
        ensures entries { length self.now.visit.entries.entries ≡ result.1 }
    {
        self.session.seen()
    }

    /// Reports who the token's owner is, on the board.
    pub(crate) fn me(
        &mut self,
        alloc: Global,
        board: &Board,
        token: Option<&Presented<'_>>,
    ) -> Served
        requires { board.now ≡ N.name.site }
        ensures asked { HasAsked N.name.site (option_copied token.entry) asks.Me self.old.visit result self.new.visit }
        ensures once { HasAskedOnce self.old asks.Me result self.new }
    {
        let served = self.session.me(alloc, board, token);
        self.log.mes = self.log.mes.and(&(), &served);
        served
    }

    /// Reports roles or users, on the board.
    pub(crate) fn read(
        &mut self,
        alloc: Global,
        board: &Board,
        token: Option<&Presented<'_>>,
        asked: &PolicyRead,
    ) -> Served
        requires { board.now ≡ N.name.site }
        ensures asked { HasAsked N.name.site (option_copied token.entry) (asks.Read asked.now) self.old.visit result self.new.visit }
        ensures once { HasAskedOnce self.old (asks.Read asked.now) result self.new }
    {
        let served = self.session.read(alloc, board, token, asked);
        self.log.reads = self.log.reads.and(asked, &served);
        served
    }

    /// Reports why a change of this kind, whose body was not read, makes no version.
    pub(crate) fn unread(
        &mut self,
        alloc: Global,
        board: &Board,
        token: Option<&Presented<'_>>,
        kind: ChangeKind,
    ) -> Served
        requires { board.now ≡ N.name.site }
        ensures asked { HasAsked N.name.site (option_copied token.entry) (asks.Unread kind) self.old.visit result self.new.visit }
        ensures once { HasAskedOnce self.old (asks.Unread kind) result self.new }
    {
        let served = self.session.unread(alloc, board, token, kind);
        self.log.unreads = self.log.unreads.and(&kind, &served);
        served
    }

    /// Makes the next version of the policy by a change, or reports why there is none, on the board.
    pub(crate) fn submit<R: Wait>(
        &mut self,
        rt: &R,
        alloc: Global,
        board: &Board,
        token: Option<&Presented<'_>>,
        ask: &Ask,
    ) -> Served
        requires { board.now ≡ N.name.site }
        ensures asked { HasAsked N.name.site (option_copied token.entry) (asks.Change ask.now) self.old.visit result self.new.visit }
        ensures once { HasAskedOnce self.old (asks.Change ask.now) result self.new }
    {
        let served = self.session.submit(rt, alloc, board, token, ask);
        self.log.changes = self.log.changes.and(ask, &served);
        served
    }
}
