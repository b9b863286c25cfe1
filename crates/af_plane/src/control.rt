ghost use Rattle.std.specs.Prelude.{◌≡◌, true, OnOk, drop};
ghost use Rattle.std.specs.Option.{option_copied};
ghost use Rattle.af_ops.specs.declared.policy_op.PolicyOp.TheVariants as asks;
ghost use Rattle.af_audit.specs.Claimed.{IsClaimed};
ghost use Rattle.af_audit.specs.Reported.{IsReported};
ghost use Rattle.af_audit.specs.Ticked.{IsTicked};
ghost use Rattle.af_plane.specs.Administered.{HasAsked};
ghost use Rattle.af_plane.specs.Handings.{TakesEach, WasShown};
ghost use Rattle.af_plane.specs.Logs.{HasAskedOnce, HasCalled, HasClaimed, HasReported, HasTicked, new_session};
ghost use Rattle.af_plane.specs.Looks.{held};
ghost use Rattle.af_plane.specs.Names.{IsCall, IsDone, IsOfName};
ghost use Rattle.af_plane.specs.Planes.{ClaimIs, ReportIs, TickIs};
ghost use Rattle.af_plane.specs.Requests.{only_reads};
ghost use Rattle.af_plane.specs.Solos.{first_mark};
ghost use Rattle.af_plane.specs.Turns.{IsOfPlane};

use crate::closed::Closed;
use crate::control_session::{ControlSession, Locked};
use crate::entry_taker::EntryTaker;
use crate::named::Named;
use crate::parts::Parts;
use crate::request::Request;
use crate::session_issuer::SessionIssuer;
use crate::session_permit::SessionPermit;
use af_audit::{AuditFault, ReportRefusal};
use af_board::Board;
use af_names::Instant;
use af_ops::Served;
use af_policy::{Ask, ChangeKind, PolicyRead, Presented};
use af_sched::{Claim, Outcome};
use std::alloc::Global;
use std::hint::spin_loop;
use std::sync::atomic::AtomicU64;
use std::sync::{RwLock, RwLockReadGuard, RwLockWriteGuard, Wait};
use std::time::Duration;

/// How often a thread tries to take the lock before it waits in line for it.
const TRIES: u32 = 1_000;

/// After how many of these tries it stays awake.
const AWAKE: u32 = 300;

/// For how many pauses of the processor it then waits.
const PAUSES: u32 = 8;

/// For how many nanoseconds it sleeps after each of the others. The system makes some fifty microseconds of it.
const NAP: u64 = 1_000;

/// A board, and a plane behind a lock, which threads share, each with a session of its own. Calls that only read (`Request::only_reads`) may
/// have the lock together. All else that takes it has it alone.
pub struct Control<N: Named> {
    board: Board,
    locked: RwLock<Locked<N>>,
    naps: AtomicU64,
    ghost board_is: { board ≡ N.name.site },
}

impl<N: Named> Drop for Control<N> {
    fn drop(self) {
        let Control {
            board: _,
            locked: _,
            naps: _,
        } = self;
    }
}

impl<N: Named> Control<N> {
    /// A control of these parts, which the name means, and the issuer of permits for its sessions. It takes no memory.
    pub fn of(parts: Parts) -> (Control<N>, SessionIssuer<N>)
        requires board { parts.board ≡ N.name.site }
        requires plane { IsOfName N.name parts.plane }
    {
        let (issuer, board, plane) = SessionIssuer::of(parts);
        let control = Control {
            board,
            locked: RwLock::new(Locked::of(plane)),
            naps: AtomicU64::new(0),
        };
        (control, issuer)
    }

    /// What the control had, when no thread shares it any more.
    pub fn close(self) -> Closed<N> {
        let Control {
            board,
            locked,
            naps: _,
        } = self;
        Closed::of(board, locked.into_inner())
    }

    /// The plane alone, when no other thread has it.
    fn plane(&self, rt: &impl Wait) -> RwLockWriteGuard<'_, Locked<N>> {
        for tries in 0..TRIES {
            if let Some(plane) = self.locked.try_write() {
                return plane;
            }
            self.wait_a_little(rt, tries);
        }
        self.locked.write(rt)
    }

    /// The plane together with other calls that only read, when no thread has it alone.
    fn shared(&self, rt: &impl Wait) -> RwLockReadGuard<'_, Locked<N>> {
        for tries in 0..TRIES {
            if let Some(plane) = self.locked.try_read() {
                return plane;
            }
            self.wait_a_little(rt, tries);
        }
        self.locked.read(rt)
    }

    /// What a thread does after so many tries for the lock. A turn takes less time than the system takes to wake a thread, so at first it stays
    /// awake for about as long as some turns take. Then it sleeps for a moment: who has the lock may be waiting for a processor. It does not
    /// yield, since a system may let a thread that yields wait for some milliseconds. Nobody wakes it.
    fn wait_a_little(&self, rt: &impl Wait, tries: u32) {
        if tries < AWAKE {
            for _ in 0..PAUSES {
                spin_loop();
            }
        } else {
            self.naps.park_timeout(rt, 0, Duration::from_nanos(NAP));
        }
    }

    /// The versions of the policy. They are read and made without the plane's lock.
    pub fn board(&self) -> &Board
        ensures { result.now ≡ N.name.site }
    {
        &self.board
    }

    /// A session that is opened with a permit. It has done nothing yet, and holds the mark of version 0.
    pub fn session(&self, rt: &impl Wait, permit: SessionPermit<N>) -> ControlSession<N>
        ensures mark { held result.visit.grounds ≡ first_mark }
        ensures new { result ≡ new_session result.visit }
    {
        self.plane(rt).session(&self.board, permit)
    }

    /// Answers a call on the state, or for event logs, by one turn on the plane. It does nothing else: the session then has this call, with
    /// this answer, and no more. A call that only reads (`Request::only_reads`) shares the lock with others of its kind. It has a turn alone if
    /// its session finds another version than the one at which the plane looked last. So it does if the policy of the last version is not to be
    /// had, or if the entries could not be shown (`Keeper::show`). All other calls have the lock alone, `GET /version` and dry runs among them.
    pub fn call(
        &self,
        rt: &impl Wait,
        alloc: Global,
        session: &mut ControlSession<N>,
        request: &Request<'_>,
    ) -> Served
        requires { IsOfPlane request.now.call }
        ensures call { IsCall N.name request.now session.old.visit result session.new.visit }
        ensures once { HasCalled session.old request.now.call request.now.at result session.new }
    {
        if request.only_reads() {
            self.read_call(rt, alloc, session, request)
        } else {
            self.alone(rt, alloc, session, request)
        }
    }

    /// Answers a call that only reads: beside others, or by a turn alone.
    fn read_call(
        &self,
        rt: &impl Wait,
        alloc: Global,
        session: &mut ControlSession<N>,
        request: &Request<'_>,
    ) -> Served
        requires { only_reads request.now.call ≡ true }
        ensures call { IsCall N.name request.now session.old.visit result session.new.visit }
        ensures once { HasCalled session.old request.now.call request.now.at result session.new }
    {
        let read = self.shared(rt).read(alloc, &self.board, session, request);
        match read {
            Some(served) => served,
            None => self.alone(rt, alloc, session, request),
        }
    }

    /// Answers a call by a turn on the plane alone.
    fn alone(
        &self,
        rt: &impl Wait,
        alloc: Global,
        session: &mut ControlSession<N>,
        request: &Request<'_>,
    ) -> Served
        requires { IsOfPlane request.now.call }
        ensures call { IsCall N.name request.now session.old.visit result session.new.visit }
        ensures once { HasCalled session.old request.now.call request.now.at result session.new }
    {
        self.plane(rt).turn(alloc, &self.board, session, request)
    }

    /// Reports who the token's owner is, on the board. It waits for nobody, and is no turn.
    pub fn me(
        &self,
        alloc: Global,
        session: &mut ControlSession<N>,
        token: Option<&Presented<'_>>,
    ) -> Served
        ensures asked { HasAsked N.name.site (option_copied token.entry) asks.Me session.old.visit result session.new.visit }
        ensures once { HasAskedOnce session.old asks.Me result session.new }
    {
        session.me(alloc, &self.board, token)
    }

    /// Reports roles or users, on the board. It waits for nobody, and is no turn.
    pub fn read(
        &self,
        alloc: Global,
        session: &mut ControlSession<N>,
        token: Option<&Presented<'_>>,
        asked: &PolicyRead,
    ) -> Served
        ensures asked { HasAsked N.name.site (option_copied token.entry) (asks.Read asked.now) session.old.visit result session.new.visit }
        ensures once { HasAskedOnce session.old (asks.Read asked.now) result session.new }
    {
        session.read(alloc, &self.board, token, asked)
    }

    /// Reports why a change of this kind, whose body was not read, makes no version. It waits for nobody, and is no turn.
    pub fn unread(
        &self,
        alloc: Global,
        session: &mut ControlSession<N>,
        token: Option<&Presented<'_>>,
        kind: ChangeKind,
    ) -> Served
        ensures asked { HasAsked N.name.site (option_copied token.entry) (asks.Unread kind) session.old.visit result session.new.visit }
        ensures once { HasAskedOnce session.old (asks.Unread kind) result session.new }
    {
        session.unread(alloc, &self.board, token, kind)
    }

    /// Makes the next version of the policy by a change, or reports why there is none, on the board. It is no turn. It may wait for another
    /// thread that grows the board's table.
    pub fn submit<R: Wait>(
        &self,
        rt: &R,
        alloc: Global,
        session: &mut ControlSession<N>,
        token: Option<&Presented<'_>>,
        ask: &Ask,
    ) -> Served
        ensures asked { HasAsked N.name.site (option_copied token.entry) (asks.Change ask.now) session.old.visit result session.new.visit }
        ensures once { HasAskedOnce session.old (asks.Change ask.now) result session.new }
    {
        session.submit(rt, alloc, &self.board, token, ask)
    }

    /// Shows a session all entries, and hands those after the first `count` to a taker, in order, until it refuses one. The taker works while the
    /// lock is shared with calls that only read, or while the session has it alone. The session does nothing else.
    pub fn show_entries<T: EntryTaker>(
        &self,
        rt: &impl Wait,
        session: &mut ControlSession<N>,
        count: u32,
        taker: &mut T,
    ) -> Result<(), T::Refusal>
        ensures shown { WasShown session.old session.new }
        ensures handed { OnOk result (TakesEach T.takes (drop count session.new.visit.entries.entries) taker.old taker.new) }
    {
        let told = self.shared(rt).show_entries(session, count, taker);
        match told {
            Some(told) => told,
            None => self.plane(rt).show_alone(session, count, taker),
        }
    }

    /// Ticks at a moment, and returns whether that changed the state; then there is one entry, of the scheduler. `HistoryFull` where there is
    /// no room for it; `OutOfMemory`.
    pub fn tick(
        &self,
        rt: &impl Wait,
        alloc: Global,
        session: &mut ControlSession<N>,
        at: Instant,
    ) -> Result<bool, AuditFault>
        ensures done { IsDone N.name session.old.visit session.new.visit (λ old new. IsTicked at old new result × TickIs old at result new) }
        ensures once { HasTicked session.old at result session.new }
    {
        self.plane(rt).tick(alloc, &self.board, session, at)
    }

    /// Claims the first queued instance at a moment, if there is one; then there is one entry, of an executor. `HistoryFull` where there is no
    /// room for it; `OutOfMemory`.
    pub fn claim(
        &self,
        rt: &impl Wait,
        alloc: Global,
        session: &mut ControlSession<N>,
        at: Instant,
    ) -> Result<Option<Claim>, AuditFault>
        ensures done { IsDone N.name session.old.visit session.new.visit (λ old new. IsClaimed at old new result × ClaimIs old at result new) }
        ensures once { HasClaimed session.old at result session.new }
    {
        self.plane(rt).claim(alloc, &self.board, session, at)
    }

    /// Takes the outcome of a claimed try at a moment; then there is one entry, of an executor. The report's own faults come first, then a
    /// full history, then out of memory.
    pub fn report(
        &self,
        rt: &impl Wait,
        alloc: Global,
        session: &mut ControlSession<N>,
        claim: &Claim,
        outcome: Outcome,
        at: Instant,
    ) -> Result<(), ReportRefusal>
        ensures done { IsDone N.name session.old.visit session.new.visit (λ old new. IsReported at claim.now outcome old new result × ReportIs old claim.now outcome at result new) }
        ensures once { HasReported session.old claim.now outcome at result session.new }
    {
        self.plane(rt)
            .report(alloc, &self.board, session, claim, outcome, at)
    }
}
