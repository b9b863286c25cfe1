ghost use Rattle.std.specs.Prelude.{◌≡◌, [], MatchBool, MatchOption, Ok, Some};
ghost use Rattle.af_plane.specs.Closings.{IsOfControl};
ghost use Rattle.af_server.specs.Rounds.{Claims, HasStopped, HasTried, HasWaited, HasWorked, IsRound, Reports};
ghost use Rattle.af_server.specs.Workers.{IsNew};

use crate::host::Stop;
use crate::machine::Machine;
use af_audit::AuditFault;
use af_plane::{Control, ControlSession, EndedSession, Named, SessionPermit};
use af_sched::{Claim, Executor, Outcome, Scripted};
use std::alloc::Global;
use std::marker::Model;
use std::sync::Wait;
use std::time::Duration;

/// The scheduler's thread, with a session of its own: it ticks, and then runs what is queued by scripts. Contracts see the session.
#[derive(Drop)]
pub struct Ticker<'a, N: Named, R: Wait + Machine> {
    rt: &'a R,
    alloc: Global,
    control: &'a Control<N>,
    session: ControlSession<N>,
}

impl<'a, N: Named, R: Wait + Machine> Model for Ticker<'a, N, R> {
    ghost use Rattle.af_plane.specs.Visits.{SessionRows};

    ghost Value = { SessionRows };

    ghost view = { λ ticker. ticker.session };
}

impl<'a, N: Named, R: Wait + Machine> Ticker<'a, N, R> {
    /// A scheduler of what threads share, with the one session that its permit is for.
    pub fn open(
        rt: &'a R,
        alloc: Global,
        control: &'a Control<N>,
        permit: SessionPermit<N>,
    ) -> Ticker<'a, N, R>
        ensures { IsNew result }
    {
        Ticker {
            rt,
            alloc,
            control,
            session: control.session(rt, permit),
        }
    }

    /// The session, when the scheduler has ended.
    pub fn end(self) -> EndedSession
        ensures session { result ≡ self.entry }
        ensures of { IsOfControl N.name self.entry }
    {
        let Ticker { session, .. } = self;
        session.end()
    }

    /// Waits for a period, again and again, and has a round after each, until it is told to stop.
    pub fn run(&mut self, scripted: &mut Scripted, period: Duration, stop: &Stop, log: &mut R::Log)
        requires { R.Log.waits log.old ≡ [] }
        ensures rounds { HasWaited R.behaviour.tells N.name scripted.old stop.now period (R.Log.waits log.new) self.old self.new }
        ensures connections { R.Log.connections log.new ≡ R.Log.connections log.old }
    {
        for _ in self.rt.forever() {
            let wait = self.rt.wait(self.rt, stop, period, self.session.log(), log);
            if wait.told {
                return;
            }
            self.round(scripted);
        }
        unreachable!()
    }

    /// One tick; then instances are claimed and their outcomes reported until a claim gives none, or an error. An error of a tick or of a
    /// report leaves all as it was, and the next tick comes.
    fn round(&mut self, scripted: &mut Scripted)
        ensures round { IsRound R.behaviour.tells N.name scripted.old self.old self.new }
        ensures kept { scripted.new ≡ scripted.old }
    {
        let at = self.rt.time();
        let _ = self
            .control
            .tick(self.rt, self.alloc, &mut self.session, at);
        self.work(scripted);
    }

    /// Tries what is queued, until no more is claimed.
    fn work(&mut self, scripted: &mut Scripted)
        ensures work { HasWorked R.behaviour.tells N.name scripted.old self.old self.new }
        ensures kept { scripted.new ≡ scripted.old }
    {
        for _ in self.rt.forever() {
            if !self.attempt(scripted) {
                return;
            }
        }
        unreachable!()
    }

    /// Claims an instance, if there is one, and reports the outcome of its try.
    fn attempt(&mut self, scripted: &mut Scripted) -> bool
        ensures tried { MatchBool result (HasTried R.behaviour.tells N.name scripted.old self.old self.new) (HasStopped R.behaviour.tells N.name self.old self.new) }
        ensures kept { scripted.new ≡ scripted.old }
    {
        match self.claim() {
            Some(claim) => {
                let outcome = scripted.run(&claim);
                self.report(&claim, outcome);
                true
            }
            None => false,
        }
    }

    /// Claims an instance, if one is queued.
    fn claim(&mut self) -> Option<Claim>
        ensures { MatchOption result (HasStopped R.behaviour.tells N.name self.old self.new) (λ claim. Claims R.behaviour.tells N.name self.old (Ok (Some claim)) self.new) }
    {
        match self.claim_next() {
            Ok(Some(claim)) => Some(claim),
            Ok(None) => None,
            Err(_) => None,
        }
    }

    /// Claims the first instance that is queued, if there is one.
    fn claim_next(&mut self) -> Result<Option<Claim>, AuditFault>
        ensures { Claims R.behaviour.tells N.name self.old result self.new }
    {
        let at = self.rt.time();
        self.control
            .claim(self.rt, self.alloc, &mut self.session, at)
    }

    /// Reports the outcome of a claimed try.
    fn report(&mut self, claim: &Claim, outcome: Outcome)
        ensures { Reports R.behaviour.tells N.name self.old claim.now outcome self.new }
    {
        let at = self.rt.time();
        let _ = self
            .control
            .report(self.rt, self.alloc, &mut self.session, claim, outcome, at);
    }
}
