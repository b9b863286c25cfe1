ghost use Rattle.std.specs.Prelude.{◌≡◌};
ghost use Rattle.std.specs.Option.{option_copied};
ghost use Rattle.af_ops.specs.declared.call.Call.TheVariants as calls;
ghost use Rattle.af_plane.specs.Closings.{IsOfControl};
ghost use Rattle.af_plane.specs.Turns.{IsOfPlane};
ghost use Rattle.af_server.specs.Workers.{IsNew, Works};

use crate::gate::Gate;
use crate::machine::Machine;
use af_audit::RecentTokens;
use af_http::Service;
use af_ops::{Call, PolicyOp, Served};
use af_plane::{Control, ControlSession, EndedSession, Named, Request, SessionPermit};
use std::alloc::Global;
use std::marker::Model;
use std::sync::Wait;

/// Answers the calls that one worker thread reads, with a session of its own. Each answer passes the gate before it is written. It can open no
/// other session. Contracts see the session.
#[derive(Drop)]
pub struct Worker<'a, N: Named, R: Wait + Machine, G: Gate> {
    rt: &'a R,
    alloc: Global,
    control: &'a Control<N>,
    gate: &'a G,
    session: ControlSession<N>,
    tokens: RecentTokens,
}

impl<'a, N: Named, R: Wait + Machine, G: Gate> Model for Worker<'a, N, R, G> {
    ghost use Rattle.af_plane.specs.Visits.{SessionRows};

    ghost Value = { SessionRows };

    ghost view = { λ worker. worker.session };
}

impl<'a, N: Named, R: Wait + Machine, G: Gate> Worker<'a, N, R, G> {
    /// A worker over what threads share, with the one session that its permit is for.
    pub fn open(
        rt: &'a R,
        alloc: Global,
        control: &'a Control<N>,
        permit: SessionPermit<N>,
        gate: &'a G,
    ) -> Worker<'a, N, R, G>
        ensures { IsNew result }
    {
        Worker {
            rt,
            alloc,
            control,
            gate,
            session: control.session(rt, permit),
            tokens: RecentTokens::new(alloc),
        }
    }

    /// The session, when the worker has ended.
    pub fn end(self) -> EndedSession
        ensures session { result ≡ self.entry }
        ensures of { IsOfControl N.name self.entry }
    {
        let Worker { session, .. } = self;
        session.end()
    }

    /// Decides a call where its data live, at the time of the clock.
    fn decide(&mut self, token: Option<&[u8]>, call: &Call) -> Served
        ensures { Works R.behaviour.tells N.name self.old (option_copied token.entry) call.now result self.new }
    {
        match call {
            Call::Policy(asked) => self.administer(token, asked),
            Call::State(_) | Call::Entries(_) => self.take_turn(token, call),
        }
    }

    /// Decides a call on the plane, by one turn there. The token is hashed before the lock is taken.
    fn take_turn(&mut self, token: Option<&[u8]>, call: &Call) -> Served
        requires { IsOfPlane call.now }
        ensures { Works R.behaviour.tells N.name self.old (option_copied token.entry) call.now result self.new }
    {
        let presented = self.tokens.present(token);
        let request = Request {
            token: presented.as_ref(),
            call,
            at: self.rt.time(),
        };
        self.control
            .call(self.rt, self.alloc, &mut self.session, &request)
    }

    /// Decides an operation on the policy, on the board, without the plane's lock.
    fn administer(&mut self, token: Option<&[u8]>, asked: &PolicyOp) -> Served
        ensures { Works R.behaviour.tells N.name self.old (option_copied token.entry) (calls.Policy asked.now) result self.new }
    {
        let presented = self.tokens.present(token);
        let token = presented.as_ref();
        match asked {
            PolicyOp::Me => self.control.me(self.alloc, &mut self.session, token),
            PolicyOp::Read(asked) => self
                .control
                .read(self.alloc, &mut self.session, token, asked),
            PolicyOp::Unread(kind) => self
                .control
                .unread(self.alloc, &mut self.session, token, *kind),
            PolicyOp::Change(ask) => self
                .control
                .submit(self.rt, self.alloc, &mut self.session, token, ask),
        }
    }
}

impl<'a, N: Named, R: Wait + Machine, G: Gate> Service for Worker<'a, N, R, G> {
    ghost answers = { λ old token call served new. Works R.behaviour.tells N.name old token call served new };

    fn answer(&mut self, token: Option<&[u8]>, call: &Call) -> Served {
        let served = self.decide(token, call);
        self.gate.pass(call.endpoint());
        served
    }
}
