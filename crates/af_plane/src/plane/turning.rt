ghost use Rattle.std.specs.Prelude.{◌≡◌, ◌<◌, Some, length, false, true, IfErr, IfNone, IfOk, IfSome};
ghost use Rattle.std.specs.Option.{option_copied};
ghost use mathlib.Core.List.{IsPrefix};
ghost use Rattle.af_ops.specs.Endpoints.{endpoint_of};
ghost use Rattle.af_ops.specs.Table.{is_open};
ghost use Rattle.af_ops.specs.declared.call.Call.TheVariants as call;
ghost use Rattle.af_board.specs.Marks.{IsLast};
ghost use Rattle.af_plane.specs.Looks.{AreOver, Basis, HasMet, HasOnlyLooked, HasSame, On, held, looked};
ghost use Rattle.af_plane.specs.Planes.{Applies};
ghost use Rattle.af_plane.specs.Requests.{only_reads};
ghost use Rattle.af_plane.specs.Solos.{first_mark};
ghost use Rattle.af_plane.specs.Turns.{IsActed, IsOfPlane, IsOpenly, IsPlaced, IsTurn, IsUnderVersion};

use crate::grounds::Grounds;
use crate::plane::Plane;
use crate::request::Request;
use crate::session::Session;
use af_board::{Board, Mark, NotFound};
use af_names::Instant;
use af_ops::{Call, Op, Served, route_of, serve_no_policy};
use af_policy::{Policy, Presented};
use std::alloc::Global;
use std::mem;

impl Plane {
    /// One turn of a session: its pass meets the plane's, both look, and what is asked is decided under the version that is found, of which
    /// the session keeps the mark. An open operation looks at nothing. None if the call is an operation on the policy, which is not the
    /// plane's.
    pub fn turn(
        &mut self,
        alloc: Global,
        board: &Board,
        session: &mut Session,
        request: &Request<'_>,
    ) -> Option<Served>
        requires over { AreOver board.now self.old.keeper.keeper self.old session.old }
        ensures over { AreOver board.now self.old.keeper.keeper self.new session.new }
        ensures plane_longer { IsPrefix self.old.pass.places self.new.pass.places }
        ensures session_longer { IsPrefix session.old.pass.places session.new.pass.places }
        ensures turn { IsTurn board.now request.now self.old session.old result self.new session.new }
        // what is decided under a version is decided with all versions that the plane has then seen
        ensures places { IsUnderVersion request.now.call → session.new.pass.places ≡ self.new.pass.places }
    {
        match request.call {
            Call::State(op) => Some(self.operate(alloc, board, session, request, op)),
            Call::Entries(_) => Some(self.take_turn(alloc, board, session, request)),
            Call::Policy(_) => None,
        }
    }

    /// One turn of a session, for a call that only reads. It borrows the plane as shared and changes nothing of it, so that other sessions may
    /// do so at the same time. The session looks, and what is asked is decided under the version that is found, if the plane looked at that
    /// version last. The session keeps the mark, and is shown all entries. None if it has to be a turn on the plane alone: then the session has
    /// looked, and nothing else is done.
    pub fn read(
        &self,
        alloc: Global,
        board: &Board,
        session: &mut Session,
        request: &Request<'_>,
    ) -> Option<Served>
        requires over { AreOver board.now self.now.keeper.keeper self.now session.old }
        requires reads { only_reads request.now.call ≡ true }
        ensures over { AreOver board.now self.now.keeper.keeper self.now session.new }
        ensures longer { IsPrefix session.old.pass.places session.new.pass.places }
        ensures turn { IfSome result (λ gave. IsTurn board.now request.now self.now session.old (Some gave) self.now session.new) }
        ensures none { IfNone result (HasOnlyLooked session.old session.new) }
    {
        let Ok(found) = session.look(board) else {
            return None;
        };
        if found.version() != self.ledger.version() || !self.keeper.show(&mut session.witness) {
            return None;
        }
        let served = self.shown(alloc, board.policy(&found), request);
        session.grounds = Grounds::Under(found);
        Some(served)
    }

    /// A session that has seen what the plane has, and holds the mark of version 0.
    pub fn session(&mut self, board: &Board) -> Session
        requires { self.old.pass.word ≡ board.now.word }
        ensures over { AreOver board.now self.old.keeper.keeper self.new result }
        ensures ledger { self.new.ledger ≡ self.old.ledger }
        ensures seen { (result.pass ≡ self.new.pass) × (result.entries ≡ self.new.keeper) × (self.new.keeper ≡ self.old.keeper) }
        ensures mark { held result.grounds ≡ first_mark }
    {
        let pass = board.split(&mut self.pass);
        Session::open(pass, self.keeper.give(), board.opening())
    }

    /// Answers a call that only reads, under any policy. The caller gives that of the version at which the plane looked last.
    fn shown(&self, alloc: Global, policy: &Policy, request: &Request<'_>) -> Served
        requires { only_reads request.now.call ≡ true }
        ensures { Applies policy.now self.now.ledger request.now.token request.now.call request.now.at (Some result) self.now.ledger }
    {
        match request.call {
            Call::State(op) => self
                .ledger
                .show(alloc, policy, request.token, op, request.at),
            Call::Entries(asked) => self.ledger.entries(alloc, policy, request.token, asked),
            Call::Policy(_) => unreachable!(),
        }
    }

    /// Answers an operation on the state.
    fn operate(
        &mut self,
        alloc: Global,
        board: &Board,
        session: &mut Session,
        request: &Request<'_>,
        op: &Op,
    ) -> Served
        requires over { AreOver board.now self.old.keeper.keeper self.old session.old }
        requires op { request.now.call ≡ call.State op.now }
        ensures over { AreOver board.now self.old.keeper.keeper self.new session.new }
        ensures plane_longer { IsPrefix self.old.pass.places self.new.pass.places }
        ensures session_longer { IsPrefix session.old.pass.places session.new.pass.places }
        ensures placed { (basis : Basis) × IsPlaced board.now request.now self.old session.old result self.new session.new basis (call.State op.now) }
        ensures places { is_open (endpoint_of op.now) ≡ false → session.new.pass.places ≡ self.new.pass.places }
    {
        if route_of(op.endpoint()).is_open {
            return self.openly(alloc, board, request.token, op, request.at);
        }
        self.take_turn(alloc, board, session, request)
    }

    /// Answers an open operation, under no version.
    fn openly(
        &mut self,
        alloc: Global,
        board: &Board,
        token: Option<&Presented<'_>>,
        op: &Op,
        now: Instant,
    ) -> Served
        requires { is_open (endpoint_of op.now) ≡ true }
        ensures served { IsOpenly op.now now self.old.ledger result }
        ensures same { self.new ≡ self.old }
    {
        let opening = board.opening();
        self.ledger
            .answer(alloc, board.policy(&opening), token, op, now)
    }

    /// Looks, and decides what is asked.
    fn take_turn(
        &mut self,
        alloc: Global,
        board: &Board,
        session: &mut Session,
        request: &Request<'_>,
    ) -> Served
        requires over { AreOver board.now self.old.keeper.keeper self.old session.old }
        requires call { IsOfPlane request.now.call }
        ensures over { AreOver board.now self.old.keeper.keeper self.new session.new }
        ensures plane_longer { IsPrefix self.old.pass.places self.new.pass.places }
        ensures session_longer { IsPrefix session.old.pass.places session.new.pass.places }
        ensures acted { (basis : Basis) × IsActed board.now request.now self.old session.old result self.new session.new basis }
        ensures places { session.new.pass.places ≡ self.new.pass.places }
    {
        match self.act(alloc, board, session, request) {
            Ok(served) => served,
            Err(_) => serve_no_policy(alloc),
        }
    }

    /// Looks, and decides under the version that is found. `NotFound` if its policy is not to be had.
    fn act(
        &mut self,
        alloc: Global,
        board: &Board,
        session: &mut Session,
        request: &Request<'_>,
    ) -> Result<Served, NotFound>
        requires over { AreOver board.now self.old.keeper.keeper self.old session.old }
        requires call { IsOfPlane request.now.call }
        ensures over { AreOver board.now self.old.keeper.keeper self.new session.new }
        ensures plane_longer { IsPrefix self.old.pass.places self.new.pass.places }
        ensures session_longer { IsPrefix session.old.pass.places session.new.pass.places }
        ensures met { HasMet self.old session.old self.new session.new }
        ensures acted { IfOk result (λ gave. IsActed board.now request.now self.old session.old gave self.new session.new (On session.new.grounds)) }
        ensures missed { IfErr result (λ _. (session.new.grounds ≡ session.old.grounds) × (1 < length session.new.pass.places)) }
        ensures stays { IfErr result (λ _. self.new.ledger ≡ self.old.ledger) }
    {
        let mark = self.look_with(board, session)?;
        session.compare(board, &mark);
        let Some(served) = self.apply(alloc, board, &mark, request) else {
            unreachable!()
        };
        session.witness = self.keeper.give();
        session.grounds = Grounds::Under(mark);
        Ok(served)
    }

    /// The session's pass meets the plane's; then one look, and the session has seen what the plane has.
    fn look_with(&mut self, board: &Board, session: &mut Session) -> Result<Mark, NotFound>
        requires { AreOver board.now self.old.keeper.keeper self.old session.old }
        ensures word { self.new.pass.word ≡ board.now.word }
        ensures plane_longer { IsPrefix self.old.pass.places self.new.pass.places }
        ensures session_longer { IsPrefix session.old.pass.places self.new.pass.places }
        ensures session_word { session.new.pass.word ≡ board.now.word }
        ensures grounds { session.new.grounds ≡ session.old.grounds }
        ensures keeper { self.new.keeper ≡ self.old.keeper }
        ensures met { HasMet self.old session.old self.new session.new }
        ensures mark { IfOk result (λ m. IsLast board.now session.new.pass m) }
        ensures looked { IfOk result (λ m. self.new.ledger ≡ looked m.version self.old.ledger) }
        ensures not_found { IfErr result (λ _. 1 < length self.new.pass.places) }
        ensures stays { IfErr result (λ _. self.new.ledger ≡ self.old.ledger) }
    {
        let pass = mem::replace(&mut session.pass, board.split(&mut self.pass));
        board.meet(&mut self.pass, pass);
        self.keeper.meet(&mut session.witness);
        let found = self.look(board);
        session.pass = board.split(&mut self.pass);
        found
    }
}
