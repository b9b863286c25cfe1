ghost use Rattle.std.specs.Prelude.{◌≡◌, ◌+◌, ◌≤◌, length, IfOk};
ghost use Rattle.af_plane.specs.Looks.{Basis};
ghost use Rattle.af_plane.specs.Solos.{IsAnswered, IsDecided, IsOpening, IsSolo, alone};
ghost use Rattle.af_plane.specs.Turns.{IsOfPlane, IsPlaced};
ghost use mathlib.Core.List.{IsPrefix};

use crate::plane::Plane;
use crate::request::Request;
use crate::session::Session;
use af_board::{Board, OutOfMemory};
use af_ops::{Call, Served};
use af_policy::Policy;
use af_sched::State;
use af_tally::Keeper;
use std::alloc::Global;
use std::marker::Model;
use std::sync::Wait;

/// A server for one thread: a session over a plane without a lock. What is asked of the state and of the event logs is decided on the
/// plane; what is asked of the policy on the board.
pub struct Solo {
    board: Board,
    plane: Plane,
    session: Session,
}

impl Drop for Solo {
    fn drop(self) {
        let Solo {
            board: _,
            plane: _,
            session: _,
        } = self;
    }
}

impl Model for Solo {
    ghost use Rattle.std.specs.Prelude.{◌≡◌};
    ghost use Rattle.af_plane.specs.Looks.{AreOver};
    ghost use Rattle.af_plane.specs.Visits.{SoloRows};

    ghost Value = { SoloRows };

    ghost view = { λ solo. record { site = solo.board; plane = solo.plane; session = solo.session } };

    ghost invariant = { λ solo. AreOver solo.board solo.plane.keeper.keeper solo.plane solo.session };
}

impl Solo {
    /// Opens with version 0 of the policy, the greatest number that a version may have, the state, and the most entries that there may
    /// be. `OutOfMemory` if an allocation failed.
    pub fn open(
        alloc: Global,
        policy: Policy,
        version_limit: u32,
        state: State,
        history_limit: u32,
    ) -> Result<Solo, OutOfMemory>
        ensures { IfOk result (λ solo. IsOpening (alone policy version_limit state.rows history_limit) solo) }
    {
        let (board, mut pass) = Board::open(alloc, policy, version_limit)?;
        let Ok((keeper, witness)) = Keeper::open(alloc) else {
            return Err(OutOfMemory);
        };
        let session = Session::open(board.split(&mut pass), witness, board.opening());
        let plane = Plane::open(alloc, state, history_limit, pass, keeper);
        Ok(Solo {
            board,
            plane,
            session,
        })
    }

    /// The versions of the policy.
    pub fn board(&self) -> &Board
        ensures { result.now ≡ self.now.site }
    {
        &self.board
    }

    /// The plane.
    pub fn plane(&self) -> &Plane
        ensures { result.now ≡ self.now.plane }
    {
        &self.plane
    }

    /// What its one user has seen.
    pub fn session(&self) -> &Session
        ensures { result.now ≡ self.now.session }
    {
        &self.session
    }

    /// What holds at all times: the state is the replay of the entries, and the plane's version is one that its pass has seen.
    pub fn conditions(&self)
        ensures { IsSolo self.now }
    {
        self.plane.conditions();
        self.session.conditions();
    }

    /// Answers what is asked. It is decided where its data live, under the last version of the policy, of which the session then holds the
    /// mark. The versions that its answers name never fall. Out of memory comes last, then nothing is done but a look; no reply of a change
    /// is lost. Only a change of the policy may wait, for another thread that grows the board's table.
    pub fn answer<R: Wait>(&mut self, rt: &R, alloc: Global, request: &Request<'_>) -> Served
        ensures { (basis : Basis) × IsAnswered self.old request.now result self.new basis }
    {
        let served = self.decide(rt, alloc, request);
        self.conditions();
        served
    }

    /// Decides a call, by its kind.
    fn decide<R: Wait>(&mut self, rt: &R, alloc: Global, request: &Request<'_>) -> Served
        ensures site { self.new.site ≡ self.old.site }
        ensures longer { IsPrefix self.old.session.pass.places self.new.session.pass.places }
        ensures decided { (basis : Basis) × IsDecided self.old request.now result self.new basis }
    {
        match request.call {
            Call::Policy(asked) => {
                let board = &self.board;
                self.session
                    .administer(rt, alloc, board, request.token, asked)
            }
            Call::State(_) | Call::Entries(_) => self.take_turn(alloc, request),
        }
    }

    /// Takes a turn on the plane.
    fn take_turn(&mut self, alloc: Global, request: &Request<'_>) -> Served
        requires { IsOfPlane request.now.call }
        ensures site { self.new.site ≡ self.old.site }
        ensures longer { IsPrefix self.old.session.pass.places self.new.session.pass.places }
        ensures decided { (basis : Basis) × IsPlaced self.old.site request.now self.old.plane self.old.session result self.new.plane self.new.session basis request.now.call }
    {
        let turn = self
            .plane
            .turn(alloc, &self.board, &mut self.session, request);
        match turn {
            Some(served) => served,
            None => unreachable!(),
        }
    }
}
