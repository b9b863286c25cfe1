ghost use Rattle.std.specs.Prelude.{◌≡◌, ◌<◌, length, IfErr, IfOk};
ghost use Rattle.std.specs.Option.{option_copied};
ghost use mathlib.Core.List.{IsPrefix};
ghost use Rattle.af_ops.specs.declared.policy_op.PolicyOp.TheVariants as asks;
ghost use Rattle.af_plane.specs.Administered.{HasAsked, IsGivenOn};
ghost use Rattle.af_plane.specs.Looks.{IsOn};

use crate::grounds::Grounds;
use crate::session::Session;
use af_board::{Board, NotFound};
use af_ops::{PolicyOp, Served, serve_me, serve_no_policy, serve_read, serve_unread};
use af_policy::{Ask, ChangeKind, PolicyRead, Presented};
use std::alloc::Global;
use std::sync::Wait;

impl Session {
    /// Answers an operation on the policy for the token's owner, on the board that the session is on, by its kind. It is decided under the
    /// last version, which the session has then seen and of which it keeps the mark. Only a change may wait.
    pub fn administer<R: Wait>(
        &mut self,
        rt: &R,
        alloc: Global,
        board: &Board,
        token: Option<&Presented<'_>>,
        asked: &PolicyOp,
    ) -> Served
        requires { IsOn board.now self.old }
        ensures { HasAsked board.now (option_copied token.entry) asked.now self.old result self.new }
    {
        match asked {
            PolicyOp::Me => self.me(alloc, board, token),
            PolicyOp::Read(asked) => self.read(alloc, board, token, asked),
            PolicyOp::Change(ask) => self.submit(rt, alloc, board, token, ask),
            PolicyOp::Unread(kind) => self.unread(alloc, board, token, *kind),
        }
    }

    /// Reports who the token's owner is.
    pub fn me(&mut self, alloc: Global, board: &Board, token: Option<&Presented<'_>>) -> Served
        requires { IsOn board.now self.old }
        ensures { HasAsked board.now (option_copied token.entry) asks.Me self.old result self.new }
    {
        match self.find_me(alloc, board, token) {
            Ok(served) => served,
            Err(_) => serve_no_policy(alloc),
        }
    }

    /// Reports roles or users.
    pub fn read(
        &mut self,
        alloc: Global,
        board: &Board,
        token: Option<&Presented<'_>>,
        asked: &PolicyRead,
    ) -> Served
        requires { IsOn board.now self.old }
        ensures { HasAsked board.now (option_copied token.entry) (asks.Read asked.now) self.old result self.new }
    {
        match self.find_rows(alloc, board, token, asked) {
            Ok(served) => served,
            Err(_) => serve_no_policy(alloc),
        }
    }

    /// Reports why a change of this kind, whose body was not read, makes no version.
    pub fn unread(
        &mut self,
        alloc: Global,
        board: &Board,
        token: Option<&Presented<'_>>,
        kind: ChangeKind,
    ) -> Served
        requires { IsOn board.now self.old }
        ensures { HasAsked board.now (option_copied token.entry) (asks.Unread kind) self.old result self.new }
    {
        match self.find_error(alloc, board, token, kind) {
            Ok(served) => served,
            Err(_) => serve_no_policy(alloc),
        }
    }

    /// Makes the next version of the policy by a change, or reports why there is none. The text of the reply is made before the version is,
    /// so no reply is lost. It may wait for another thread that grows the board's table.
    pub fn submit<R: Wait>(
        &mut self,
        rt: &R,
        alloc: Global,
        board: &Board,
        token: Option<&Presented<'_>>,
        ask: &Ask,
    ) -> Served
        requires { IsOn board.now self.old }
        ensures { HasAsked board.now (option_copied token.entry) (asks.Change ask.now) self.old result self.new }
    {
        match self.change(rt, alloc, board, token, ask) {
            Ok(served) => served,
            Err(_) => serve_no_policy(alloc),
        }
    }

    /// Reports who the token's owner is. `NotFound` if the policy of the last version is not to be had.
    fn find_me(
        &mut self,
        alloc: Global,
        board: &Board,
        token: Option<&Presented<'_>>,
    ) -> Result<Served, NotFound>
        requires { IsOn board.now self.old }
        ensures on { IsOn board.now self.new }
        ensures longer { IsPrefix self.old.pass.places self.new.pass.places }
        ensures entries { self.new.entries ≡ self.old.entries }
        ensures given { IfOk result (λ gave. IsGivenOn board.now (option_copied token.entry) asks.Me self.old gave self.new self.new.grounds) }
        ensures missed { IfErr result (λ _. (self.new.grounds ≡ self.old.grounds) × (1 < length self.new.pass.places) × (self.new.pass.deeds ≡ self.old.pass.deeds) × (self.old.pass.steps < self.new.pass.steps)) }
    {
        let mark = self.look(board)?;
        let served = serve_me(alloc, board.policy(&mark), mark.version(), token);
        self.grounds = Grounds::Under(mark);
        Ok(served)
    }

    /// Reports roles or users. `NotFound` if the policy of the last version is not to be had.
    fn find_rows(
        &mut self,
        alloc: Global,
        board: &Board,
        token: Option<&Presented<'_>>,
        asked: &PolicyRead,
    ) -> Result<Served, NotFound>
        requires { IsOn board.now self.old }
        ensures on { IsOn board.now self.new }
        ensures longer { IsPrefix self.old.pass.places self.new.pass.places }
        ensures entries { self.new.entries ≡ self.old.entries }
        ensures given { IfOk result (λ gave. IsGivenOn board.now (option_copied token.entry) (asks.Read asked.now) self.old gave self.new self.new.grounds) }
        ensures missed { IfErr result (λ _. (self.new.grounds ≡ self.old.grounds) × (1 < length self.new.pass.places) × (self.new.pass.deeds ≡ self.old.pass.deeds) × (self.old.pass.steps < self.new.pass.steps)) }
    {
        let mark = self.look(board)?;
        let served = serve_read(alloc, board.policy(&mark), mark.version(), token, asked);
        self.grounds = Grounds::Under(mark);
        Ok(served)
    }

    /// Reports why a change of this kind makes no version. `NotFound` if the policy of the last version is not to be had.
    fn find_error(
        &mut self,
        alloc: Global,
        board: &Board,
        token: Option<&Presented<'_>>,
        kind: ChangeKind,
    ) -> Result<Served, NotFound>
        requires { IsOn board.now self.old }
        ensures on { IsOn board.now self.new }
        ensures longer { IsPrefix self.old.pass.places self.new.pass.places }
        ensures entries { self.new.entries ≡ self.old.entries }
        ensures given { IfOk result (λ gave. IsGivenOn board.now (option_copied token.entry) (asks.Unread kind) self.old gave self.new self.new.grounds) }
        ensures missed { IfErr result (λ _. (self.new.grounds ≡ self.old.grounds) × (1 < length self.new.pass.places) × (self.new.pass.deeds ≡ self.old.pass.deeds) × (self.old.pass.steps < self.new.pass.steps)) }
    {
        let mark = self.look(board)?;
        let served = serve_unread(alloc, board.policy(&mark), mark.version(), token, kind);
        self.grounds = Grounds::Under(mark);
        Ok(served)
    }
}
