ghost use Rattle.std.specs.Prelude.{◌≡◌, ◌+◌, ◌<◌, ◌≤◌, List, Option, ℕ, length, true, IfErr, IfNone, IfOk, IfSome, Some};
ghost use Rattle.std.specs.Option.{option_copied};
ghost use mathlib.Core.List.{IsPrefix};
ghost use Rattle.af_policy.specs.Identity.{bearer_of};
ghost use Rattle.af_policy.specs.declared.ask.Ask.TheVariants.{Made};
ghost use Rattle.af_policy.specs.declared.refusal.Refusal.TheVariants as fault;
ghost use Rattle.af_ops.specs.declared.policy_op.PolicyOp.TheVariants as asks;
ghost use Rattle.af_ops.specs.PolicyFaults.{submit_problem};
ghost use Rattle.af_ops.specs.PolicyUnder.{IsToldUnder};
ghost use Rattle.af_ops.specs.PolicyVerdicts.{Refuses};
ghost use Rattle.af_board.specs.Drafts.{IsDraft};
ghost use Rattle.af_board.specs.Faults.{Explains, mark_of};
ghost use Rattle.af_board.specs.Marks.{HasSeen, IsLast, IsOf, Site, policy_of};
ghost use Rattle.af_plane.specs.declared.grounds.Grounds.TheVariants as grounds;
ghost use Rattle.af_plane.specs.Administered.{IsGiven, IsGivenOn, IsRefused, full_ground};
ghost use Rattle.af_plane.specs.Looks.{HasSame, HasWatched, IsOn, base_of, versions_made};

use crate::grounds::Grounds;
use crate::session::Session;
use af_board::{Board, Draft, Mark, NotFound, Spent, SubmitFault};
use af_ops::{Served, asked_text, serve_fault, shown_made};
use af_policy::{Ask, Presented, Refusal};
use std::alloc::Global;
use std::sync::Wait;

impl Session {
    /// Makes the next version of the policy by a change, or reports why there is none. A change that another one overtakes is tried once more,
    /// under the version that there is then. `NotFound` if the policy of the last version is not to be had.
    pub(crate) fn change<R: Wait>(
        &mut self,
        rt: &R,
        alloc: Global,
        board: &Board,
        token: Option<&Presented<'_>>,
        ask: &Ask,
    ) -> Result<Served, NotFound>
        requires { IsOn board.now self.old }
        ensures on { IsOn board.now self.new }
        ensures longer { IsPrefix self.old.pass.places self.new.pass.places }
        ensures entries { self.new.entries ≡ self.old.entries }
        ensures given { IfOk result (λ gave. IsGivenOn board.now (option_copied token.entry) (asks.Change ask.now) self.old gave self.new self.new.grounds) }
        ensures missed { IfErr result (λ _. (self.new.grounds ≡ self.old.grounds) × (1 < length self.new.pass.places) × (self.new.pass.deeds ≡ self.old.pass.deeds) × (self.old.pass.steps < self.new.pass.steps)) }
    {
        if let Some(served) = self.try_change(rt, alloc, board, token, ask, true)? {
            return Ok(served);
        }
        let Some(served) = self.try_change(rt, alloc, board, token, ask, false)? else {
            unreachable!()
        };
        Ok(served)
    }

    /// Tries to make the next version once. None if another change overtook this one, and it is to be tried again: then the session has only
    /// looked.
    fn try_change<R: Wait>(
        &mut self,
        rt: &R,
        alloc: Global,
        board: &Board,
        token: Option<&Presented<'_>>,
        ask: &Ask,
        again: bool,
    ) -> Result<Option<Served>, NotFound>
        requires { IsOn board.now self.old }
        ensures on { IsOn board.now self.new }
        ensures longer { IsPrefix self.old.pass.places self.new.pass.places }
        ensures entries { self.new.entries ≡ self.old.entries }
        ensures given { IfOk result (λ tried. IfSome tried (λ gave. IsGivenOn board.now (option_copied token.entry) (asks.Change ask.now) self.old gave self.new self.new.grounds)) }
        ensures overtaken { IfOk result (λ tried. IfNone tried ((again ≡ true) × HasWatched self.old self.new)) }
        ensures missed { IfErr result (λ _. HasWatched self.old self.new × (1 < length self.new.pass.places)) }
    {
        match board.draft(rt, alloc, &mut self.pass, token, ask) {
            Ok(draft) => {
                self.compare(board, draft.base());
                Ok(self.publish(alloc, board, ask, draft, again))
            }
            Err(fault) => {
                self.compare_base(board, &fault);
                Ok(Some(self.refuse(alloc, ask, fault)?))
            }
        }
    }

    /// A law: where the version under which an error was decided is the one of which the session holds the mark, both have one policy.
    fn compare_base(&self, board: &Board, fault: &SubmitFault)
        requires on { IsOn board.now self.now }
        requires mark { IfSome (mark_of fault.now) (λ m. IsOf board.now m × HasSeen self.now.pass m) }
        ensures { IfSome (mark_of fault.now) (λ m. HasSame board.now self.now.grounds m) }
    {
        if let Some(mark) = fault.mark() {
            self.compare(board, mark);
        }
    }

    /// Publishes a draft of what was asked. The text of the reply is made before that. None if another version was published after its base,
    /// and the change is to be tried again: then the session holds what it held.
    fn publish(
        &mut self,
        alloc: Global,
        board: &Board,
        ask: &Ask,
        draft: Draft,
        again: bool,
    ) -> Option<Served>
        requires on { IsOn board.now self.old }
        requires draft { IsDraft board.now draft }
        requires last { IsLast board.now self.old.pass draft.base }
        requires change { ask.now ≡ Made draft.change }
        ensures on { IsOn board.now self.new }
        ensures longer { IsPrefix self.old.pass.places self.new.pass.places }
        ensures entries { self.new.entries ≡ self.old.entries }
        ensures base { IfSome result (λ _. base_of self.new.grounds ≡ draft.base) }
        ensures deeds { IfSome result (λ _. self.new.pass.deeds ≡ self.old.pass.deeds + versions_made self.new.grounds) }
        ensures steps { self.old.pass.steps ≤ self.new.pass.steps }
        ensures given { (token : Option (List ℕ)) → bearer_of (policy_of board.now draft.base) token ≡ Some draft.author → IfSome result (λ gave. IsGiven board.now token (asks.Change ask.now) gave self.new self.new.grounds) }
        ensures overtaken { IfNone result ((again ≡ true) × HasWatched self.old self.new) }
    {
        let base = draft.base().again();
        let version = u64::from(base.version()) + 1;
        let Ok(reply) = asked_text(alloc, draft.policy(board), ask, version) else {
            self.grounds = Grounds::Under(base);
            return Some(Served::NothingDone);
        };
        match board.publish(&mut self.pass, draft) {
            Ok(receipt) => {
                let shown = shown_made(receipt.mark().version(), reply);
                self.grounds = Grounds::Made(receipt);
                Some(Served::Shown(shown))
            }
            Err(_) if again => None,
            Err(_) => {
                self.grounds = Grounds::Overtaken(base);
                let (version, _) = self.seen();
                Some(serve_fault(alloc, ask, &Refusal::Moved(version), version))
            }
        }
    }

    /// Reports why there is no draft of what was asked, under the version of which the error has the mark.
    fn refuse(&mut self, alloc: Global, ask: &Ask, fault: SubmitFault) -> Result<Served, NotFound>
        ensures pass { self.new.pass ≡ self.old.pass }
        ensures entries { self.new.entries ≡ self.old.entries }
        ensures given { (site : Site) (token : Option (List ℕ)) → Explains site token ask.now self.old.pass fault → IfOk result (λ gave. IsRefused site token ask.now gave self.new fault) }
        ensures missed { IfErr result (λ _. (self.new.grounds ≡ self.old.grounds) × (fault ≡ SubmitFault.NotFound)) }
    {
        match fault {
            SubmitFault::NotFound => Err(NotFound),
            SubmitFault::Unauthenticated(mark) => {
                Ok(self.refuse_under(alloc, ask, mark, &Refusal::Unauthenticated))
            }
            SubmitFault::Denied(mark, need) => {
                Ok(self.refuse_under(alloc, ask, mark, &Refusal::Denied(need)))
            }
            SubmitFault::BadBody(mark, input) => {
                Ok(self.refuse_under(alloc, ask, mark, &Refusal::BadBody(input)))
            }
            SubmitFault::Refused(mark, why) => {
                Ok(self.refuse_under(alloc, ask, mark, &Refusal::Refused(why)))
            }
            SubmitFault::Full(mark, spent) => Ok(self.refuse_full(alloc, ask, mark, spent)),
            SubmitFault::OutOfMemory(mark) => {
                self.grounds = Grounds::Under(mark);
                Ok(Served::NothingDone)
            }
            SubmitFault::Moved { .. } => Ok(Served::NothingDone),
        }
    }

    /// Reports that the versions are full, and keeps the evidence if it is the places of the board that are used up.
    fn refuse_full(&mut self, alloc: Global, ask: &Ask, mark: Mark, spent: Option<Spent>) -> Served
        ensures pass { self.new.pass ≡ self.old.pass }
        ensures entries { self.new.entries ≡ self.old.entries }
        ensures held { self.new.grounds ≡ full_ground mark spent }
        ensures told { IsToldUnder mark.version (Refuses (submit_problem ask.now fault.Full)) result }
    {
        let served = serve_fault(alloc, ask, &Refusal::Full, mark.version());
        self.grounds = match spent {
            None => Grounds::Under(mark),
            Some(spent) => Grounds::Spent(mark, spent),
        };
        served
    }

    /// Keeps the mark of the version under which a change was refused, and reports why.
    fn refuse_under(&mut self, alloc: Global, ask: &Ask, mark: Mark, why: &Refusal) -> Served
        ensures pass { self.new.pass ≡ self.old.pass }
        ensures entries { self.new.entries ≡ self.old.entries }
        ensures held { self.new.grounds ≡ grounds.Under mark }
        ensures told { IsToldUnder mark.version (Refuses (submit_problem ask.now why.now)) result }
    {
        let served = serve_fault(alloc, ask, why, mark.version());
        self.grounds = Grounds::Under(mark);
        served
    }
}
