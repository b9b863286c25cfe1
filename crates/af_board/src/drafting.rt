ghost use Rattle.std.specs.Prelude.{◌≡◌, ◌+◌, Some, IfOk, IfErr};
ghost use Rattle.std.specs.Option.{option_copied};
ghost use Rattle.boxcar.specs.Table.{Shows};
ghost use Rattle.af_policy.specs.Identity.{bearer_of};
ghost use Rattle.af_policy.specs.declared.ask.Ask.TheVariants.{Made};
ghost use Rattle.af_word.specs.Calls.{Looked};
ghost use Rattle.af_board.specs.Marks.{IsLast, policy_of};
ghost use Rattle.af_board.specs.Drafts.{IsDraft};
ghost use Rattle.af_board.specs.Faults.{Explains};
ghost use Rattle.af_board.specs.Pushes.{IsSpentBy};

use crate::push_fault::PushFault;
use crate::{Board, Draft, Spent, SubmitFault};
use af_mask::Compiled;
use af_policy::{Ask, Decision, Policy, Presented, Refusal};
use af_word::Pass;
use boxcar::Pushed;
use std::alloc::Global;
use std::sync::Wait;

impl Board {
    /// Decides a change for the token's owner under the last version, which the pass has then seen; compiles the policy that the change
    /// makes, and pushes it to the table, where it is no version yet. The errors are reported in the order of `SubmitFault`, but
    /// `OutOfMemory` may take the place of `Full` and of an error of the change that has a text. It is never `Moved`. It may wait for
    /// another thread that grows the table. Atomic step: one look.
    pub fn draft<R: Wait>(
        &self,
        rt: &R,
        alloc: Global,
        pass: &mut Pass,
        token: Option<&Presented<'_>>,
        ask: &Ask,
    ) -> Result<Draft, SubmitFault>
        requires { pass.old.word ≡ self.now.word }
        ensures looked { Looked pass.old pass.new }
        ensures draft { IfOk result (λ d. IsDraft self.now d) }
        ensures base { IfOk result (λ d. IsLast self.now pass.new d.base) }
        ensures author { IfOk result (λ d. bearer_of (policy_of self.now d.base) (option_copied token.entry) ≡ Some d.author) }
        ensures change { IfOk result (λ d. ask.now ≡ Made d.change) }
        ensures err { IfErr result (λ f. Explains self.now (option_copied token.entry) ask.now pass.new f) }
    {
        let Ok(base) = self.current(pass) else {
            return Err(SubmitFault::NotFound);
        };
        let Decision {
            author,
            change,
            policy,
        } = match self.policy(&base).decide(alloc, token, ask) {
            Ok(decision) => decision,
            Err(Refusal::Unauthenticated) => return Err(SubmitFault::Unauthenticated(base)),
            Err(Refusal::Denied(need)) => return Err(SubmitFault::Denied(base, need)),
            Err(Refusal::BadBody(input)) => return Err(SubmitFault::BadBody(base, input)),
            Err(Refusal::Refused(fault)) => return Err(SubmitFault::Refused(base, fault)),
            Err(Refusal::OutOfMemory) => return Err(SubmitFault::OutOfMemory(base)),
            Err(Refusal::NotFound | Refusal::Full | Refusal::Moved(_)) => unreachable!(),
        };
        if base.version == self.word.last() {
            return Err(SubmitFault::Full(base, None));
        }
        let (place, pushed) = match self.push(rt, policy) {
            Ok(pushed) => pushed,
            Err(PushFault::OutOfMemory) => return Err(SubmitFault::OutOfMemory(base)),
            Err(PushFault::Full(spent)) => return Err(SubmitFault::Full(base, Some(spent))),
        };
        Ok(Draft {
            author,
            change,
            base,
            place,
            pushed,
        })
    }

    /// Compiles a policy and pushes it to the table: its place there, and the token of the push.
    fn push<R: Wait>(&self, rt: &R, policy: Policy) -> Result<(u32, Pushed<Compiled>), PushFault>
        ensures pushed { IfOk result (λ p. Shows self.now.table p.1) }
        ensures value { IfOk result (λ p. p.1.value ≡ policy) }
        ensures place { IfOk result (λ p. p.0 ≡ p.1.index + 1) }
        ensures err { IfErr result (λ fault. IsSpentBy self.now fault) }
    {
        let Ok(compiled) = Compiled::of(&policy) else {
            return Err(PushFault::OutOfMemory);
        };
        let Ok(pushed) = self.table.push_shown(rt, compiled) else {
            return Err(PushFault::OutOfMemory);
        };
        let index = pushed.index();
        if index >= u32::MAX as usize {
            return Err(PushFault::Full(Spent { pushed }));
        }
        Ok((index as u32 + 1, pushed))
    }
}
