ghost use Rattle.std.specs.Prelude.{◌≡◌, ◌+◌, ◌≤◌, length, Some, IfOk, IfErr};
ghost use Rattle.std.specs.Option.{option_copied};
ghost use Rattle.af_policy.specs.Identity.{bearer_of};
ghost use Rattle.af_policy.specs.Versions.{Follows};
ghost use Rattle.af_policy.specs.declared.ask.Ask.TheVariants.{Made};
ghost use Rattle.af_word.specs.Calls.{Added, Advanced, Looked};
ghost use Rattle.af_board.specs.Marks.{HasSeen, IsLast, policy_of};
ghost use Rattle.af_board.specs.Drafts.{IsDraft, IsReceipt, Publishes};
ghost use Rattle.af_board.specs.Faults.{MovedOr, MovedPast, steps_of};

use crate::{Board, Draft, Receipt, SubmitFault};
use af_policy::{Ask, Presented};
use af_word::{Pass, PublishFault};
use std::alloc::Global;
use std::sync::Wait;

impl Board {
    /// Publishes a draft as the version after its base, which the pass has seen. `Moved` if another version was published after the
    /// base; the draft is then dropped, and its place in the table stays used up. It takes no memory and does not wait. Atomic step:
    /// one publish, which wins or loses; or one look, if the pass had seen a later version than the base already.
    pub fn publish(&self, pass: &mut Pass, draft: Draft) -> Result<Receipt, SubmitFault>
        requires word { pass.old.word ≡ self.now.word }
        requires draft { IsDraft self.now draft }
        requires seen { HasSeen pass.old draft.base }
        ensures receipt { IfOk result (λ r. Publishes self.now draft r) }
        ensures last { IfOk result (λ r. IsLast self.now pass.new r.mark) }
        ensures was { IfOk result (λ _. length pass.old.places ≡ draft.base.version + 1) }
        ensures added { IfOk result (λ _. Added draft.place pass.old pass.new) }
        ensures looked { IfErr result (λ _. Looked pass.old pass.new) }
        ensures err { IfErr result (λ f. MovedPast draft pass.new f) }
    {
        match self.word.publish(pass, draft.base.version(), draft.place) {
            Ok(version) => Ok(draft.published(version)),
            Err(PublishFault::Moved { version, index: _ }) => Err(SubmitFault::Moved { version }),
            Err(PublishFault::Last) => unreachable!(),
        }
    }

    /// Decides a change for the token's owner under the last version, and publishes it as the next: `draft`, then `publish`. It may wait
    /// for another thread that grows the table. Atomic steps: those of `draft`, then those of `publish`.
    #[tactic(auto, using(af_prefixes::proofs::PrefixLemmas::prefix_get, af_prefixes::proofs::PrefixLemmas::prefix_length))]
    pub fn submit<R: Wait>(
        &self,
        rt: &R,
        alloc: Global,
        pass: &mut Pass,
        token: Option<&Presented<'_>>,
        ask: &Ask,
    ) -> Result<Receipt, SubmitFault>
        requires { pass.old.word ≡ self.now.word }
        ensures receipt { IfOk result (λ r. IsReceipt self.now r) }
        ensures follows { IfOk result (λ r. Follows (policy_of self.now r.base) (policy_of self.now r.mark)) }
        ensures last { IfOk result (λ r. IsLast self.now pass.new r.mark) }
        ensures author { IfOk result (λ r. bearer_of (policy_of self.now r.base) (option_copied token.entry) ≡ Some r.author) }
        ensures change { IfOk result (λ r. ask.now ≡ Made r.change) }
        ensures base { IfOk result (λ r. HasSeen pass.new r.base) }
        ensures new { IfOk result (λ r. length pass.old.places ≤ r.base.version + 1) }
        ensures added { IfOk result (λ _. Advanced 2 1 pass.old pass.new) }
        ensures looked { IfErr result (λ f. Advanced (steps_of f) 0 pass.old pass.new) }
        ensures err { IfErr result (λ f. MovedOr self.now (option_copied token.entry) ask.now pass.old pass.new f) }
    {
        let draft = self.draft(rt, alloc, pass, token, ask)?;
        Ok(self.publish(pass, draft)?)
    }
}
