ghost use Rattle.std.specs.Prelude.{◌≡◌, ℕ, false, true};
ghost use Rattle.std.specs.Option.{option_copied};
ghost use Rattle.af_base.specs.Readings.{seen};
ghost use Rattle.af_policy.specs.Identity.{bearer_of};
ghost use Rattle.af_ops.specs.declared.answer.Under.{Under};
ghost use Rattle.af_ops.specs.Decisions.{IsDecided};
ghost use Rattle.af_ops.specs.Endpoints.{endpoint_of};
ghost use Rattle.af_ops.specs.Prepared.{told_alone};
ghost use Rattle.af_ops.specs.Served.{IsServed};
ghost use Rattle.af_ops.specs.Table.{is_open, reads_only};
ghost use Rattle.af_ops.specs.Verdicts.{judged};
ghost use Rattle.af_audit.specs.Answered.{standing_of, verdict_on};

use crate::ledger::Ledger;
use crate::ledger::identifying::bearer;
use af_names::Instant;
use af_ops::{Body, CallFault, Op, Served, read_for, refused, shown_reply};
use af_policy::{Policy, Presented};
use std::alloc::Global;

impl Ledger {
    /// Answers an operation that only reads and is not open, for who holds the token, under a policy, at a moment. The verdict is
    /// that of `answer`. Where memory is out, the answers of the two may differ. The ledger is only looked at, so several threads may
    /// read it at once.
    pub fn show(
        &self,
        alloc: Global,
        policy: &Policy,
        token: Option<&Presented<'_>>,
        op: &Op,
        now: Instant,
    ) -> Served
        requires reading { reads_only (endpoint_of op.now) ≡ true }
        requires closed { is_open (endpoint_of op.now) ≡ false }
        ensures served { IsServed op.now (verdict_on policy.now self.now (option_copied token.entry) op.now now) (standing_of self.now) result (standing_of self.now) }
    {
        let under = self.under();
        match self.read(alloc, policy, token, op, now) {
            Ok(reply) => Served::Shown(shown_reply(under, reply)),
            Err(fault) => refused(alloc, op, fault, under),
        }
    }

    /// Decides an operation that only reads and is not open, for who holds the token, under a policy, and gives the body of its reply, if
    /// it has one; or why it is refused, which is yet to be told, in the order of `CallFault`.
    fn read(
        &self,
        alloc: Global,
        policy: &Policy,
        token: Option<&Presented<'_>>,
        op: &Op,
        now: Instant,
    ) -> Result<Option<Body>, CallFault>
        requires { reads_only (endpoint_of op.now) ≡ true }
        ensures { (limit : ℕ) (under : Under) → IsDecided op.now self.now.state (judged limit policy.now (record { under = under; state = self.now.state }) op.now now (bearer_of policy.now (option_copied token.entry))) (seen told_alone result) }
    {
        match bearer(policy, token) {
            Some(bearer) => read_for(alloc, &bearer.view, &self.state, op, now),
            None => Err(CallFault::Unauthenticated),
        }
    }
}
