ghost use Rattle.std.specs.Prelude.{◌≡◌, Some};
ghost use Rattle.std.specs.Option.{option_copied};
ghost use Rattle.af_policy.specs.Identity.{bearer_of};
ghost use Rattle.af_policy.specs.Views.{held};
ghost use Rattle.af_ops.specs.Served.{IsServed};
ghost use Rattle.af_ops.specs.Verdicts.{granted_verdict};
ghost use Rattle.af_audit.specs.Answered.{IsPerformed, MayEnter, closed_verdict, standing_of, verdict_on};

use crate::ledger::Ledger;
use crate::ledger::identifying::bearer;
use crate::ledger::recording::record;
use crate::replaying::show_state;
use af_names::{Instant, UserName};
use af_ops::{
    CallFault, Op, Served, Shown, Under, commit, decide_for, openly, refused, route_of, shown_reply,
};
use af_policy::{Policy, Presented, View};
use std::alloc::Global;

impl Ledger {
    /// Answers an operation for who holds the token, under a policy, at a moment, and does what it changes. Where the state changes
    /// there is one entry, of that user, under the ledger's version; what is denied or refused adds none. All memory is taken before
    /// anything is done, that of the reply too. No clause says that a full history is reported before out of memory.
    pub fn answer(
        &mut self,
        alloc: Global,
        policy: &Policy,
        token: Option<&Presented<'_>>,
        op: &Op,
        now: Instant,
    ) -> Served
        ensures served { IsServed op.now (verdict_on policy.now self.old (option_copied token.entry) op.now now) (standing_of self.old) result (standing_of self.new) }
        ensures entry { MayEnter (bearer_of policy.now (option_copied token.entry)) op.now now self.old self.new }
    {
        let under = self.under();
        if route_of(op.endpoint()).is_open {
            return openly(alloc, &mut self.state, under, op, now);
        }
        match self.perform(alloc, policy, token, op, now) {
            Ok(shown) => Served::Shown(shown),
            Err(fault) => refused(alloc, op, fault, under),
        }
    }

    /// Does an operation that is not open for who holds the token, under a policy, at a moment, and gives what is to be told; or why it is
    /// refused, which is yet to be told. The reasons are given in the order of `CallFault`. `OutOfMemory` comes last: where a growth was refused and no other
    /// reason applies, but that a full history is told with memory alone of what clears instances. After a refusal the ledger is as before.
    pub fn perform(
        &mut self,
        alloc: Global,
        policy: &Policy,
        token: Option<&Presented<'_>>,
        op: &Op,
        now: Instant,
    ) -> Result<Shown, CallFault>
        ensures performed { IsPerformed op.now (closed_verdict policy.now self.old (option_copied token.entry) op.now now) (standing_of self.old) result (standing_of self.new) }
        ensures entry { MayEnter (bearer_of policy.now (option_copied token.entry)) op.now now self.old self.new }
    {
        match bearer(policy, token) {
            Some(bearer) => self.judged(alloc, &bearer.view, bearer.user, op, now),
            None => Err(CallFault::Unauthenticated),
        }
    }

    /// The policy version, and the number of entries.
    pub fn under(&self) -> Under
        ensures { result ≡ (standing_of self.now).under }
    {
        Under {
            version: self.version,
            seq: self.audit.count(),
        }
    }

    /// Does what a user asks whom a policy grants this, as `perform` does.
    fn judged(
        &mut self,
        alloc: Global,
        view: &View<'_>,
        user: &UserName,
        op: &Op,
        now: Instant,
    ) -> Result<Shown, CallFault>
        ensures performed { IsPerformed op.now (granted_verdict self.old.audit.limit (held view.now) (standing_of self.old) op.now now) (standing_of self.old) result (standing_of self.new) }
        ensures entry { MayEnter (Some user.now) op.now now self.old self.new }
    {
        let under = self.under();
        let limit = self.audit.limit();
        let prepared = match decide_for(alloc, view, &mut self.state, under, limit, op, now) {
            Ok(prepared) => prepared,
            Err(fault) => return Err(fault),
        };
        if !prepared.changes() {
            let told = commit(&mut self.state, prepared);
            return Ok(shown_reply(under, told));
        }
        if let Err(fault) = record(alloc, &mut self.audit, user, self.version, op, now) {
            return Err(CallFault::Op(fault));
        }
        let counted = Under {
            seq: self.audit.count(),
            ..under
        };
        let reply = commit(&mut self.state, prepared);
        show_state(&self.state);
        Ok(shown_reply(counted, reply))
    }
}
