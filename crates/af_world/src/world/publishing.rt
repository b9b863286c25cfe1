ghost use Rattle.std.specs.Prelude.{◌≡◌, ◌<◌, Err, IfOk, IfSome, IsNone, Ok, OnErr, Some, length, if◌then◌else◌};
ghost use Rattle.std.specs.Option.{option_copied};
ghost use Rattle.af_policy.specs.Rows.{PolicyRows};
ghost use Rattle.af_policy.specs.Versions.{decided};
ghost use Rattle.af_policy.specs.declared.refusal.Refusal.{Refusal};
ghost use Rattle.af_ops.specs.PolicyFaults.{submit_problem};
ghost use Rattle.af_ops.specs.PolicyServed.{told_of};
ghost use Rattle.af_ops.specs.PolicyVerdicts.{Refuses, policy_verdict};
ghost use Rattle.af_world.specs.Moving.{move_of, stays};
ghost use Rattle.af_world.specs.Publishing.{handed_in, lost, made, meeting, overtaken, publishing};
ghost use Rattle.af_world.specs.Worlds.{has_session, policy_at};

use crate::asking::ask_policy;
use crate::world::World;
use af_ops::{PolicyOp, Shown, shown_submit_fault};
use af_policy::{Ask, Policy, Presented, Refusal};
use std::alloc::{AllocError, Global};

impl World {
    /// A session asks who brings a token, or for roles or users, under the latest version. A change does not fit.
    pub(crate) fn me(
        &mut self,
        alloc: Global,
        session: u32,
        token: Option<&[u8]>,
        asked: &PolicyOp,
    ) -> Result<Option<Shown>, AllocError>
        ensures answer { IfOk result (λ answer. move_of answer self.new ≡ meeting self.old session (option_copied token.entry) asked.now) }
        ensures err { OnErr result (self.new ≡ self.old) }
    {
        match asked {
            PolicyOp::Me | PolicyOp::Read(_) => self.decide(alloc, session, token, asked),
            PolicyOp::Change(_) | PolicyOp::Unread(_) => Ok(None),
        }
    }

    /// Decides what a session asks of the policy under the latest version.
    fn decide(
        &mut self,
        alloc: Global,
        session: u32,
        token: Option<&[u8]>,
        asked: &PolicyOp,
    ) -> Result<Option<Shown>, AllocError>
        ensures answer { IfOk result (λ answer. move_of answer self.new ≡ (if has_session self.old session then made self.old session (policy_verdict self.old.versions (option_copied token.entry) asked.now) else stays self.old)) }
        ensures err { OnErr result (self.new ≡ self.old) }
    {
        if !self.has_session(session) {
            return Ok(None);
        }
        let shown = self.make(alloc, session, token, asked)?;
        Ok(Some(shown))
    }

    /// Decides what a session that is there asks of the policy, and makes the version that it asks for.
    fn make(
        &mut self,
        alloc: Global,
        session: u32,
        token: Option<&[u8]>,
        asked: &PolicyOp,
    ) -> Result<Shown, AllocError>
        requires { session < length self.old.sessions }
        ensures shown { IfOk result (λ shown. move_of (Some shown) self.new ≡ made self.old session (policy_verdict self.old.versions (option_copied token.entry) asked.now)) }
        ensures err { OnErr result (self.new ≡ self.old) }
    {
        let shown = ask_policy(alloc, &mut self.versions, token, asked)?;
        let last = self.versions.current();
        Ok(self.tell(session, last, shown))
    }

    /// A session hands in a change that was made under a version. What is no change does not fit, nor does a version that there is not.
    pub(crate) fn publish(
        &mut self,
        alloc: Global,
        session: u32,
        at: u32,
        token: Option<&[u8]>,
        asked: &PolicyOp,
    ) -> Result<Option<Shown>, AllocError>
        ensures answer { IfOk result (λ answer. move_of answer self.new ≡ publishing self.old session at (option_copied token.entry) asked.now) }
        ensures err { OnErr result (self.new ≡ self.old) }
    {
        match asked {
            PolicyOp::Change(ask) => self.hand_in(alloc, session, at, token, ask, asked),
            // There was no memory to read it.
            PolicyOp::Unread(_) => Err(AllocError),
            PolicyOp::Me | PolicyOp::Read(_) => Ok(None),
        }
    }

    /// A change, as which it is asked for.
    fn hand_in(
        &mut self,
        alloc: Global,
        session: u32,
        at: u32,
        token: Option<&[u8]>,
        ask: &Ask,
        asked: &PolicyOp,
    ) -> Result<Option<Shown>, AllocError>
        requires { asked.now ≡ PolicyOp.Change ask.now }
        ensures answer { IfOk result (λ answer. move_of answer self.new ≡ publishing self.old session at (option_copied token.entry) (PolicyOp.Change ask.now)) }
        ensures err { OnErr result (self.new ≡ self.old) }
    {
        if !self.has_session(session) || self.versions.policy(at).is_none() {
            return Ok(None);
        }
        let last = self.versions.current();
        if at < self.seen_by(session).version {
            return Ok(Some(self.overtake(alloc, session, ask)?));
        }
        if at == last {
            return Ok(Some(self.make(alloc, session, token, asked)?));
        }
        Ok(Some(self.lose(alloc, session, at, token, ask)?))
    }

    /// Another version was made since.
    fn overtake(&mut self, alloc: Global, session: u32, ask: &Ask) -> Result<Shown, AllocError>
        requires { session < length self.old.sessions }
        ensures shown { IfOk result (λ shown. move_of (Some shown) self.new ≡ overtaken self.old session ask.now) }
        ensures err { OnErr result (self.new ≡ self.old) }
    {
        let last = self.versions.current();
        let shown = shown_submit_fault(alloc, ask, &Refusal::Moved(last), last)?;
        Ok(self.tell(session, last, shown))
    }

    /// A change under an earlier version: only a fault is told under it.
    fn lose(
        &mut self,
        alloc: Global,
        session: u32,
        at: u32,
        token: Option<&[u8]>,
        ask: &Ask,
    ) -> Result<Shown, AllocError>
        requires { session < length self.old.sessions }
        ensures shown { IfOk result (λ shown. (policy : PolicyRows) → policy_at self.old at ≡ Some policy → move_of (Some shown) self.new ≡ lost self.old session at ask.now (decided policy (option_copied token.entry) ask.now)) }
        ensures err { OnErr result (self.new ≡ self.old) }
    {
        let Some(policy) = self.versions.policy(at) else {
            return Err(AllocError);
        };
        let presented = Presented::of(token);
        match refusal(alloc, policy, presented.as_ref(), ask, at)? {
            Some(shown) => Ok(self.tell(session, at, shown)),
            None => self.overtake(alloc, session, ask),
        }
    }
}

/// What is told of a change under the policy of a version, if it is refused there.
fn refusal(
    alloc: Global,
    policy: &Policy,
    token: Option<&Presented<'_>>,
    ask: &Ask,
    version: u32,
) -> Result<Option<Shown>, AllocError>
    ensures refused { IfOk result (λ told. IfSome told (λ shown. (fault : Refusal) × (decided policy.now (option_copied token.entry) ask.now ≡ Err fault) × (told_of version (Refuses (submit_problem ask.now fault)) ≡ Some shown))) }
    ensures permitted { IfOk result (λ told. IsNone told → (later : PolicyRows) × (decided policy.now (option_copied token.entry) ask.now ≡ Ok later)) }
{
    match policy.decide(alloc, token, ask) {
        Ok(_) => Ok(None),
        Err(fault) => Ok(Some(shown_submit_fault(alloc, ask, &fault, version)?)),
    }
}
