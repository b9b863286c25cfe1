ghost use Rattle.std.specs.Prelude.{◌≡◌, IfOk, OnErr};
ghost use Rattle.std.specs.Option.{option_copied};
ghost use Rattle.af_world.specs.Acting.{acting, holds};
ghost use Rattle.af_world.specs.Moving.{move_of};

use crate::asking::{ask_logs, ask_op};
use crate::world::World;
use af_listing::Window;
use af_names::Instant;
use af_ops::{Call, Op, Shown, route_of};
use af_policy::Parameter;
use std::alloc::{AllocError, Global};

impl World {
    /// A session that holds the plane asks for something that is decided there, under the policy of the plane's version; then nobody
    /// holds the plane. Where there was no memory the world is as before.
    pub(crate) fn act(
        &mut self,
        alloc: Global,
        session: u32,
        token: Option<&[u8]>,
        call: &Call,
        now: Instant,
    ) -> Result<Option<Shown>, AllocError>
        ensures answer { IfOk result (λ answer. move_of answer self.new ≡ acting self.old session (option_copied token.entry) call.now now) }
        ensures err { OnErr result (self.new ≡ self.old) }
    {
        match call {
            Call::State(op) => self.act_on_state(alloc, session, token, op, now),
            Call::Entries(window) => self.list_entries(alloc, session, token, window, now),
            Call::Policy(_) => Ok(None),
        }
    }

    /// An operation on the state. An open one does not fit.
    fn act_on_state(
        &mut self,
        alloc: Global,
        session: u32,
        token: Option<&[u8]>,
        op: &Op,
        now: Instant,
    ) -> Result<Option<Shown>, AllocError>
        ensures answer { IfOk result (λ answer. move_of answer self.new ≡ acting self.old session (option_copied token.entry) (Call.State op.now) now) }
        ensures err { OnErr result (self.new ≡ self.old) }
    {
        if !self.holds(session) || route_of(op.endpoint()).is_open {
            return Ok(None);
        }
        let Some(policy) = self.versions.policy(self.ledger.version()) else {
            return Ok(None);
        };
        let shown = ask_op(alloc, &mut self.ledger, policy, token, op, now)?;
        self.holder = None;
        self.sees_entries(session);
        Ok(Some(shown))
    }

    /// A page of the event logs.
    fn list_entries(
        &mut self,
        alloc: Global,
        session: u32,
        token: Option<&[u8]>,
        window: &Result<Window, Parameter>,
        now: Instant,
    ) -> Result<Option<Shown>, AllocError>
        ensures answer { IfOk result (λ answer. move_of answer self.new ≡ acting self.old session (option_copied token.entry) (Call.Entries window.now) now) }
        ensures err { OnErr result (self.new ≡ self.old) }
    {
        let _now = now;
        if !self.holds(session) {
            return Ok(None);
        }
        let Some(policy) = self.versions.policy(self.ledger.version()) else {
            return Ok(None);
        };
        let shown = ask_logs(alloc, &self.ledger, policy, token, window)?;
        self.holder = None;
        self.sees_entries(session);
        Ok(Some(shown))
    }

    /// Whether there is the session, and it holds the plane.
    fn holds(&self, session: u32) -> bool
        ensures { result ≡ holds self.now session }
    {
        self.has_session(session) && self.is_held(session)
    }
}
