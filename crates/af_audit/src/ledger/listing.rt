ghost use Rattle.std.specs.Prelude.{◌≡◌};
ghost use Rattle.std.specs.Option.{option_copied};
ghost use Rattle.af_policy.specs.Views.{held};
ghost use Rattle.af_ops.specs.Served.{IsServed};
ghost use Rattle.af_audit.specs.Answered.{IsPerformed, standing_of};
ghost use Rattle.af_audit.specs.EventLogs.{entries_granted, entries_verdict, nameless};

use crate::event_logs::entries_text;
use crate::ledger::Ledger;
use crate::ledger::identifying::bearer;
use af_listing::Window;
use af_ops::{Body, CallFault, Endpoint, Op, OpFault, Served, Shown, needs, refused, shown_reply};
use af_policy::{Parameter, Policy, Presented, View};
use std::alloc::Global;

impl Ledger {
    /// Tells who holds the token a page of the event logs, under a policy: of the entries that name a DAG which the user reads, and
    /// of those that name none. Nothing is changed. The errors are reported in this order: nobody has the token, a permission is missing, a
    /// parameter is not a number. No clause says that out of memory comes after these.
    pub fn entries(
        &self,
        alloc: Global,
        policy: &Policy,
        token: Option<&Presented<'_>>,
        asked: &Result<Window, Parameter>,
    ) -> Served
        ensures served { IsServed nameless (entries_verdict policy.now self.now (option_copied token.entry) asked.now) (standing_of self.now) result (standing_of self.now) }
    {
        match self.read_entries(alloc, policy, token, asked) {
            Ok(shown) => Served::Shown(shown),
            Err(fault) => refused(alloc, &nameless(), fault, self.under()),
        }
    }

    /// Reads a page of the event logs for who holds the token, under a policy, and gives what is to be told; or why it is refused, which
    /// is yet to be told, by the order of `entries`. `OutOfMemory` where a growth was refused and no other reason applies.
    pub fn read_entries(
        &self,
        alloc: Global,
        policy: &Policy,
        token: Option<&Presented<'_>>,
        asked: &Result<Window, Parameter>,
    ) -> Result<Shown, CallFault>
        ensures { IsPerformed nameless (entries_verdict policy.now self.now (option_copied token.entry) asked.now) (standing_of self.now) result (standing_of self.now) }
    {
        match bearer(policy, token) {
            Some(bearer) => self.entries_for(alloc, &bearer.view, asked),
            None => Err(CallFault::Unauthenticated),
        }
    }

    /// Reads a page of the event logs for a user whom a policy grants this.
    fn entries_for(
        &self,
        alloc: Global,
        view: &View<'_>,
        asked: &Result<Window, Parameter>,
    ) -> Result<Shown, CallFault>
        ensures { IsPerformed nameless (entries_granted (held view.now) self.now asked.now) (standing_of self.now) result (standing_of self.now) }
    {
        let needs = needs(Endpoint::ListEntries);
        if let Some(need) = view.missing(needs, None, self.state.dags()) {
            return Err(CallFault::Denied(need));
        }
        let window = match asked {
            Ok(window) => *window,
            Err(parameter) => return Err(CallFault::Op(OpFault::BadParameter(*parameter))),
        };
        match entries_text(alloc, self.audit.entries(), view, window) {
            Ok(text) => Ok(shown_reply(self.under(), Some(Body::of(text)))),
            Err(_) => Err(CallFault::Op(OpFault::OutOfMemory)),
        }
    }
}

/// An operation that names nothing.
fn nameless() -> Op
    ensures { result ≡ nameless }
{
    Op::Version
}
