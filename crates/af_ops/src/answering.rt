ghost use Rattle.std.specs.Prelude.{◌≡◌, false};
ghost use Rattle.af_ops.specs.Decisions.{fault_verdict};
ghost use Rattle.af_ops.specs.Effects.{effect_of, nothing_readable};
ghost use Rattle.af_ops.specs.Served.{IsServed, reply_told, status_of, told_openly};
ghost use Rattle.af_ops.specs.Verdicts.{opened};
ghost use Rattle.af_sched.specs.State.{StateRows};

use crate::answer::{CallFault, Under};
use crate::body::Body;
use crate::nobody::Nobody;
use crate::op::Op;
use crate::preparing::prepare;
use crate::served::Served;
use crate::shown_answer::Shown;
use crate::status::Status;
use crate::telling::shown_fault;
use af_names::Instant;
use af_sched::State;
use std::alloc::Global;

/// Answers an operation that anybody may ask for, which changes nothing.
pub fn openly(alloc: Global, state: &mut State, under: Under, op: &Op, now: Instant) -> Served
    ensures served { IsServed op.now (opened (effect_of nothing_readable state.old.rows op.now now))
        (record { under = under; state = state.old.rows }) result (record { under = under; state = state.new.rows }) }
    ensures rows { state.new.rows ≡ state.old.rows }
{
    match prepare(alloc, state, op, &Nobody, now) {
        Ok(prepared) => Served::Shown(shown_openly(prepared.into_reply())),
        Err(fault) => refused(alloc, op, CallFault::Op(fault), under),
    }
}

/// Tells a fault, after which the server stands as before.
pub fn refused(alloc: Global, op: &Op, fault: CallFault, under: Under) -> Served
    ensures served { (state : StateRows) → IsServed op.now (fault_verdict fault) (record { under = under; state = state }) result (record { under = under; state = state }) }
{
    match shown_fault(alloc, op, fault, under) {
        Ok(shown) => Served::Shown(shown),
        Err(_) => Served::NothingDone,
    }
}

/// What is told under no policy.
fn shown_openly(reply: Option<Body>) -> Shown
    ensures { result ≡ told_openly reply }
{
    Shown {
        status: status_of(&reply),
        version: None,
        seq: None,
        body: reply,
    }
}

/// What is told of what is done, under a policy version.
pub fn shown_reply(under: Under, reply: Option<Body>) -> Shown
    ensures { result ≡ reply_told under reply }
{
    Shown {
        status: status_of(&reply),
        version: Some(under.version),
        seq: Some(under.seq),
        body: reply,
    }
}

/// The status of a reply.
pub(crate) fn status_of(reply: &Option<Body>) -> Status
    ensures { result ≡ status_of reply.now }
{
    match reply {
        Some(_) => Status::Ok,
        None => Status::NoContent,
    }
}
