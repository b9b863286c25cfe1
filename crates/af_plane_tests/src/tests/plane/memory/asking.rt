//! What a session of a control is told, where each call is decided where its data live.
ghost use Rattle.af_plane.specs.Turns.{IsOfPlane};

use af_audit::Presented;
use af_names::Instant;
use af_ops::{Call, PolicyOp, Served};
use af_plane::{Control, ControlSession, Named, Request};
use std::alloc::Global;
use std::sync::Wait;

/// What a session is told that asks this, with this token, at a moment.
pub fn answered<N: Named, R: Wait>(
    rt: &R,
    alloc: Global,
    control: &Control<N>,
    session: &mut ControlSession<N>,
    token: Option<&[u8]>,
    call: &Call,
    at: Instant,
) -> Served {
    match call {
        Call::Policy(asked) => administered(rt, alloc, control, session, token, asked),
        Call::State(_) | Call::Entries(_) => turned(rt, alloc, control, session, token, call, at),
    }
}

/// What is told on the plane.
fn turned<N: Named, R: Wait>(
    rt: &R,
    alloc: Global,
    control: &Control<N>,
    session: &mut ControlSession<N>,
    token: Option<&[u8]>,
    call: &Call,
    at: Instant,
) -> Served
    requires { IsOfPlane call.now }
{
    let presented = Presented::of(token);
    let request = Request {
        token: presented.as_ref(),
        call,
        at,
    };
    control.call(rt, alloc, session, &request)
}

/// What is told on the board.
fn administered<N: Named, R: Wait>(
    rt: &R,
    alloc: Global,
    control: &Control<N>,
    session: &mut ControlSession<N>,
    token: Option<&[u8]>,
    asked: &PolicyOp,
) -> Served {
    let presented = Presented::of(token);
    let token = presented.as_ref();
    match asked {
        PolicyOp::Me => control.me(alloc, session, token),
        PolicyOp::Read(asked) => control.read(alloc, session, token, asked),
        PolicyOp::Unread(kind) => control.unread(alloc, session, token, *kind),
        PolicyOp::Change(ask) => control.submit(rt, alloc, session, token, ask),
    }
}
