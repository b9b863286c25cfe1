//! A control and two sessions over it.
ghost use Rattle.std.specs.Prelude.{◌≡◌};
ghost use Rattle.af_plane.specs.Names.{IsOfName};

use crate::tests::plane::memory::asking::answered;
use af_names::Instant;
use af_ops::{Call, Served};
use af_plane::{Control, ControlSession, Named, Parts};
use std::alloc::Global;
use std::sync::Wait;

/// Which of the two sessions.
#[derive(Clone, Copy)]
pub enum Who {
    First,
    Second,
}

/// A control, and two sessions over it.
#[derive(Drop)]
pub struct Pair<N: Named> {
    control: Control<N>,
    first: ControlSession<N>,
    second: ControlSession<N>,
}

impl<N: Named> Pair<N> {
    pub fn open<R: Wait>(rt: &R, parts: Parts) -> Pair<N>
        requires board { parts.board ≡ N.name.site }
        requires plane { IsOfName N.name parts.plane }
    {
        let (control, issuer) = Control::<N>::of(parts);
        let first = control.session(rt, issuer.permit());
        let second = control.session(rt, issuer.permit());
        Pair {
            control,
            first,
            second,
        }
    }

    /// The last version that a session has seen, and how many entries.
    pub fn seen(&self, who: Who) -> (u32, u32) {
        match who {
            Who::First => self.first.seen(),
            Who::Second => self.second.seen(),
        }
    }

    /// What a session is told that asks this, with this token.
    pub fn answered<R: Wait>(
        &mut self,
        rt: &R,
        alloc: Global,
        who: Who,
        token: Option<&[u8]>,
        call: &Call,
        at: Instant,
    ) -> Served {
        let control = &self.control;
        let session = picked(who, &mut self.first, &mut self.second);
        answered(rt, alloc, control, session, token, call, at)
    }
}

/// Which of the two that is.
fn picked<'a, N: Named>(
    who: Who,
    first: &'a mut ControlSession<N>,
    second: &'a mut ControlSession<N>,
) -> &'a mut ControlSession<N> {
    match who {
        Who::First => first,
        Who::Second => second,
    }
}
