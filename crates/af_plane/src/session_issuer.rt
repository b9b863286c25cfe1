ghost use Rattle.std.specs.Prelude.{◌≡◌};
ghost use Rattle.af_plane.specs.Names.{IsOfName};

use crate::named::Named;
use crate::parts::Parts;
use crate::plane::Plane;
use crate::session_permit::SessionPermit;
use af_board::Board;
use std::marker::PhantomData;

/// Issues permits to open sessions of a control, which is made with it. No call takes it, so no call can open a session of its own.
#[derive(Drop)]
pub struct SessionIssuer<N: Named> {
    of: PhantomData<N>,
}

impl<N: Named> SessionIssuer<N> {
    /// The one issuer of the control that is made of these parts, and the parts.
    pub(crate) fn of(parts: Parts) -> (SessionIssuer<N>, Board, Plane)
        requires board { parts.board ≡ N.name.site }
        requires plane { IsOfName N.name parts.plane }
        ensures board { result.1 ≡ N.name.site }
        ensures plane { IsOfName N.name result.2 }
    {
        let (board, plane) = parts.apart();
        (SessionIssuer { of: PhantomData }, board, plane)
    }

    /// A permit to open one session.
    pub fn permit(&self) -> SessionPermit<N> {
        SessionPermit::of(self)
    }
}
