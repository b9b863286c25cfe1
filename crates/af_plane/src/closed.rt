ghost use Rattle.std.specs.Prelude.{◌≡◌};
ghost use Rattle.af_plane.specs.Closings.{HasTakenIn, IsOfControl, IsWithin};
ghost use Rattle.af_plane.specs.Names.{IsNamed};

use crate::control_session::Locked;
use crate::ended_session::EndedSession;
use crate::named::Named;
use crate::plane::Plane;
use af_board::Board;
use std::marker::Model;

/// What is left of a control that no thread shares any more: its board, and the plane. It takes in the sessions that are over. Contracts see the
/// plane.
pub struct Closed<N: Named> {
    board: Board,
    locked: Locked<N>,
    ghost board_is: { board ≡ N.name.site },
}

impl<N: Named> Drop for Closed<N> {
    fn drop(self) {
        let Closed {
            board: _,
            locked: _,
        } = self;
    }
}

impl<N: Named> Model for Closed<N> {
    ghost use Rattle.af_plane.specs.Visits.{PlaneRows};

    ghost Value = { PlaneRows };

    ghost view = { λ closed. closed.locked.plane };
}

impl<N: Named> Closed<N> {
    /// This board, and the plane that was behind the lock.
    pub(crate) fn of(board: Board, locked: Locked<N>) -> Closed<N>
        requires { board ≡ N.name.site }
        ensures { result ≡ locked.plane }
    {
        Closed { board, locked }
    }

    /// Takes in a session of the control that is over. What the session had seen, of the versions and of the entries, begins what the plane has
    /// then seen.
    pub fn take_in(&mut self, session: &mut EndedSession)
        requires { IsOfControl N.name session.old }
        ensures same { session.new ≡ session.old }
        ensures within { IsWithin self.new session.old.visit }
        ensures taken { HasTakenIn self.old self.new }
    {
        self.locked.take_in(&self.board, session);
    }

    /// The plane. It is still the one that the name means, and its state is the replay of its entries.
    pub fn into_plane(self) -> Plane
        ensures plane { result ≡ self }
        ensures named { IsNamed N.name result }
    {
        let Closed { board: _, locked } = self;
        locked.into_plane()
    }
}
