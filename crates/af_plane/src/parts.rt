ghost use Rattle.std.specs.Prelude.{◌≡◌, [], IfOk};
ghost use Rattle.af_audit.specs.Ledgers as ledgers;
ghost use Rattle.af_plane.specs.Names.{IsNamed};

use crate::plane::Plane;
use af_board::{Board, OutOfMemory};
use af_policy::Policy;
use af_sched::State;
use af_tally::Keeper;
use std::alloc::Global;
use std::marker::Model;

/// What a control is made of: a board, and a plane over it on which nothing was done yet. Who has them can do nothing on the plane but take
/// it apart from the board.
pub struct Parts {
    board: Board,
    plane: Plane,
}

impl Drop for Parts {
    fn drop(self) {
        let Parts { board: _, plane: _ } = self;
    }
}

impl Model for Parts {
    ghost use Rattle.std.specs.Prelude.{◌≡◌};
    ghost use Rattle.af_audit.specs.Ledgers as ledgers;
    ghost use Rattle.af_plane.specs.Visits.{PartsRows};

    ghost Value = { PartsRows };

    ghost view = { λ parts. record { board = parts.board; plane = parts.plane } };

    ghost invariant = { λ parts. (parts.plane.pass.word ≡ parts.board.word) × (parts.plane.ledger ≡ ledgers.opened parts.plane.ledger.opening parts.plane.ledger.audit.limit) };
}

impl Parts {
    /// Opens a board with version 0 of the policy and the greatest number that a version may have, and a plane with the state and the most
    /// entries that there may be. `OutOfMemory` if an allocation failed.
    pub fn open(
        alloc: Global,
        policy: Policy,
        version_limit: u32,
        state: State,
        history_limit: u32,
    ) -> Result<Parts, OutOfMemory>
        ensures board { IfOk result (λ p. (p.board.opening ≡ policy) × (p.board.word.last ≡ version_limit)) }
        ensures plane { IfOk result (λ p. p.plane.ledger ≡ ledgers.opened state.rows history_limit) }
    {
        let (board, pass) = Board::open(alloc, policy, version_limit)?;
        let Ok((keeper, _)) = Keeper::open(alloc) else {
            return Err(OutOfMemory);
        };
        let plane = Plane::open(alloc, state, history_limit, pass, keeper);
        Ok(Parts { board, plane })
    }

    /// The board and the plane, for one thread.
    pub fn apart(self) -> (Board, Plane)
        ensures board { result.0 ≡ self.board }
        ensures plane { result.1 ≡ self.plane }
        ensures word { self.plane.pass.word ≡ self.board.word }
        ensures fresh { self.plane.ledger ≡ ledgers.opened self.plane.ledger.opening self.plane.ledger.audit.limit }
    {
        let Parts { board, plane } = self;
        (board, plane)
    }
}
