// The state that a ledger was opened with, of which nothing is kept at run time: proofs alone read it.
ghost use Rattle.std.specs.Prelude.{◌≡◌};
ghost use Rattle.std.specs.Borrow.{ftrue};
ghost use Rattle.af_sched.specs.State.{StateRows};

use af_sched::State;
use std::marker::Model;

/// The rows of a state as they were at one time. It has no bytes and owns nothing, so no copy is made.
pub(crate) struct OpeningState {
    pub ghost rows: { StateRows },
}

impl Drop for OpeningState {
    fn drop(self) {
        let OpeningState {} = self;
    }
}

impl Model for OpeningState {
    ghost also_owns = { λ _. ftrue };
}

// A struct with `also_owns` has neither by itself; this one owns nothing.
unsafe impl Send for OpeningState {}

unsafe impl Sync for OpeningState {}

impl OpeningState {
    /// The rows of this state as they are now.
    pub(crate) fn of(_state: &State) -> OpeningState
        ensures { result.rows ≡ _state.now.rows }
    {
        OpeningState {}
    }
}
