ghost use Rattle.std.specs.Prelude.{◌≡◌, List, ℕ, Option};
ghost use Rattle.std.specs.Option.{option_copied};
ghost use Rattle.af_ops.specs.declared.call.Call.{Call};
ghost use Rattle.af_ops.specs.declared.served.Served.{Served};

use af_ops::{Call, Served};

/// What answers calls, one after another.
pub trait Service {
    /// Whether a call under this token may be answered so from the first state, leaving the second.
    ghost answers: { Self → Option (List ℕ) → Call → Served → Self → Type 0 };

    /// Answers one call for who holds the token.
    fn answer(&mut self, token: Option<&[u8]>, call: &Call) -> Served
        ensures { answers self.old (option_copied token.entry) call.now result self.new };
}
