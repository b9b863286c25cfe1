ghost use Rattle.std.specs.Prelude.{◌≡◌, ℕ, ◌+◌, ◌≤◌, ◌==◌, Bool, not, true, false, List, [], ◌∷◌, ◌++◌, length, take, IfOk, OnErr, MatchResult};
ghost use Rattle.std.specs.Io.KnownBytes.{Keeps, WriteAppends};
ghost use Rattle.af_http.specs.Streams.{Given, Taken, is_end, is_narrow, one_if, StaysKnown, IsWhole};

/// A read or a write that failed. Why is for the one who knows the device.
#[derive(Clone, Copy, Debug, PartialEq, Eq)]
pub struct Failed;

/// Bytes that come in pieces of any size.
pub trait Source {
    /// What reads have given so far.
    ghost given: { Self → Given };

    /// One read. It gives no byte only where it has no room or the input has ended.
    fn read(&mut self, buffer: &mut [u8]) -> Result<usize, Failed>
        ensures room { IfOk result (λ n. n ≤ length buffer.new) }
        ensures bytes { IfOk result (λ n. (given self.new).bytes ≡ (given self.old).bytes ++ take n buffer.new) }
        ensures reads { (given self.new).reads ≡ (given self.old).reads + 1 }
        ensures narrow { (given self.new).narrow ≡ (given self.old).narrow + one_if (is_narrow (length buffer.new)) }
        ensures sizes { IfOk result (λ n. (given self.new).sizes ≡ (given self.old).sizes ++ n ∷ []) }
        ensures fruitful { IfOk result (λ n. (given self.new).fruitful ≡ (given self.old).fruitful + one_if (not (n == 0))) }
        ensures ends { IfOk result (λ n. (given self.new).ends ≡ (given self.old).ends + one_if (is_end n (length buffer.new))) }
        ensures fine { IfOk result (λ n. (given self.new).failures ≡ (given self.old).failures) }
        // What is known of all that comes stays known, and has come where the input has ended.
        ensures known { StaysKnown (given self.old).whole (given self.new).whole }
        ensures whole { IfOk result (λ n. is_end n (length buffer.new) ≡ true → IsWhole (given self.new)) }
        // A read that fails gives nothing.
        ensures failed { OnErr result ((given self.new).failures ≡ (given self.old).failures + 1) }
        ensures kept { OnErr result ((given self.new).bytes ≡ (given self.old).bytes) }
        ensures none { OnErr result ((given self.new).sizes ≡ (given self.old).sizes ++ 0 ∷ []) }
        ensures idle { OnErr result ((given self.new).fruitful ≡ (given self.old).fruitful) }
        ensures open { OnErr result ((given self.new).ends ≡ (given self.old).ends) };
}

/// Where bytes go, in pieces of any size.
pub trait Sink {
    /// What writes have taken so far.
    ghost taken: { Self → Taken };

    /// One write. One that takes no byte of some counts as failed.
    fn write(&mut self, bytes: &[u8]) -> Result<usize, Failed>
        ensures room { IfOk result (λ n. n ≤ length bytes.now) }
        ensures bytes { IfOk result (λ n. (taken self.new).bytes ≡ (taken self.old).bytes ++ take n bytes.now) }
        ensures failures { IfOk result (λ n. (taken self.new).failures ≡ (taken self.old).failures + one_if (is_end n (length bytes.now))) }
        ensures refused { IfOk result (λ n. is_end n (length bytes.now) ≡ true → (taken self.new).refused ≡ bytes.now) }
        ensures stays { IfOk result (λ n. is_end n (length bytes.now) ≡ false → (taken self.new).refused ≡ (taken self.old).refused) }
        ensures held { WriteAppends (taken self.old).contents (taken self.new).contents result bytes.now }
        // A write that fails takes nothing.
        ensures failed { OnErr result ((taken self.new).failures ≡ (taken self.old).failures + 1) }
        ensures kept { OnErr result ((taken self.new).bytes ≡ (taken self.old).bytes) }
        ensures lost { OnErr result ((taken self.new).refused ≡ bytes.now) };
}
