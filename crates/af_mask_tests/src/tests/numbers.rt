//! Numbers in an order without rule, the same in each run: a linear congruential generator, with Knuth's multiplier for 64 bits.
ghost use Rattle.std.specs.Prelude.{◌<◌};

/// The numbers, of which the next is to come.
#[derive(Drop)]
pub struct Numbers {
    state: u64,
}

impl Numbers {
    /// The numbers from the first on.
    pub fn new() -> Numbers {
        Numbers { state: 1 }
    }

    /// The next number, below a bound.
    pub fn below(&mut self, bound: usize) -> usize
        requires { 0 < bound }
        ensures { result < bound }
    {
        self.state = self
            .state
            .wrapping_mul(6_364_136_223_846_793_005)
            .wrapping_add(1_442_695_040_888_963_407);
        (self.state >> 33) as usize % bound
    }

    /// Whether the next number is even.
    pub fn is_even(&mut self) -> bool {
        self.below(2) == 0
    }
}
