//! Reproducible pseudorandom numbers.
ghost use Rattle.std.specs.Prelude.{◌<◌};

/// A generator; its state is the seed.
#[derive(Clone, Copy)]
pub struct Numbers {
    pub state: u64,
}

impl Numbers {
    /// The next number below the bound, which must be positive (Knuth's linear congruential generator, MMIX).
    pub fn below(&mut self, bound: u32) -> u32
        requires { 0 < bound }
        ensures { result < bound }
    {
        self.state = self
            .state
            .wrapping_mul(6_364_136_223_846_793_005)
            .wrapping_add(1_442_695_040_888_963_407);
        ((self.state >> 33) % bound as u64) as u32
    }
}
