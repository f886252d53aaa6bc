//! Reproducible pseudorandom numbers.
ghost use Rattle.std.specs.Prelude.{◌≤◌};

/// A sequence of pseudorandom words, SplitMix64 (Steele, Lea and Flood 2014).
#[derive(Clone, Copy)]
pub struct Random {
    state: u64,
}

/// Returns a word in which each bit depends on all bits of this one.
pub fn mix(word: u64) -> u64 {
    let word = (word ^ (word >> 30)).wrapping_mul(0xBF58_476D_1CE4_E5B9);
    let word = (word ^ (word >> 27)).wrapping_mul(0x94D0_49BB_1331_11EB);
    word ^ (word >> 31)
}

impl Random {
    /// Returns the sequence of a seed.
    pub fn of_seed(seed: u64) -> Random {
        Random { state: mix(seed) }
    }

    /// Returns the next word.
    pub fn word(&mut self) -> u64 {
        self.state = self.state.wrapping_add(0x9E37_79B9_7F4A_7C15);
        mix(self.state)
    }

    /// Returns a number below the bound, or 0.
    pub fn below(&mut self, bound: u32) -> u32
        ensures { result ≤ bound }
    {
        let word = (self.word() >> 32) as u32;
        if bound == 0 {
            return 0;
        }
        word % bound
    }

    /// Returns true once in so many times.
    pub fn is_one_in(&mut self, times: u32) -> bool {
        self.below(times) == 0
    }

    /// Returns the index of one of so many elements, or 0.
    pub fn index(&mut self, len: usize) -> usize {
        self.below(len.min(1000) as u32) as usize
    }
}
