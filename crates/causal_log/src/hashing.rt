//! How keys are hashed: by the library's hasher, after it has hashed a seed.
use std::hash::{BuildHasher, FoldHasher, Hasher};

/// Makes hashers that begin with a seed. A caller who does not know it cannot pick keys whose hashes collide.
#[derive(Clone, Copy)]
pub(crate) struct SeededState {
    hasher: FoldHasher,
}

impl SeededState {
    pub(crate) fn new(seed: u64) -> SeededState {
        let mut hasher = FoldHasher::default();
        hasher.write_u64(seed);
        SeededState { hasher }
    }
}

impl BuildHasher for SeededState {
    type Hasher = FoldHasher;

    ghost build_hasher = { λ s. s.hasher };

    fn build_hasher(&self) -> FoldHasher {
        self.hasher
    }
}
