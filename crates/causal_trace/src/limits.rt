//! The limits of a trace.
ghost use Rattle.std.specs.Prelude.{◌≡◌};
ghost use Rattle.causal_trace.specs.Limits.{listed_limit, restart_limit};

/// The maximum number of processes.
pub const MAX_PROCESSES: u16 = 256;

/// The maximum number of entries of any trace.
pub const MAX_ENTRIES: usize = 16_777_216;

/// The maximum number of determinants that the entries of any trace list in all.
pub const MAX_LISTED: usize = 268_435_456;

/// The maximum number of restarts of any trace.
pub const MAX_RESTARTS: u32 = 65_536;

/// The default maximum number of entries.
pub const DEFAULT_ENTRIES: u32 = 65_536;

/// The default maximum number of restarts.
pub const DEFAULT_RESTARTS: u32 = 192;

/// Limits that a caller sets by one number: at most `entries` entries, which list at most 16 `entries` determinants in
/// all, and of which at most [`restart_limit`](Limits::restart_limit) are restarts. [`MAX_ENTRIES`], [`MAX_LISTED`]
/// and [`MAX_RESTARTS`] apply besides.
#[derive(Clone, Copy)]
pub struct Limits {
    /// The maximum number of entries.
    pub entries: u32,
}

/// The default limits: 65,536 entries, 1,048,576 listed determinants and 192 restarts.
pub const DEFAULT_LIMITS: Limits = Limits {
    entries: DEFAULT_ENTRIES,
};

impl Limits {
    /// Returns the maximum number of listed determinants in all: 16 for each entry.
    pub fn listed_limit(self) -> u64
        ensures { result ≡ listed_limit self.entries }
    {
        u64::from(self.entries) * 16
    }

    /// Returns the maximum number of restarts: 192 up to the default number of entries, and beyond it one for each 256
    /// entries, at most [`MAX_RESTARTS`].
    #[tactic(auto, unfolding(crate::specs::Limits::restart_limit))]
    pub fn restart_limit(self) -> u32
        ensures { result ≡ restart_limit self.entries }
    {
        if self.entries <= DEFAULT_ENTRIES {
            DEFAULT_RESTARTS
        } else {
            (self.entries / 256).min(MAX_RESTARTS)
        }
    }
}
