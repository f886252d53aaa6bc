//! When the trace read so far is audited.
ghost use Rattle.std.specs.Prelude.{◌≡◌, ℕ, ◌↔◌, IsTrue};
ghost use Rattle.causal_workers.specs.Streaming.{IsLook};

use causal_text::lines::split_complete;
use std::rt::Clock;
use std::time::{Duration, Instant};

/// When the trace read so far is audited.
#[derive(Clone, Copy)]
pub enum Looks {
    /// At each checkpoint: at 1, 2, 4, 8 .. entries.
    Checkpoints,
    /// At each checkpoint, and at the last line of a piece that comes a second or more after the last audit by time, and no
    /// sooner after it than it took. Without a clock, at each checkpoint alone.
    Live,
}

impl Looks {
    /// Returns whether a trace of this many entries is audited.
    pub(crate) fn has(self, entries: u32) -> bool
        ensures { IsTrue result ↔ IsLook self entries }
    {
        match self {
            Looks::Checkpoints => entries.is_power_of_two(),
            Looks::Live => true,
        }
    }

    /// Returns this value if no line follows in the rest of a piece; before other lines, audits are at checkpoints alone.
    pub(crate) fn before(self, rest: &[u8]) -> Looks
        ensures { (entries : ℕ) → IsLook result entries → IsLook self entries }
    {
        match (self, split_complete(rest)) {
            (Looks::Live, None) => Looks::Live,
            _ => Looks::Checkpoints,
        }
    }
}

/// Decides when a live run is audited between checkpoints.
#[derive(Clone, Copy)]
pub(crate) struct LookTimer {
    pub looks: Looks,
    /// When the last audit by time ended. None if the clock failed then.
    last: Option<Instant>,
    /// How long no audit by time follows it.
    pause: Duration,
}

impl LookTimer {
    /// Starts a timer, as if an audit by time had just ended.
    pub(crate) fn start<R: Clock>(rt: &R, looks: Looks) -> LookTimer
        ensures { result.looks ≡ looks }
    {
        LookTimer {
            looks,
            last: Instant::now(rt).ok(),
            pause: Duration::from_secs(1),
        }
    }

    /// Returns the present time if an audit is due at the last line of this piece.
    pub(crate) fn due<R: Clock>(&self, rt: &R, piece: &[u8]) -> Option<Instant> {
        let (Looks::Live, Some(last)) = (self.looks, self.last) else {
            return None;
        };
        if split_complete(piece).is_none() {
            return None;
        }
        match Instant::now(rt) {
            Ok(now) if now.duration_since(last) >= self.pause => Some(now),
            _ => None,
        }
    }

    /// Notes that an audit by time that began then has just ended.
    pub(crate) fn note_look<R: Clock>(&mut self, rt: &R, began: Instant)
        ensures { self.new.looks ≡ self.old.looks }
    {
        let second = Duration::from_secs(1);
        self.last = None;
        if let Ok(now) = Instant::now(rt) {
            let took = now.duration_since(began);
            self.last = Some(now);
            self.pause = if took > second { took } else { second };
        }
    }
}
