//! What a handle of nixu.h does: it owns one value in its box, or nothing.
ghost use Rattle.std.specs.Prelude.{◌≡◌, ◌⊎◌, ◌↔◌, IsTrue, IsSome, Option, Some, None, option_map};
ghost use Rattle.nixu_boundary.specs.Handles.{count_of};

use crate::owned::Owned;
use crate::status::{NO_MEMORY, OK};
use std::alloc::Global;

/// A handle: one value in its box if it is open, nothing if it is closed.
pub trait ContentOwner {
    type Payload: Drop;

    ghost content: { Self → Option Self.Payload };

    /// Returns whether something is open.
    fn is_open(&self) -> bool
        ensures { IsTrue result ↔ IsSome (content self.now) };

    /// Puts `next` in the place of what was owned, and returns that. `full` is 1 if `next` has a value, else 0.
    fn replace(
        &mut self,
        next: Owned<Self::Payload, Global>,
        full: u32,
    ) -> Owned<Self::Payload, Global>
        requires { full ≡ count_of next.value }
        ensures given { result.value ≡ content self.old }
        ensures left { content self.new ≡ next.value };

    /// Returns what was open, if anything, and leaves the handle closed.
    final fn take(&mut self, alloc: Global) -> Option<Box<Self::Payload>>
        ensures given { option_map (λ b. b.value) result ≡ content self.old }
        ensures left { content self.new ≡ None }
    {
        if !self.is_open() {
            return None;
        }
        Some(self.replace(Owned::none(alloc), 0).into_box())
    }

    /// Closes the handle and frees what was open.
    final fn close(&mut self, alloc: Global)
        ensures { content self.new ≡ None }
    {
        if let Some(kept) = self.take(alloc) {
            drop(kept);
        }
    }

    /// Opens a closed handle with this box.
    final fn fill(&mut self, kept: Box<Self::Payload>)
        requires { content self.old ≡ None }
        ensures { content self.new ≡ Some kept.value }
    {
        self.replace(Owned::of(kept), 1);
    }

    /// Opens a closed handle with this value, in a new box.
    ///
    /// Returns [`OK`]; or [`NO_MEMORY`], and the handle stays closed.
    final fn keep(&mut self, alloc: Global, kept: Self::Payload) -> u32
        requires { content self.old ≡ None }
        ensures ok { result ≡ OK → content self.new ≡ Some kept }
        ensures kept { result ≡ NO_MEMORY → content self.new ≡ None }
        ensures status { (result ≡ OK) ⊎ (result ≡ NO_MEMORY) }
    {
        match Box::new(alloc, kept) {
            Ok(made) => {
                self.fill(made);
                OK
            }
            Err(_) => NO_MEMORY,
        }
    }
}
