//! The gate that each worker passes before it begins.
ghost use Rattle.std.specs.Prelude.{⊤, ℕ};

/// A gate that each worker passes once, before the first delivery of its share: it calls `enter` with its number. The
/// preparation, which comes before that, passes no gate.
///
/// `passed` is a fact that the gate guarantees of each worker that passed; it may be trivial. It holds of each worker
/// that has audited its share: so no worker has done so without passing the gate by its own number.
pub trait Gate {
    ghost passed: { Self → ℕ → Type 0 };

    /// Returns when the worker may begin.
    fn enter(&self, worker: u32)
        ensures { passed self.now worker };
}

/// A gate that each worker passes at once.
#[derive(Clone, Copy)]
pub struct OpenGate;

impl Gate for OpenGate {
    ghost passed = { λ _ _. ⊤ };

    fn enter(&self, _worker: u32) {}
}
