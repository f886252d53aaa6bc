//! How safe a determinant is during an interval of instants.
ghost use Rattle.std.specs.Prelude.{◌≡◌, true};

/// The safety of a determinant that is not stable.
#[derive(Clone, Copy)]
pub enum DetSafety {
    /// More processes are down or hold it than may crash, or all that its receiver reaches are down or hold it.
    Safe,
    /// At risk: so few processes are down or hold it that all of them may crash. Its receiver is one of them.
    AtRisk,
    /// At risk: so few processes are down or hold it, and its receiver is not known to be one of them.
    AtRiskWithoutReceiver,
}

impl DetSafety {
    ghost use Rattle.causal_audit.specs.declared.safety_scan.det_safety.DetSafety.TheVariants.{Safe};

    /// Returns whether the determinant is safe.
    pub fn is_safe(self) -> bool
        ensures { result ≡ true → self ≡ Safe }
    {
        matches!(self, DetSafety::Safe)
    }
}

/// The instants from `first` to `last`, and a lower bound of the determinant's safety at these.
#[derive(Clone, Copy)]
pub struct SafetyInterval {
    pub first: u32,
    pub last: u32,
    pub safety: DetSafety,
}
