//! The value that names a slot with two different survivors.
use causal_name::Slot;

/// A slot with two different determinants that survive at an instant.
#[derive(Clone, Copy, Debug, PartialEq, Eq)]
pub struct Stray {
    /// The first instant with such a slot.
    pub instant: u32,
    /// The least such slot of that instant, by receiver, then receive sequence number.
    pub slot: Slot,
    /// The position of the first delivery with a survivor of this slot.
    pub first: u32,
    /// The position of the first delivery with another survivor of this slot.
    pub second: u32,
}
