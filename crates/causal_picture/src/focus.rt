//! What a picture shows besides the run.
use causal_holders::Holders;

/// A delivery that has an orphan.
#[derive(Clone, Copy)]
pub struct Orphan {
    /// The orphan.
    pub process: u8,
    /// The position of the delivery.
    pub delivery: u32,
    /// The processes that hold its determinant at the instant.
    pub holders: Holders,
}

/// How long a process's volatile log contains the determinant: from the entry at a position on, to the entry at another;
/// if there is none, to the instant.
#[derive(Clone, Copy)]
pub struct Band {
    pub process: u8,
    pub from: u32,
    pub to: Option<u32>,
}

/// What a picture shows besides the run: the instant, as a vertical line; a crash set, with shaded lines; a chain of
/// entries, by their positions, as a thick line, possibly empty; an orphan and the holders, as glyphs at the instant;
/// and bands along the lines of processes. An instant after the last means the last. Processes of the sets that are not
/// in the run, and entries of the chain that the picture hides, are not shown. A band, or the instant, is at the cut if
/// its entry is hidden.
#[derive(Clone, Copy)]
pub struct Focus<'a> {
    pub instant: u32,
    pub crash: Holders,
    pub chain: &'a [u32],
    pub orphan: Option<Orphan>,
    pub bands: &'a [Band],
}
