//! A verdict with the counts of its trace.

use crate::verdict::Verdict;

/// The verdict on a trace, with its numbers of entries and deliveries.
#[derive(Clone, Copy)]
pub struct Judged {
    pub verdict: Verdict,
    pub entries: u32,
    pub deliveries: u32,
}
