//! The value that explains how a delivery comes to have an orphan. Positions are those of entries, from 0; instant t is
//! the state after the first t entries.
use causal_facts::{DownProcess, Holding, Loss};
use causal_holders::Holders;
use causal_name::Det;

/// How a delivery comes to have an orphan at an instant.
#[derive(Drop)]
pub struct Explanation {
    /// The position of the delivery.
    pub delivery: u32,
    /// Its determinant, which is not stable at the instant.
    pub det: Det,
    pub instant: u32,
    /// The crash set for which the delivery has the orphan.
    pub crash: Holders,
    /// The process that is the orphan.
    pub orphan: u8,
    /// The processes that hold the determinant at the instant, ascending.
    pub holders: Vec<Holding>,
    /// The processes that held it at an earlier instant and do not at this one, ascending.
    pub losses: Vec<Loss>,
    /// The processes that are down at the instant, ascending.
    pub down: Vec<DownProcess>,
    /// Positions of sends and deliveries, from the delivery to an event of the orphan's present lane (incarnation).
    /// Each directly precedes the next, and no such list is shorter.
    pub chain: Vec<u32>,
    /// The first delivery on the chain after which its receiver's log lacks the determinant, if there is one.
    pub unlisted: Option<u32>,
    /// The first delivery after the instant that lists the determinant, by a process that did not hold it at the
    /// instant, of a message then in transit that a holder had sent before the message of `unlisted`; if there is one.
    pub underway: Option<u32>,
}
