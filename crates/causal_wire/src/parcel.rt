//! What processes send each other.
use causal_holders::Holders;
use causal_name::{Det, Pid};

/// The run that a parcel belongs to. All processes of a run have the same value of this type.
#[derive(Clone, Copy, Debug, PartialEq, Eq)]
pub struct RunId {
    /// A number that no other run has.
    pub id: u64,
    /// The number of processes.
    pub processes: u16,
    /// The number of simultaneous failures that the run tolerates.
    pub f: u16,
}

/// The source, the destination, the lane and the clock of a parcel.
#[derive(Clone, Copy, Debug, PartialEq, Eq)]
pub struct Head {
    pub source: Pid,
    pub dest: Pid,
    /// The source's lane (incarnation); of a process that is not up, its next lane.
    pub lane: u32,
    /// The source's clock at the sending, in the embedder's units, below 2^62.
    pub clock: u64,
}

/// A determinant that the source of a parcel holds, with the other processes that the source knows to hold it.
#[derive(Clone, Copy)]
pub struct ParcelItem {
    pub det: Det,
    /// The known holders besides the source.
    pub others: Holders,
}

/// A log entry: what the source of a parcel knows of a determinant that it holds.
#[derive(Clone, Copy)]
pub struct LogEntry {
    pub item: ParcelItem,
    /// Whether the source knows the determinant to be in stable storage.
    pub stable: bool,
}

/// What a parcel contains besides its head.
#[derive(Drop)]
pub enum Content {
    /// The source's lane sends its message number `ssn`; the items are its piggyback, by ascending determinant.
    Message {
        ssn: u32,
        items: Vec<ParcelItem>,
        body: Vec<u8>,
    },
    /// The source holds these determinants, in ascending order.
    Acknowledgement {
        items: Vec<ParcelItem>,
    },
    /// The source, which is not up, begins this round. The view has the number of each process, in their order: its
    /// lane, or its next lane if the source knows that it is not up.
    Question {
        round: u64,
        view: Vec<u32>,
    },
    /// The source is up and replies to this round with its whole log, by ascending determinant.
    Answer {
        round: u64,
        entries: Vec<LogEntry>,
    },
    /// The view of this round has a wrong number for the source; the head's lane is the right one.
    OwnNumber {
        round: u64,
    },
    /// The source is not up, and abandons its own round, if it has one.
    NotUp {
        round: u64,
    },
}

/// What one process sends another.
#[derive(Drop)]
pub struct Parcel {
    pub head: Head,
    pub content: Content,
}
