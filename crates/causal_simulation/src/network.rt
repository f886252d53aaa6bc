//! What is under way: between processes, to storage and from it.
use crate::random::Random;
use causal_name::{Det, NoMemory};
use std::alloc::Global;

/// More packets are never under way: one that comes on top is lost.
const MOST: usize = 80;

/// One thing that is under way.
#[derive(Drop)]
pub enum SimulatedPacket {
    /// The bytes of a parcel for a process.
    Parcel {
        to: u8,
        bytes: Vec<u8>,
    },
    /// A process has come up, or lacks messages: what was sent to it is to be sent again.
    Hello {
        to: u8,
        from: u8,
    },
    /// The report to a process that gathers that another one has ended.
    Ended {
        to: u8,
        round: u64,
        end: ProcessEnd,
    },
    /// A process writes to storage.
    Write {
        from: u8,
        lane: u32,
        clock: u64,
        dets: Vec<Det>,
    },
    /// Storage has committed a write.
    Committed {
        to: u8,
        lane: u32,
        dets: Vec<Det>,
    },
    /// A process reads storage, which refuses from then on writes from lanes below the view.
    Read {
        from: u8,
        round: u64,
        view: Vec<u32>,
    },
    /// Storage has these determinants.
    Has {
        to: u8,
        round: u64,
        clock: u64,
        dets: Vec<Det>,
    },
}

/// The end of a process, as who has seen it reports it.
#[derive(Clone, Copy)]
pub struct ProcessEnd {
    pub who: u8,
    /// The next lane.
    pub number: u32,
    /// The clock of the crash.
    pub clock: u64,
}

/// The packets that are under way.
#[derive(Drop)]
pub struct SimulatedNetwork {
    packets: Vec<SimulatedPacket>,
}

impl SimulatedNetwork {
    /// Returns an empty network.
    pub fn new(alloc: Global) -> SimulatedNetwork {
        SimulatedNetwork {
            packets: Vec::new(alloc),
        }
    }

    /// Returns how many packets are under way.
    pub fn len(&self) -> usize {
        self.packets.len()
    }

    /// Adds a packet, unless too many are under way.
    pub fn add(&mut self, packet: SimulatedPacket) -> Result<(), NoMemory> {
        if self.packets.len() < MOST {
            self.packets.push(packet)?;
        }
        Ok(())
    }

    /// Adds a packet as if it were as old as another one, unless too many are under way.
    pub fn delay(&mut self, random: &mut Random, packet: SimulatedPacket) -> Result<(), NoMemory> {
        let last = self.packets.len();
        if last < MOST {
            let at = random.index(last);
            self.packets.push(packet)?;
            if at < last {
                self.packets.swap(at, last);
            }
        }
        Ok(())
    }

    /// Removes a packet, if there is one: the newest half of the time, else one by chance.
    pub fn take(&mut self, random: &mut Random) -> Option<SimulatedPacket> {
        if random.is_one_in(2) {
            return self.packets.pop();
        }
        let at = random.index(self.packets.len());
        if at < self.packets.len() {
            return Some(self.packets.swap_remove(at));
        }
        None
    }

    /// Removes all packets.
    pub fn take_all(&mut self, alloc: Global) -> Vec<SimulatedPacket> {
        std::mem::replace(&mut self.packets, Vec::new(alloc))
    }
}
