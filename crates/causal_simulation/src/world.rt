//! What surrounds the processes.
use crate::books::Books;
use crate::broken::alter;
use crate::network::{ProcessEnd, SimulatedNetwork, SimulatedPacket};
use crate::random::Random;
use crate::recording::RunRecordings;
use crate::settings::{Rule, Settings};
use crate::stop::{Stop, Wrong};
use crate::storage::Storage;
use causal_name::{MsgName, NoMemory};
use std::alloc::Global;

/// What was done to the runs.
#[derive(Clone, Copy)]
pub struct RunCounts {
    pub deliveries: u64,
    pub crashes: u64,
    pub restarts: u64,
    pub stored: u64,
}

/// What surrounds the processes.
#[derive(Drop)]
pub struct SimulatedWorld {
    pub alloc: Global,
    pub settings: Settings,
    pub random: Random,
    pub network: SimulatedNetwork,
    pub storage: Storage,
    pub recording: RunRecordings,
    pub books: Books,
    pub counts: RunCounts,
    /// By process: its end, until it is started again.
    ends: Vec<Option<ProcessEnd>>,
    /// The greatest clock at which a process has come up.
    pub risen: u64,
    time: u64,
    /// How far the times of two neighbours are apart.
    skew: u32,
    /// A process that is started late, if there is one of this number.
    lazy: u32,
    /// Processes are ended so many times more rarely.
    pub calm: u32,
    /// Once in so many times a process that does something without being asked writes to storage.
    pub thrift: u32,
}

impl SimulatedWorld {
    /// Returns the world of a run.
    pub fn new(
        alloc: Global,
        settings: Settings,
        random: Random,
    ) -> Result<SimulatedWorld, NoMemory> {
        let mut random = random;
        let mut ends = Vec::new(alloc);
        for _ in 0..settings.processes {
            ends.push(None)?;
        }
        let most = if random.is_one_in(2) { 20_000 } else { 300 };
        let skew = random.below(most);
        let lazy = random.below(4);
        let calm = if random.is_one_in(2) { 6 } else { 1 };
        let thrift = if random.is_one_in(2) { 60 } else { 2 };
        Ok(SimulatedWorld {
            alloc,
            settings,
            random,
            network: SimulatedNetwork::new(alloc),
            storage: Storage::new(alloc, settings.processes)?,
            recording: RunRecordings::new(alloc),
            books: Books::new(alloc, settings.processes)?,
            counts: RunCounts {
                deliveries: 0,
                crashes: 0,
                restarts: 0,
                stored: 0,
            },
            ends,
            risen: 0,
            time: 1_000_000,
            skew,
            lazy,
            calm,
            thrift,
        })
    }

    /// Lets time pass.
    pub fn tick(&mut self) {
        self.time = self.time.saturating_add(10).min(1 << 40);
    }

    /// Returns the time that a process reads; the clocks of machines differ.
    pub fn now(&self, me: u8) -> u64 {
        let ahead = u64::from(me).saturating_mul(u64::from(self.skew));
        self.time.saturating_add(ahead)
    }

    /// Sends the bytes of a parcel.
    pub fn send(&mut self, to: u8, bytes: Vec<u8>) -> Result<(), Stop> {
        let bytes = alter(self.alloc, &self.settings, bytes)?;
        self.network.add(SimulatedPacket::Parcel { to, bytes })?;
        Ok(())
    }

    /// Returns whether a process that has ended waits for its start.
    pub fn rests(&mut self, who: u8) -> bool {
        u32::from(who) == self.lazy && !self.random.is_one_in(12)
    }

    /// Leaves a packet under way, behind newer ones.
    pub fn delay(&mut self, packet: SimulatedPacket) -> Result<(), NoMemory> {
        self.network.delay(&mut self.random, packet)
    }

    /// A process says hello to all others.
    pub fn greet(&mut self, from: u8) -> Result<(), Stop> {
        for to in 0..self.settings.processes {
            if to != from {
                self.network.add(SimulatedPacket::Hello { to, from })?;
            }
        }
        Ok(())
    }

    /// A process says hello to one by chance.
    pub fn greet_by_chance(&mut self, from: u8) -> Result<(), Stop> {
        let to = self.random.below(u32::from(self.settings.processes));
        if to != u32::from(from) {
            let to = (to % 256) as u8;
            self.network.add(SimulatedPacket::Hello { to, from })?;
        }
        Ok(())
    }

    /// A process has sent a value: who has delivered the message of this name must have delivered the same.
    pub fn check_again(&self, to: u8, name: MsgName, value: u64) -> Result<(), Stop> {
        if self.books.permits(to, name, value) {
            return Ok(());
        }
        Err(Stop::Wrong(Wrong::Differs))
    }

    /// Sets or removes the end of a process.
    pub fn set_end(&mut self, who: u8, end: Option<ProcessEnd>) {
        if let Some(place) = self.ends.get_mut(usize::from(who)) {
            *place = end;
        }
    }

    /// Returns the end of a process that has not been started again.
    pub fn end_of(&self, who: u8) -> Option<ProcessEnd> {
        match self.ends.get(usize::from(who)) {
            Some(end) => *end,
            None => None,
        }
    }

    /// Returns the name of a new round.
    pub fn round_name(&mut self) -> u64 {
        let word = self.random.word();
        if self.settings.breaks(Rule::RoundName) {
            7
        } else {
            word
        }
    }
}
