//! A run: steps that a seed chooses, and then steps without harm until all is well.
use crate::life::{SimulatedProcess, is_up};
use crate::network::SimulatedPacket;
use crate::random::Random;
use crate::receiving::Fate;
use crate::settings::{Rule, Settings};
use crate::stop::{Stop, Wrong};
use crate::world::SimulatedWorld;
use causal_name::{Det, NoMemory};
use std::alloc::Global;

/// Rounds without harm after which a run is stuck.
const PATIENCE: u32 = 60;

/// A run.
#[derive(Drop)]
pub struct Simulation {
    pub world: SimulatedWorld,
    processes: Vec<SimulatedProcess>,
}

/// Returns the process that a packet is for; `None` if it is for storage.
fn destination(packet: &SimulatedPacket) -> Option<u8> {
    match packet {
        SimulatedPacket::Parcel { to, .. } => Some(*to),
        SimulatedPacket::Hello { to, .. } => Some(*to),
        SimulatedPacket::Ended { to, .. } => Some(*to),
        SimulatedPacket::Committed { to, .. } => Some(*to),
        SimulatedPacket::Has { to, .. } => Some(*to),
        SimulatedPacket::Write { .. } | SimulatedPacket::Read { .. } => None,
    }
}

/// Storage takes a write.
fn commit(
    world: &mut SimulatedWorld,
    from: u8,
    lane: u32,
    clock: u64,
    dets: &[Det],
) -> Result<(), Stop> {
    if !world.storage.accepts(from, lane) && !world.settings.breaks(Rule::Fence) {
        return Ok(());
    }
    let is_lost = world.settings.breaks(Rule::LoseStored) && world.random.is_one_in(3);
    if !is_lost {
        world.storage.commit(clock, dets)?;
    }
    world.counts.stored = world.counts.stored.saturating_add(1);
    let dets = Vec::from_slice(world.alloc, dets)?;
    world.network.add(SimulatedPacket::Committed {
        to: from,
        lane,
        dets,
    })?;
    Ok(())
}

/// Storage takes a packet.
fn take_by_storage(world: &mut SimulatedWorld, packet: &SimulatedPacket) -> Result<(), Stop> {
    match packet {
        SimulatedPacket::Write {
            from,
            lane,
            clock,
            dets,
        } => { commit(world, *from, *lane, *clock, dets.as_slice()) }
        SimulatedPacket::Read { from, round, view } => {
            world.storage.refuse_below(view.as_slice());
            let dets = Vec::from_slice(world.alloc, world.storage.dets.as_slice())?;
            world.network.add(SimulatedPacket::Has {
                to: *from,
                round: *round,
                clock: world.storage.clock,
                dets,
            })?;
            Ok(())
        }
        _ => Ok(()),
    }
}

impl SimulatedProcess {
    /// Takes a packet, if it runs; else the packet is lost.
    fn take(&mut self, world: &mut SimulatedWorld, packet: &SimulatedPacket) -> Result<Fate, Stop> {
        match &mut self.endpoint {
            Some(endpoint) => self.life.take(endpoint, world, packet),
            None => Ok(Fate::Taken),
        }
    }

    /// Does what a process does without being asked: it starts, recovers, stores or says hello.
    fn act_alone(&mut self, world: &mut SimulatedWorld) -> Result<(), Stop> {
        let is_up = self.is_up();
        match &mut self.endpoint {
            None => self.start(world),
            Some(endpoint) if !is_up => self.life.recover(endpoint, world),
            Some(endpoint) if world.random.is_one_in(world.thrift) => {
                self.life.store(endpoint, world)
            }
            Some(_) => world.greet_by_chance(self.life.me),
        }
    }

    /// Returns whether it is up, and lacks nothing that it has to repeat.
    fn is_well(&self) -> bool {
        match &self.endpoint {
            Some(endpoint) => is_up(endpoint) && endpoint.node().due().is_none(),
            None => false,
        }
    }

    /// Ends the process if it was killed.
    fn end_if_killed<T: Drop>(
        &mut self,
        world: &mut SimulatedWorld,
        outcome: Result<T, Stop>,
    ) -> Result<Option<T>, Stop> {
        world.recording.set_fuse(0);
        match outcome {
            Ok(value) => Ok(Some(value)),
            Err(Stop::Killed) => {
                self.crash(world)?;
                Ok(None)
            }
            Err(stop) => Err(stop),
        }
    }
}

impl Simulation {
    /// Starts the processes of a run.
    pub fn new(alloc: Global, seed: u64, broken: Option<Rule>) -> Result<Simulation, NoMemory> {
        let mut random = Random::of_seed(seed);
        let settings = Settings::by_chance(&mut random, broken);
        let world = SimulatedWorld::new(alloc, settings, random)?;
        let mut processes = Vec::new(alloc);
        for me in 0..settings.processes {
            processes.push(SimulatedProcess::new(me))?;
        }
        Ok(Simulation { world, processes })
    }

    /// Returns how many processes are down.
    fn count_down(&self) -> u32 {
        let mut count = 0u32;
        for process in self.processes.iter() {
            count = count.saturating_add(u32::from(process.life.is_down));
        }
        count
    }

    /// Returns whether a process may end now.
    fn may_end(&self, at: usize) -> bool {
        let most = if self.world.settings.breaks(Rule::TooMany) {
            200
        } else {
            u32::from(self.world.settings.faults)
        };
        match self.processes.get(at) {
            Some(process) => process.life.is_down || self.count_down() < most,
            None => false,
        }
    }

    /// Lets a process that runs next be killed at one of its next points, at times.
    fn set_fuse(&mut self, at: usize) {
        let is_near = self
            .world
            .random
            .is_one_in(self.world.calm.saturating_mul(12));
        let fuse = 1 + self.world.random.below(9);
        if is_near && self.may_end(at) {
            self.world.recording.set_fuse(fuse);
        }
    }

    /// Lets a process, or storage, take a packet, which may come again.
    fn deliver(&mut self, packet: SimulatedPacket, is_harmful: bool) -> Result<(), Stop> {
        let mut fate = Fate::Taken;
        match destination(&packet) {
            None => take_by_storage(&mut self.world, &packet)?,
            Some(to) => {
                if is_harmful {
                    self.set_fuse(usize::from(to));
                }
                if let Some(process) = self.processes.get_mut(usize::from(to)) {
                    let outcome = process.take(&mut self.world, &packet);
                    fate = process
                        .end_if_killed(&mut self.world, outcome)?
                        .unwrap_or(Fate::Taken);
                }
            }
        }
        // who has seen an end reports it again and again
        let times = if matches!(&packet, SimulatedPacket::Ended { .. }) {
            2
        } else {
            6
        };
        if is_harmful && (fate == Fate::Later || self.world.random.is_one_in(times)) {
            self.world.delay(packet)?;
        }
        Ok(())
    }

    /// Returns whether a process has ended and is not yet started.
    fn rests(&mut self, at: usize) -> bool {
        match self.processes.get(at) {
            Some(process) if process.endpoint.is_none() => self.world.rests(process.life.me),
            _ => false,
        }
    }

    /// Lets a process do something without being asked.
    fn act(&mut self, at: usize, is_harmful: bool) -> Result<(), Stop> {
        if is_harmful {
            if self.rests(at) {
                return Ok(());
            }
            self.set_fuse(at);
        }
        if let Some(process) = self.processes.get_mut(at) {
            let outcome = process.act_alone(&mut self.world);
            process.end_if_killed(&mut self.world, outcome)?;
        }
        Ok(())
    }

    /// Ends a process, if it runs and may end.
    fn crash(&mut self, at: usize) -> Result<(), Stop> {
        if !self.may_end(at) {
            return Ok(());
        }
        match self.processes.get_mut(at) {
            Some(process) if process.endpoint.is_some() => process.crash(&mut self.world),
            _ => Ok(()),
        }
    }

    /// Makes one step by chance.
    fn step(&mut self) -> Result<(), Stop> {
        self.world.tick();
        let at = self.world.random.index(self.processes.len());
        match self.world.random.below(32) {
            0..=1 if self.world.random.is_one_in(self.world.calm) => self.crash(at),
            2 => {
                let _lost = self.world.network.take(&mut self.world.random);
                Ok(())
            }
            3..=14 => self.act(at, true),
            _ => match self.world.network.take(&mut self.world.random) {
                Some(packet) => self.deliver_or_delay(packet),
                None => self.act(at, true),
            },
        }
    }

    /// Lets a process or storage take a packet, or leaves it under way: a write is committed late, and the report of an end
    /// comes late.
    fn deliver_or_delay(&mut self, packet: SimulatedPacket) -> Result<(), Stop> {
        let is_slow = matches!(
            &packet,
            SimulatedPacket::Write { .. } | SimulatedPacket::Ended { .. }
        );
        if is_slow && !self.world.random.is_one_in(4) {
            self.world.delay(packet)?;
            return Ok(());
        }
        self.deliver(packet, true)
    }

    /// Starts all processes, and makes the steps of a run.
    fn run_steps(&mut self) -> Result<(), Stop> {
        for at in 0..self.processes.len() {
            self.act(at, false)?;
        }
        let most = if self.world.random.is_one_in(4) {
            1_500
        } else {
            300
        };
        let steps = self.world.random.below(most).saturating_add(40);
        for _ in 0..steps {
            self.step()?;
        }
        Ok(())
    }

    /// Returns whether all processes are up, and lack nothing that they have to repeat.
    fn is_well(&self) -> bool {
        for process in self.processes.iter() {
            if !process.is_well() {
                return false;
            }
        }
        true
    }

    /// Lets each process that is not well do something, and delivers all that is under way.
    fn round(&mut self) -> Result<(), Stop> {
        self.world.tick();
        for at in 0..self.processes.len() {
            self.help(at)?;
        }
        for packet in self.world.network.take_all(self.world.alloc) {
            self.deliver(packet, false)?;
        }
        Ok(())
    }

    /// A process that is not up goes on with its recovery, and one that lacks a message says hello.
    fn help(&mut self, at: usize) -> Result<(), Stop> {
        match self.processes.get_mut(at) {
            Some(process) if !process.is_up() => process.act_alone(&mut self.world),
            Some(process) if !process.is_well() => self.world.greet(process.life.me),
            _ => Ok(()),
        }
    }

    /// Runs until all processes are well.
    fn run_to_end(&mut self) -> Result<(), Stop> {
        for _ in 0..PATIENCE {
            if self.is_well() {
                return Ok(());
            }
            self.round()?;
        }
        Err(Stop::Wrong(Wrong::Stuck))
    }

    /// Makes the run.
    pub fn run(&mut self) -> Result<(), Stop> {
        self.run_steps()?;
        self.run_to_end()
    }
}
