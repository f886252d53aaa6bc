//! A process: its endpoint while it runs, and what its embedder knows.
use crate::network::ProcessEnd;
use crate::random::mix;
use crate::settings::{RUN, Rule};
use crate::stop::Stop;
use crate::world::SimulatedWorld;
use causal_endpoint::endpoint::Endpoint;
use causal_endpoint::lines::{crash_line, header_line, send_line};
use causal_name::{MsgName, Pid};
use causal_node::node_fault::NodeFault;

/// What lies beside the endpoint of a process.
#[derive(Clone, Copy)]
pub struct Life {
    pub me: u8,
    /// The greatest clock of its recording.
    pub clock: u64,
    /// The number of its restarts.
    pub restarts: u32,
    /// Whether its crash is recorded, and no restart since.
    pub is_down: bool,
    /// The state of its application, and how many messages that has received.
    pub value: u64,
    pub received: u32,
}

/// A process of a run.
#[derive(Drop)]
pub struct SimulatedProcess {
    /// While it runs.
    pub endpoint: Option<Endpoint>,
    pub life: Life,
}

/// Messages after which an application sends no more.
const ENOUGH: u32 = 9;

impl Life {
    /// Writes the line of an event with this clock.
    pub fn record(
        &mut self,
        world: &mut SimulatedWorld,
        clock: u64,
        line: &[u8],
    ) -> Result<(), Stop> {
        world.recording.write(line)?;
        self.clock = self.clock.max(clock);
        Ok(())
    }

    /// Returns the process that is so many after this one.
    fn other(&self, world: &SimulatedWorld, by: u64) -> u8 {
        let n = u64::from(world.settings.processes).max(2);
        let step = (by % (n - 1)).saturating_add(1);
        let to = u64::from(self.me).wrapping_add(step) % n;
        to.min(255) as u8
    }

    /// Sends a value to a process, and records that, in the order that the rules demand.
    fn send(
        &mut self,
        endpoint: &mut Endpoint,
        world: &mut SimulatedWorld,
        to: u8,
        value: u64,
    ) -> Result<(), Stop> {
        let sent = endpoint.send(world.now(self.me), Pid(to), &value.to_be_bytes())?;
        let line = send_line(world.alloc, Pid(self.me), Pid(to), &sent)?;
        let (clock, ssn) = (sent.clock, sent.ssn);
        if world.settings.breaks(Rule::LateLine) {
            world.send(to, sent.bytes)?;
            self.record(world, clock, line.as_slice())?;
        } else {
            self.record(world, clock, line.as_slice())?;
            world.recording.point()?;
            world.send(to, sent.bytes)?;
        }
        let source = Pid(self.me);
        world.check_again(to, MsgName { source, ssn }, value)
    }

    /// Sends so many messages, which the application's state determines.
    fn send_some(
        &mut self,
        endpoint: &mut Endpoint,
        world: &mut SimulatedWorld,
        count: u64,
    ) -> Result<(), Stop> {
        for i in 0..count {
            let value = mix(self.value.wrapping_add(i));
            let to = self.other(world, value >> 8);
            self.send(endpoint, world, to, value)?;
        }
        Ok(())
    }

    /// The application begins.
    pub fn open(
        &mut self,
        endpoint: &mut Endpoint,
        world: &mut SimulatedWorld,
    ) -> Result<(), Stop> {
        self.value = mix(u64::from(self.me));
        self.received = 0;
        self.send_some(endpoint, world, 2)
    }

    /// The application receives a value.
    pub fn act(
        &mut self,
        endpoint: &mut Endpoint,
        world: &mut SimulatedWorld,
        source: Pid,
        value: u64,
    ) -> Result<(), Stop> {
        let time = if world.settings.breaks(Rule::Impure) {
            world.now(0)
        } else {
            0
        };
        let taken = value.wrapping_add(u64::from(source.0)).wrapping_add(time);
        self.value = mix(self.value.wrapping_add(mix(taken)));
        self.received = self.received.saturating_add(1);
        if self.received > ENOUGH {
            return Ok(());
        }
        self.send_some(endpoint, world, self.value % 3)
    }
}

/// Returns whether an endpoint is up.
pub fn is_up(endpoint: &Endpoint) -> bool {
    matches!(endpoint.node().restart_fault(), Some(NodeFault::Up))
}

impl SimulatedProcess {
    /// Returns a process that has not been started.
    pub fn new(me: u8) -> SimulatedProcess {
        SimulatedProcess {
            endpoint: None,
            life: Life {
                me,
                clock: 0,
                restarts: 0,
                is_down: false,
                value: 0,
                received: 0,
            },
        }
    }

    /// Returns whether it is up.
    pub fn is_up(&self) -> bool {
        match &self.endpoint {
            Some(endpoint) => is_up(endpoint),
            None => false,
        }
    }

    /// Returns the lane that begins.
    fn next_lane(&self, world: &SimulatedWorld) -> u32 {
        if !self.life.is_down {
            return 0;
        }
        let reused = u32::from(world.settings.breaks(Rule::Lane));
        self.life
            .restarts
            .saturating_add(1)
            .saturating_sub(reused)
            .max(1)
    }

    /// Starts the process: in its first life it is up, later it has to recover.
    pub fn start(&mut self, world: &mut SimulatedWorld) -> Result<(), Stop> {
        let Life { me, clock, .. } = self.life;
        let lane = self.next_lane(world);
        let identity = world.settings.identity(me);
        let mut endpoint = Endpoint::open(world.alloc, identity, RUN, lane, clock, 0)?;
        let processes = u16::from(world.settings.processes);
        let header = header_line(world.alloc, Pid(me), processes, RUN)?;
        world.recording.push(header.as_slice())?;
        world.set_end(me, None);
        if is_up(&endpoint) {
            self.life.open(&mut endpoint, world)?;
        }
        self.endpoint = Some(endpoint);
        Ok(())
    }

    /// Returns the clock with which the crash is written: above that of the recording and of all that have come up.
    fn crash_clock(&self, world: &SimulatedWorld) -> u64 {
        let known = if world.settings.breaks(Rule::CrashClock) {
            0
        } else {
            world.risen
        };
        let last = self.life.clock.max(known).min(1 << 50);
        last + 1
    }

    /// The process ends, and who has seen that records it.
    pub fn crash(&mut self, world: &mut SimulatedWorld) -> Result<(), Stop> {
        self.endpoint = None;
        let me = self.life.me;
        if !self.life.is_down {
            let clock = self.crash_clock(world).max(world.now(me));
            let line = crash_line(world.alloc, Pid(me), clock)?;
            self.life.record(world, clock, line.as_slice())?;
            self.life.is_down = true;
            world.counts.crashes = world.counts.crashes.saturating_add(1);
        }
        world.books.clear(me);
        let end = ProcessEnd {
            who: me,
            number: self.next_lane(world),
            clock: self.life.clock,
        };
        world.set_end(me, Some(end));
        Ok(())
    }
}
