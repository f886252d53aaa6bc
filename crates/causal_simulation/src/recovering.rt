//! A process recovers: rounds of questions, the read of storage, the restart.
use crate::life::Life;
use crate::network::{ProcessEnd, SimulatedPacket};
use crate::settings::Rule;
use crate::stop::Stop;
use crate::world::SimulatedWorld;
use causal_endpoint::endpoint::Endpoint;
use causal_endpoint::lines::{restart_line, stable_line};
use causal_name::{Det, Pid};
use causal_node::node_fault::NodeFault;

impl Life {
    /// Asks a process that has not replied; if that has ended, a report of the end is under way instead.
    fn ask(
        &mut self,
        endpoint: &mut Endpoint,
        world: &mut SimulatedWorld,
        who: u8,
    ) -> Result<(), Stop> {
        let mut end = world.end_of(who);
        if world.settings.breaks(Rule::EarlyEnded) && end.is_none() {
            let number = endpoint.node().floor(Pid(who));
            end = Some(ProcessEnd {
                who,
                number,
                clock: 0,
            });
        }
        match (end, endpoint.node().round_name()) {
            (Some(end), Some(round)) => {
                let to = self.me;
                world
                    .network
                    .add(SimulatedPacket::Ended { to, round, end })?;
                Ok(())
            }
            _ => {
                let question = endpoint.question(world.now(self.me), Pid(who))?;
                world.send(who, question)
            }
        }
    }

    /// Asks all processes that have not replied.
    fn ask_all(&mut self, endpoint: &mut Endpoint, world: &mut SimulatedWorld) -> Result<(), Stop> {
        for who in 0..world.settings.processes {
            if endpoint.node().awaited().contains(who) {
                self.ask(endpoint, world, who)?;
            }
        }
        Ok(())
    }

    /// Begins a round.
    fn begin(&mut self, endpoint: &mut Endpoint, world: &mut SimulatedWorld) -> Result<(), Stop> {
        let name = world.round_name();
        endpoint.begin_round(name)?;
        self.ask_all(endpoint, world)?;
        if world.settings.breaks(Rule::EarlyRead) {
            self.ask_storage(endpoint, world, name)?;
        }
        Ok(())
    }

    /// Asks storage what it has.
    fn ask_storage(
        &mut self,
        endpoint: &mut Endpoint,
        world: &mut SimulatedWorld,
        round: u64,
    ) -> Result<(), Stop> {
        let view = Vec::from_slice(world.alloc, endpoint.node().floors())?;
        world.network.add(SimulatedPacket::Read {
            from: self.me,
            round,
            view,
        })?;
        Ok(())
    }

    /// Goes on with the recovery, or does what one that waits does.
    pub fn recover(
        &mut self,
        endpoint: &mut Endpoint,
        world: &mut SimulatedWorld,
    ) -> Result<(), Stop> {
        match (
            endpoint.node().restart_fault(),
            endpoint.node().round_name(),
        ) {
            (None, _) => self.come_up(endpoint, world),
            (Some(NodeFault::Waiting), Some(round)) => {
                if endpoint.node().awaited().len() > 0 {
                    return self.ask_all(endpoint, world);
                }
                if world.settings.breaks(Rule::NoRead) {
                    endpoint.finish_read(round)?;
                    return Ok(());
                }
                if world.settings.breaks(Rule::EarlyRead) {
                    return Ok(());
                }
                self.ask_storage(endpoint, world, round)
            }
            (Some(NodeFault::NoRound), _) => self.begin(endpoint, world),
            _ => Ok(()),
        }
    }

    /// Takes what storage has.
    pub fn take_stored(
        &mut self,
        endpoint: &mut Endpoint,
        world: &mut SimulatedWorld,
        round: u64,
        clock: u64,
        dets: &[Det],
    ) -> Result<(), Stop> {
        let is_awaited = endpoint.node().ask_storage() == Ok(round);
        if !is_awaited || endpoint.node().restart_fault().is_none() {
            return Ok(());
        }
        if !world.settings.breaks(Rule::StorageClock) {
            endpoint.take_in(clock)?;
        }
        for det in dets {
            self.mark(endpoint, world, *det)?;
        }
        endpoint.finish_read(round)?;
        Ok(())
    }

    /// Storage has a determinant: it is marked and recorded.
    pub fn mark(
        &mut self,
        endpoint: &mut Endpoint,
        world: &mut SimulatedWorld,
        det: Det,
    ) -> Result<(), Stop> {
        let clock = endpoint.stored(world.now(self.me), det)?;
        let line = stable_line(world.alloc, Pid(self.me), clock, &det)?;
        self.record(world, clock, line.as_slice())
    }

    /// Restarts: the process is up, and its application begins again.
    fn come_up(&mut self, endpoint: &mut Endpoint, world: &mut SimulatedWorld) -> Result<(), Stop> {
        let restarted = endpoint.restart(world.now(self.me))?;
        let line = restart_line(world.alloc, Pid(self.me), &restarted)?;
        self.record(world, restarted.clock, line.as_slice())?;
        self.restarts = self.restarts.saturating_add(1);
        self.is_down = false;
        world.risen = world.risen.max(restarted.clock);
        world.counts.restarts = world.counts.restarts.saturating_add(1);
        world.recording.point()?;
        world.greet(self.me)?;
        self.open(endpoint, world)
    }
}
