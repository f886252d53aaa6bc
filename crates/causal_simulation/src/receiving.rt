//! A process receives what comes to it.
use crate::life::{Life, is_up};
use crate::network::{ProcessEnd, SimulatedPacket};
use crate::settings::Rule;
use crate::stop::Stop;
use crate::world::SimulatedWorld;
use causal_endpoint::endpoint::Endpoint;
use causal_endpoint::fault::EndpointFault;
use causal_endpoint::lines::{deliver_line, forget_line};
use causal_endpoint::receiving::{DeliveryRecord, Received};
use causal_name::{Det, Pid};
use causal_node::node_fault::NodeFault;

/// Whether a packet has to come again.
#[derive(Clone, Copy, Debug, PartialEq, Eq)]
pub enum Fate {
    Taken,
    Later,
}

/// Returns what a refusal of a parcel means.
fn fate_of(fault: EndpointFault) -> Result<Fate, Stop> {
    let EndpointFault::Node(reason) = fault else {
        return Err(Stop::from(fault));
    };
    match reason {
        NodeFault::NotUp | NodeFault::MustReplay(_) | NodeFault::Reserved | NodeFault::NotYet => {
            Ok(Fate::Later)
        }
        NodeFault::Duplicate | NodeFault::OldLane | NodeFault::Unasked | NodeFault::Up => {
            Ok(Fate::Taken)
        }
        _ => Err(Stop::from(fault)),
    }
}

/// Returns the value that a body contains.
fn value_in(body: &[u8]) -> u64 {
    let mut value = 0u64;
    for byte in body {
        value = value.wrapping_mul(256).wrapping_add(u64::from(*byte));
    }
    value
}

impl Life {
    /// Records a delivery, and acts on it.
    fn deliver(
        &mut self,
        endpoint: &mut Endpoint,
        world: &mut SimulatedWorld,
        delivered: &DeliveryRecord,
    ) -> Result<(), Stop> {
        let line = deliver_line(world.alloc, Pid(self.me), delivered)?;
        self.record(world, delivered.clock, line.as_slice())?;
        world.counts.deliveries = world.counts.deliveries.saturating_add(1);
        let value = value_in(delivered.body.as_slice());
        world.books.add(self.me, delivered.name, value)?;
        world.recording.point()?;
        if world.random.is_one_in(4) && delivered.listed.is_ascending() {
            let source = delivered.name.source;
            let listed = delivered.listed.as_slice();
            let bytes = endpoint.acknowledge(world.now(self.me), source, listed)?;
            world.send(source.0, bytes)?;
        }
        self.act(endpoint, world, delivered.name.source, value)
    }

    /// Receives a parcel.
    fn receive(
        &mut self,
        endpoint: &mut Endpoint,
        world: &mut SimulatedWorld,
        bytes: &[u8],
    ) -> Result<Fate, Stop> {
        match endpoint.receive(world.now(self.me), bytes) {
            Ok(Received::Message(delivered)) => {
                self.deliver(endpoint, world, &delivered)?;
                Ok(Fate::Taken)
            }
            Ok(Received::Question(to, reply)) => {
                world.send(to.0, reply)?;
                Ok(Fate::Taken)
            }
            Ok(_) => Ok(Fate::Taken),
            Err(fault) => fate_of(fault),
        }
    }

    /// Sends again what a process may have lost.
    fn resend(
        &mut self,
        endpoint: &Endpoint,
        world: &mut SimulatedWorld,
        to: u8,
    ) -> Result<(), Stop> {
        if world.settings.breaks(Rule::NoResend) || !is_up(endpoint) {
            return Ok(());
        }
        for ssn in 0..endpoint.node().sent_len() {
            let is_for = match endpoint.node().message(ssn) {
                Some(message) => message.to == Pid(to),
                None => false,
            };
            if let (true, Some(bytes)) = (is_for, endpoint.resend(ssn)?) {
                world.send(to, bytes)?;
            }
        }
        Ok(())
    }

    /// Takes the report that a process has ended.
    fn take_end(
        &mut self,
        endpoint: &mut Endpoint,
        world: &SimulatedWorld,
        round: u64,
        end: ProcessEnd,
    ) -> Result<(), Stop> {
        let mut name = round;
        if world.settings.breaks(Rule::OldReport) {
            name = endpoint.node().round_name().unwrap_or(round);
        }
        if endpoint.node().reply_fault(name, Pid(end.who)).is_some() {
            return Ok(());
        }
        if !world.settings.breaks(Rule::EndClock) {
            endpoint.take_in(end.clock)?;
        }
        endpoint.take_ended(name, Pid(end.who), end.number)?;
        Ok(())
    }

    /// Storage has committed a write: that is recorded, and at times forgotten.
    pub fn take_committed(
        &mut self,
        endpoint: &mut Endpoint,
        world: &mut SimulatedWorld,
        dets: &[Det],
    ) -> Result<(), Stop> {
        for det in dets {
            self.mark(endpoint, world, *det)?;
        }
        if !world.random.is_one_in(2) {
            return Ok(());
        }
        let forgotten = endpoint.forget(world.now(self.me))?;
        if forgotten.listed.is_empty() {
            return Ok(());
        }
        let line = forget_line(world.alloc, Pid(self.me), &forgotten)?;
        self.record(world, forgotten.clock, line.as_slice())
    }

    /// Writes to storage what the process logs.
    pub fn store(
        &mut self,
        endpoint: &mut Endpoint,
        world: &mut SimulatedWorld,
    ) -> Result<(), Stop> {
        let dets = endpoint.node().unstored()?;
        if world.settings.breaks(Rule::EarlyStored) {
            self.take_committed(endpoint, world, dets.as_slice())?;
        }
        world.network.add(SimulatedPacket::Write {
            from: self.me,
            lane: endpoint.node().lane(),
            clock: endpoint.clock(),
            dets,
        })?;
        Ok(())
    }

    /// Takes a packet that is for this process.
    pub fn take(
        &mut self,
        endpoint: &mut Endpoint,
        world: &mut SimulatedWorld,
        packet: &SimulatedPacket,
    ) -> Result<Fate, Stop> {
        match packet {
            SimulatedPacket::Parcel { bytes, .. } => return self.receive(
                endpoint,
                world,
                bytes.as_slice(),
            ),
            SimulatedPacket::Hello { from, .. } => self.resend(endpoint, world, *from)?,
            SimulatedPacket::Ended { round, end, .. } => self.take_end(
                endpoint, world, *round, *end,
            )?,
            SimulatedPacket::Committed { lane, dets, .. } => {
                if is_up(endpoint) && endpoint.node().lane() == *lane {
                    self.take_committed(endpoint, world, dets.as_slice())?;
                }
            }
            SimulatedPacket::Has {
                round,
                clock,
                dets,
                ..
            } => {
                if endpoint.node().awaited().len() > 0 {
                    return Ok(Fate::Later);
                }
                self.take_stored(endpoint, world, *round, *clock, dets.as_slice())?;
            }
            SimulatedPacket::Write { .. } | SimulatedPacket::Read { .. } => {}
        }
        Ok(Fate::Taken)
    }
}
