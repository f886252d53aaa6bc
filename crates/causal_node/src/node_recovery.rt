//! A node recovers: it begins a round, takes the replies, and restarts.
ghost use Rattle.std.specs.Prelude.{◌≡◌, IfOk, IfErr, OnOk, OnErr, None, Some};
ghost use Rattle.std.specs.Option.{option_and_then, option_map};
ghost use Rattle.std.specs.FinMap as fin;
ghost use Rattle.causal_name.specs.declared.MsgName.{MsgName as Message};
ghost use Rattle.causal_node.specs.NodeRecovery.{after_not_up, after_number, node_after_read, after_restart_at, node_after_stored, ask_fault, begin_fault, is_named_for, map_round, new_round_state, read_fault, reply_fault, node_restart_fault, restart_log_of, node_stored_fault, with_log_of, with_recovery};
ghost use Rattle.causal_node.specs.NodeRefusals.{node_reason_of};
ghost use Rattle.causal_node.specs.NodeStates.{has_name, round_of};
ghost use Rattle.causal_memory.specs.RestartPlans.{IsRestartPlan};

use crate::node::{Identity, Node, NodeStage, Round};
use crate::node_fault::NodeFault;
use crate::node_opening::processes_below;
use crate::received_names::ReceivedNames;
use causal_log::Log;
use causal_memory::learning::learn_own_holding;
use causal_memory::restart_plan::RestartPlan;
use causal_memory::restart_planning::restart_plan_with;
use causal_name::{Det, MsgName, NoMemory, Pid};
use std::alloc::Global;
use std::collections::BTreeSet;

/// Returns the names of the messages that these determinants name for deliveries of a process.
fn names_for(alloc: Global, me: Pid, dets: &[Det]) -> Result<BTreeSet<MsgName, Global>, NoMemory>
    ensures { IfOk result (λ names. (m : Message) →
        has_name names.keys m ≡ is_named_for me dets.now m) }
{
    let mut names = BTreeSet::new(alloc);
    for det in dets {
        if det.dest == me {
            names.insert(det.message())?;
        }
    }
    Ok(names)
}

/// Returns the restart plan of a process whose round has gathered this log.
fn restart_plan_of(alloc: Global, f: u16, me: Pid, log: &Log) -> Result<RestartPlan, NoMemory>
    ensures { IfOk result (IsRestartPlan f (restart_log_of me log.now.map)) }
{
    let mut own = log.try_clone()?;
    match learn_own_holding(alloc, &mut own, me) {
        Ok(()) => restart_plan_with(alloc, f, own),
        Err(refused) => Err(refused),
    }
}

impl Round {
    /// Takes the log of q, which has replied.
    fn take_log(&mut self, q: Pid, log: &Log) -> Result<(), NoMemory>
        ensures ok { OnOk result (round_of self.new ≡ with_log_of (round_of self.old) q.0 log.now.map) }
        ensures unchanged { OnErr result (round_of self.new ≡ round_of self.old) }
    {
        self.log.union_from(log)?;
        self.awaited.remove(q.0);
        Ok(())
    }
}

impl Node {
    /// Begins a round of this name, which no other round of the process may have, also of earlier lanes. An earlier
    /// round is given up. Each other process has to be asked; the round's view is what `floors` returns.
    ///
    /// # Errors
    /// `Up`. A refusal changes nothing.
    pub fn begin_round(&mut self, name: u64) -> Result<(), NodeFault>
        ensures ok { OnOk result (self.new
            ≡ with_recovery self.old (Some (Some (new_round_state self.old.identity name)))) }
        ensures legal { OnOk result (begin_fault self.old.recovery ≡ None) }
        ensures refused { IfErr result (λ fault. begin_fault self.old.recovery
            ≡ node_reason_of fault) }
        ensures unchanged { OnErr result (self.new ≡ self.old) }
    {
        if matches!(self.stage, NodeStage::Up) {
            return Err(NodeFault::Up);
        }
        let mut awaited = processes_below(self.identity.processes);
        awaited.remove(self.identity.me.0);
        self.stage = NodeStage::Gathering(Round {
            name,
            awaited,
            log: Log::with_seed(self.alloc, self.seed),
            read: false,
        });
        Ok(())
    }

    /// Returns the first refusal that applies to a reply, if there is one.
    pub fn reply_fault(&self, name: u64, q: Pid) -> Option<NodeFault>
        ensures { result ≡ reply_fault self.now.recovery name q }
    {
        match &self.stage {
            NodeStage::Up => Some(NodeFault::Up),
            NodeStage::Gathering(round) if round.name == name && round.awaited.contains(q.0) =>
                None,
            _ => Some(NodeFault::Unasked),
        }
    }

    /// Takes the log of q, which is up and has replied to the round of this name.
    ///
    /// # Errors
    /// The first of `Up` and `Unasked`; if neither applies, `NoMemory` if allocation failed. A refusal changes nothing.
    pub fn take_log(&mut self, name: u64, q: Pid, log: &Log) -> Result<(), NodeFault>
        ensures ok { OnOk result (self.new
            ≡ with_recovery self.old (map_round (λ r. with_log_of r q.0 log.now.map) self.old.recovery)) }
        ensures legal { OnOk result (reply_fault self.old.recovery name q ≡ None) }
        ensures refused { IfErr result
            (λ fault. reply_fault self.old.recovery name q ≡ node_reason_of fault) }
        ensures unchanged { OnErr result (self.new ≡ self.old) }
    {
        if let Some(fault) = self.reply_fault(name, q) {
            return Err(fault);
        }
        match &mut self.stage {
            NodeStage::Gathering(round) => match round.take_log(q, log) {
                Ok(()) => Ok(()),
                Err(_) => Err(NodeFault::NoMemory),
            },
            _ => unreachable!(),
        }
    }

    /// Takes the number of q, and gives up the round.
    fn learn_number(&mut self, q: Pid, number: u32)
        ensures { self.new ≡ after_number self.old q number }
    {
        let place = usize::from(q.0);
        if place < self.floors.len() {
            self.floors[place] = number.max(self.floors[place]);
        }
        self.stage = NodeStage::Down;
    }

    /// Takes the number of q, which has replied to the round of this name that the view has a wrong one for it. The
    /// round is given up; the next one has the right number.
    ///
    /// # Errors
    /// The first of `Up` and `Unasked`. A refusal changes nothing.
    pub fn take_number(&mut self, name: u64, q: Pid, number: u32) -> Result<(), NodeFault>
        ensures ok { OnOk result (self.new ≡ after_number self.old q number) }
        ensures legal { OnOk result (reply_fault self.old.recovery name q ≡ None) }
        ensures refused { IfErr result
            (λ fault. reply_fault self.old.recovery name q ≡ node_reason_of fault) }
        ensures unchanged { OnErr result (self.new ≡ self.old) }
    {
        if let Some(fault) = self.reply_fault(name, q) {
            return Err(fault);
        }
        self.learn_number(q, number);
        Ok(())
    }

    /// Takes the reply that q is not up, and that `number` is its next lane: q's own reply to the round of this name, or
    /// the embedder's, who knows that q has ended and how often it has restarted. If the view has another number for q,
    /// the round is given up.
    ///
    /// # Errors
    /// The first of `Up` and `Unasked`. A refusal changes nothing.
    pub fn take_not_up(&mut self, name: u64, q: Pid, number: u32) -> Result<(), NodeFault>
        ensures ok { OnOk result (self.new ≡ after_not_up self.old q number) }
        ensures legal { OnOk result (reply_fault self.old.recovery name q ≡ None) }
        ensures refused { IfErr result
            (λ fault. reply_fault self.old.recovery name q ≡ node_reason_of fault) }
        ensures unchanged { OnErr result (self.new ≡ self.old) }
    {
        if let Some(fault) = self.reply_fault(name, q) {
            return Err(fault);
        }
        if self.floor(q) != number {
            self.learn_number(q, number);
            return Ok(());
        }
        if let NodeStage::Gathering(round) = &mut self.stage {
            round.awaited.remove(q.0);
        }
        Ok(())
    }

    /// Returns the first refusal that applies to a restart, if there is one.
    pub fn restart_fault(&self) -> Option<NodeFault>
        ensures { result ≡ node_restart_fault self.now.recovery }
    {
        match &self.stage {
            NodeStage::Up => Some(NodeFault::Up),
            NodeStage::Down => Some(NodeFault::NoRound),
            NodeStage::Gathering(round) if round.awaited.len() > 0 || !round.read => {
                Some(NodeFault::Waiting)
            }
            NodeStage::Gathering(_) => None,
        }
    }

    /// Returns the name of the round, once all other processes have replied to it: the question to stable storage has this
    /// name, and `floors` as its view.
    ///
    /// # Errors
    /// The first of `Up`, `NoRound` and `Waiting`.
    pub fn ask_storage(&self) -> Result<u64, NodeFault>
        ensures ok { IfOk result (λ name.
            option_and_then (option_map (λ r. r.name)) self.now.recovery ≡ Some name) }
        ensures legal { OnOk result (ask_fault self.now.recovery ≡ None) }
        ensures refused { IfErr result (λ fault. ask_fault self.now.recovery ≡ Some fault) }
    {
        match &self.stage {
            NodeStage::Up => Err(NodeFault::Up),
            NodeStage::Down => Err(NodeFault::NoRound),
            NodeStage::Gathering(round) if round.awaited.len() > 0 => Err(NodeFault::Waiting),
            NodeStage::Gathering(round) => Ok(round.name),
        }
    }

    /// Takes the end of the reply of stable storage to the round of this name: `stored` has been called for each
    /// determinant in it.
    ///
    /// # Errors
    /// The first of `Up`, `Unasked` and `Waiting`. A refusal changes nothing.
    pub fn finish_read(&mut self, name: u64) -> Result<(), NodeFault>
        ensures ok { OnOk result (self.new
            ≡ with_recovery self.old (map_round node_after_read self.old.recovery)) }
        ensures legal { OnOk result (read_fault self.old.recovery name ≡ None) }
        ensures refused { IfErr result (λ fault. read_fault self.old.recovery name ≡ Some fault) }
        ensures unchanged { OnErr result (self.new ≡ self.old) }
    {
        match &mut self.stage {
            NodeStage::Up => Err(NodeFault::Up),
            NodeStage::Gathering(round) if round.name == name => {
                if round.awaited.len() > 0 {
                    return Err(NodeFault::Waiting);
                }
                round.read = true;
                Ok(())
            }
            _ => Err(NodeFault::Unasked),
        }
    }

    /// Returns the first refusal that applies to a determinant that storage has, if there is one.
    pub fn stored_fault(&self) -> Option<NodeFault>
        ensures { result ≡ node_stored_fault self.now.recovery }
    {
        match &self.stage {
            NodeStage::Up => None,
            NodeStage::Down => Some(NodeFault::NoRound),
            NodeStage::Gathering(round) if round.awaited.len() > 0 => Some(NodeFault::Waiting),
            NodeStage::Gathering(_) => None,
        }
    }

    /// Stable storage has this determinant: it has confirmed a write of the process, or the process has read it in its
    /// round, after the last reply of another process. An embedder calls this for each determinant that it reads, and
    /// records each; then `finish_read`.
    ///
    /// # Errors
    /// The first of `NoRound` and `Waiting`; if neither applies, `NoMemory` if allocation failed. A refusal changes
    /// nothing.
    pub fn stored(&mut self, det: Det) -> Result<(), NodeFault>
        ensures ok { OnOk result (self.new ≡ node_after_stored self.old det self.old.recovery) }
        ensures legal { OnOk result (node_stored_fault self.old.recovery ≡ None) }
        ensures refused { IfErr result
            (λ fault. node_stored_fault self.old.recovery ≡ node_reason_of fault) }
        ensures unchanged { OnErr result (self.new ≡ self.old) }
    {
        if let Some(fault) = self.stored_fault() {
            return Err(fault);
        }
        match &mut self.stage {
            NodeStage::Up => {
                self.memory.mark_stable(det);
                self.next_batch = None;
                Ok(())
            }
            NodeStage::Down => unreachable!(),
            NodeStage::Gathering(round) => match round.log.add_stable(det, self.identity.me) {
                Ok(()) => Ok(()),
                Err(_) => Err(NodeFault::NoMemory),
            },
        }
    }

    /// Restarts: the process comes up with what its round has gathered, of which it is a holder. Returns the
    /// determinants that the restart entry lists.
    ///
    /// # Errors
    /// The first of `Up`, `NoRound` and `Waiting`, for a process or stable storage; if none applies, `NoMemory` if
    /// allocation failed. A refusal changes nothing.
    pub fn restart(&mut self) -> Result<Vec<Det>, NodeFault>
        ensures ok { OnOk result
            (self.new ≡ after_restart_at self.old self.old.recovery self.new.reserved_names) }
        ensures reserved { IfOk result (λ dets. (m : Message) → has_name self.new.reserved_names m
            ≡ is_named_for self.old.identity.me dets.items m) }
        ensures listed { IfOk result (λ dets. dets.items ≡ fin.keys self.new.memory.log) }
        ensures legal { OnOk result (node_restart_fault self.old.recovery ≡ None) }
        ensures refused { IfErr result
            (λ fault. node_restart_fault self.old.recovery ≡ node_reason_of fault) }
        ensures unchanged { OnErr result (self.new ≡ self.old) }
    {
        if let Some(fault) = self.restart_fault() {
            return Err(fault);
        }
        let NodeStage::Gathering(round) = &self.stage else {
            unreachable!()
        };
        let Identity { me, faults, .. } = self.identity;
        let Ok(plan) = restart_plan_of(self.alloc, faults, me, &round.log) else {
            return Err(NodeFault::NoMemory);
        };
        let Ok(reserved) = names_for(self.alloc, me, plan.listed.as_slice()) else {
            return Err(NodeFault::NoMemory);
        };
        let RestartPlan {
            listed,
            process_memory,
        } = plan;
        self.memory = process_memory;
        self.next_batch = None;
        self.received = ReceivedNames::new(self.alloc);
        self.reserved = reserved;
        self.stage = NodeStage::Up;
        Ok(listed)
    }
}
