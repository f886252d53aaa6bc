//! The trace: a well-formed recorded run.
ghost use Rattle.std.specs.Prelude.{◌≡◌, ◌≤◌, ◌+◌, [], ◌∷◌, ◌<◌, false, not, Some, None, IfSome, IfOk, IfErr, OnOk, OnErr, length};
ghost use Rattle.std.specs.Option.{option_copied, option_map_or};
ghost use Rattle.causal_name.specs.Names.{is_ascending, message_of};
ghost use Rattle.causal_trace.specs.Limits.{max_entries};
ghost use Rattle.causal_trace.specs.Past.{message_sent};
ghost use Rattle.causal_trace.specs.Numbers.{delivered_dets};
ghost use Rattle.causal_trace.specs.State.{past_at};
ghost use Rattle.causal_trace.specs.Inside.Chains.{HasHead, heads_after, nodes_after};
ghost use Rattle.causal_trace.specs.Inside.SortedDeliveries.{AreDeliveries};

use crate::chains::{Chains, MessageReceipt, Search};
use crate::entry::{Dets, Entry, is_det};
use crate::fault::{RefusedEntry, TraceFault};
use crate::lanes::{LaneState, clone_entries, clone_lanes, count_entry, new_lanes, restarts_in};
use crate::limits::{DEFAULT_LIMITS, Limits, MAX_ENTRIES, MAX_LISTED, MAX_PROCESSES};
use crate::scans;
use crate::sorted_deliveries::SortedDeliveries;
use causal_name::{Det, MsgName, NoMemory, Pid};
use std::alloc::Global;
use std::marker::Model;

/// With more restarts than this, a trace keeps its deliveries sorted, since a message may have many receipts.
const FEW_RESTARTS: u32 = 192;

/// A trace: a well-formed recorded run of 1 to 256 processes. Every trace is within 16,777,216 entries, 268,435,456
/// listed determinants and 65,536 restarts. `push` applies the smaller default limits, `push_within` those of its
/// caller.
///
/// Contracts see its recording, and how many further pushes cannot fail to allocate: of any entries, and of stable
/// entries. Equality compares the recordings only.
///
/// Besides the entries it stores each process's present lane (incarnation), and the receivers and lanes of each
/// message's deliveries. So a push takes O(1) time, plus O(lanes) for the message that it delivers and for each
/// determinant that it mentions. With more than 192 restarts the deliveries are sorted too: the push that begins this
/// takes O(entries log entries) time, and from then on a delivery and each mentioned determinant take O(log entries).
/// If an allocation for this fails, the sorted deliveries are given up. No input makes a push slower.
#[derive(Drop)]
pub struct Trace {
    processes: u16,
    entries: Vec<Entry>,
    listed: u32,
    restarts: u32,
    lanes: Vec<LaneState>,
    chains: Chains,
    sorted: SortedDeliveries,
}

impl Model for Trace {
    ghost use Rattle.std.specs.Prelude.{◌-◌, min, vec_len, vec_capacity, reverse};
    ghost use Rattle.causal_trace.specs.State.{TraceState};
    ghost use Rattle.causal_trace.specs.Inside.Index.{IsIndexed};

    ghost Value = { TraceState };

    ghost view = { λ a. record { recording = record { processes = a.processes; past = reverse a.entries.items }; spare = min (vec_capacity a.entries - vec_len a.entries) a.chains.spare; stable_spare = vec_capacity a.entries - vec_len a.entries } };

    ghost invariant = { λ a. IsIndexed (record { processes = a.processes; past = reverse a.entries.items }) a.listed a.restarts a.lanes.items a.chains a.sorted };
}

impl PartialEq for Trace {
    ghost use Rattle.std.specs.Prelude.{◌==◌, ◌&&◌};
    ghost use lib.Pointwise.{pointwise};
    ghost use Rattle.std.specs.Cmp.{and_per, on_per, nat_eq_equiv, partial_equiv_from_equiv};
    ghost use Rattle.std.specs.Cmp.Lexicographic.{lists_per};
    ghost use Rattle.causal_trace.specs.State.{entries_of};
    ghost use Rattle.causal_trace.specs.contracts.entry.EntryPartialEq.TheImpl.Laws.{laws-law as entry_laws};

    ghost eq = { λ a b. a.recording.processes == b.recording.processes && pointwise ⟦<Entry as PartialEq>⟧.eq (entries_of a.recording) (entries_of b.recording) };

    ghost laws = { and_per (on_per (λ a. a.recording.processes) (partial_equiv_from_equiv nat_eq_equiv)) (on_per (λ a. entries_of a.recording) (lists_per entry_laws)) };

    fn eq(&self, other: &Trace) -> bool {
        other.processes == self.processes && self.entries == other.entries
    }
}

impl Trace {
    ghost use Rattle.causal_trace.specs.Limits.{max_listed, max_restarts, IsProcessCount};
    ghost use Rattle.causal_name.specs.declared.Det.{Det};
    ghost use Rattle.causal_trace.specs.Past.{lane, entry_at, listed_in, restarts, deliveries_in, det_at, is_delivered, has_delivered};
    ghost use Rattle.causal_trace.specs.Numbers.{delivered_dets, number_of};
    ghost use Rattle.causal_trace.specs.Rows.{fault_by_refusal_rows, fault_by_rows_within, fault_within, fault_next, refusal_within, refusal_next, returned_entry, IsNewRefusal, exceeds, exceeds_any_limit, are_delivered_with, first_refusal, IsWellFormed};
    ghost use Rattle.causal_trace.specs.Inside.Index.{lane_state};
    ghost use Rattle.causal_trace.specs.State.{entries_of, with_entry, is_up_at, lane_at};

    /// Returns a trace of n processes with no entries.
    ///
    /// # Errors
    /// `Processes` if n is not from 1 to 256, otherwise `NoMemory` if an allocation failed.
    #[tactic(auto, using(crate::proofs::TraceIndex::indexed_none))]
    pub fn new(alloc: Global, n: u16) -> Result<Trace, TraceFault>
        ensures ok { IfOk result (λ trace. IsProcessCount n ×
            (trace.recording ≡ record { processes = n; past = [] })) }
        ensures refused { IfErr result (IsNewRefusal n) }
    {
        if n == 0 || n > MAX_PROCESSES {
            return Err(TraceFault::Processes);
        }
        Ok(Trace {
            processes: n,
            entries: Vec::new(alloc),
            listed: 0,
            restarts: 0,
            lanes: new_lanes(alloc, n as usize)?,
            chains: Chains::new(alloc, n as usize)?,
            sorted: SortedDeliveries::new(alloc),
        })
    }

    /// Appends the entry if it is legal and the trace stays within the default limits: 65,536 entries, 1,048,576
    /// listed determinants and 192 restarts. On an error the entry is dropped and the trace is unchanged.
    ///
    /// # Errors
    /// The first variant of `TraceFault` that applies to the entry; `NoMemory` if none applies and an allocation
    /// failed.
    pub fn push(&mut self, entry: Entry) -> Result<(), TraceFault>
        ensures legal { OnOk result (fault_next self.old.recording entry ≡ None) }
        ensures ok { OnOk result (self.new.recording ≡ with_entry self.old.recording entry) }

        // The first refusal row that holds, or `NoMemory` if none holds.
        ensures refused { IfErr result (λ fault. fault ≡ refusal_next self.old.recording entry) }
        ensures err { OnErr result (self.new.recording ≡ self.old.recording) }

        ensures spare { self.old.spare ≤ self.new.spare + 1 }
        ensures memory { result ≡ Err TraceFault.NoMemory → self.old.spare ≡ 0 }
    {
        self.push_within(DEFAULT_LIMITS, entry)
    }

    /// Appends the entry as `push` does, with the caller's limits in place of the default limits.
    ///
    /// # Errors
    /// Those of `push`; `TooLong` if the trace would exceed these limits, `Lanes` at a restart beyond their number.
    pub fn push_within(&mut self, limits: Limits, entry: Entry) -> Result<(), TraceFault>
        ensures legal { OnOk result (fault_within limits.entries self.old.recording entry ≡ None) }
        ensures ok { OnOk result (self.new.recording ≡ with_entry self.old.recording entry) }
        ensures refused { IfErr result (λ fault. fault ≡
            refusal_within limits.entries self.old.recording entry) }
        ensures err { OnErr result (self.new.recording ≡ self.old.recording) }
        ensures spare { self.old.spare ≤ self.new.spare + 1 }
        ensures memory { result ≡ Err TraceFault.NoMemory → self.old.spare ≡ 0 }
    {
        match self.try_push(limits, entry) {
            Ok(()) => Ok(()),
            Err(refused) => Err(refused.fault),
        }
    }

    /// Appends the entry as `push_within` does. The error contains a refused entry, unless an allocation failed.
    ///
    /// # Errors
    /// Those of `push_within`.
    #[tactic(auto, using(crate::proofs::Lemmas::WellFormed::rows_next, crate::proofs::Lemmas::WellFormed::no_memory_within))]
    pub fn try_push(&mut self, limits: Limits, entry: Entry) -> Result<(), RefusedEntry>
        ensures legal { OnOk result (fault_within limits.entries self.old.recording entry ≡ None) }
        ensures ok { OnOk result (self.new.recording ≡ with_entry self.old.recording entry) }
        ensures refused { IfErr result (λ refused. refused.fault ≡
            refusal_within limits.entries self.old.recording entry) }
        ensures returned { IfErr result (λ refused. refused.entry ≡
            returned_entry limits.entries self.old.recording entry) }
        ensures err { OnErr result (self.new.recording ≡ self.old.recording) }
        ensures spare { self.old.spare ≤ self.new.spare + 1 }
        ensures memory { IfErr result (λ refused. refused.fault ≡ TraceFault.NoMemory →
            self.old.spare ≡ 0) }
    {
        if let Some(fault) = self.fault_within(limits, &entry) {
            return Err(RefusedEntry {
                fault,
                entry: Some(entry),
            });
        }
        match self.append(entry) {
            Ok(()) => Ok(()),
            Err(NoMemory) => Err(RefusedEntry {
                fault: TraceFault::NoMemory,
                entry: None,
            }),
        }
    }

    /// Appends a legal entry in reserved capacity. It cannot fail; only the sorted deliveries allocate.
    pub fn push_reserved(&mut self, entry: Entry)
        requires legal { fault_by_refusal_rows self.old.recording entry ≡ None }
        requires room { 1 ≤ self.old.spare }
        ensures recording { self.new.recording ≡ with_entry self.old.recording entry }
        ensures formed { IsWellFormed self.new.recording }
        ensures spare { self.old.spare ≤ self.new.spare + 1 }
    {
        let _ = self.append(entry);
    }

    /// Appends a legal entry.
    fn append(&mut self, entry: Entry) -> Result<(), NoMemory>
        requires { fault_by_refusal_rows self.old.recording entry ≡ None }
        ensures ok { OnOk result (self.new.recording ≡ with_entry self.old.recording entry) }
        ensures err { OnErr result (self.new.recording ≡ self.old.recording) }
        ensures formed { IsWellFormed self.new.recording }
        ensures spare { self.old.spare ≤ self.new.spare + 1 }
        ensures full { OnErr result (self.old.spare ≡ 0) }
    {
        let own = scans::det_of_next(self.entries.as_slice(), &entry);
        let lane = self.receipt_lane(own);
        let number = self.deliveries();
        self.entries.reserve(1)?;
        add_to_chains(&mut self.chains, &entry, own, lane)?;
        let begins = is_first_of_many(self.restarts, &entry);
        self.sorted
            .add_next(begins, self.entries.as_slice(), &entry, number);
        count_entry(self.lanes.as_mut_slice(), &entry);
        self.restarts += restarts_in(&entry);
        self.listed += entry.listed_count() as u32;
        self.entries.push_reserved(entry);
        Ok(())
    }

    /// Returns the present lane of a determinant's receiver, 0 without a determinant.
    #[tactic(auto, unfolding(crate::specs::Inside::Index::lane_state))]
    fn receipt_lane(&self, own: Option<Det>) -> u32
        requires { IfSome own (λ d. d.dest.0 < self.now.recording.processes) }
        ensures { (d : Det) → own ≡ Some d → result ≡ lane self.now.recording.past d.dest.0 }
    {
        match own {
            Some(det) => self.present_lane(det.dest).restarts,
            None => 0,
        }
    }

    /// Reserves capacity for the next `entries` pushes, so that none of them returns `NoMemory`. It reserves
    /// `entries` entries and deliveries, and `entries` sends of each process.
    ///
    /// # Errors
    /// `NoMemory` if an allocation failed; the recording is unchanged.
    #[tactic(auto, using(crate::proofs::TraceIndex::indexed_same))]
    pub fn reserve(&mut self, entries: u32) -> Result<(), NoMemory>
        ensures recording { self.new.recording ≡ self.old.recording }
        ensures ok { OnOk result (entries ≤ self.new.spare) }
        ensures spare { self.old.spare ≤ self.new.spare }
        ensures refused { OnErr result (self.old.spare < entries) }
    {
        let room = entries as usize;
        self.entries.reserve(room)?;
        self.chains.reserve(room)?;
        Ok(())
    }

    /// Appends a legal stable entry in reserved capacity. It allocates nothing and cannot fail.
    pub fn push_stable_reserved(&mut self, det: Det)
        requires legal { fault_by_refusal_rows self.old.recording (Entry.Stable det) ≡ None }
        requires room { 1 ≤ self.old.stable_spare }
        ensures recording { self.new.recording ≡ with_entry self.old.recording (Entry.Stable det) }
        ensures formed { IsWellFormed self.new.recording }
        ensures spare { self.old.stable_spare ≤ self.new.stable_spare + 1 }
    {
        self.entries.push_reserved(Entry::Stable { det });
    }

    /// Reserves capacity for the next `entries` pushes of stable entries. It reserves entries only, since a stable
    /// entry sends and delivers nothing.
    ///
    /// # Errors
    /// `NoMemory` if an allocation failed; the recording is unchanged.
    pub fn reserve_stable(&mut self, entries: u32) -> Result<(), NoMemory>
        ensures recording { self.new.recording ≡ self.old.recording }
        ensures ok { OnOk result (entries ≤ self.new.stable_spare) }
        ensures refused { OnErr result (self.old.stable_spare < entries) }
    {
        self.entries.reserve(entries as usize)?;
        Ok(())
    }

    /// Returns the number of entries. The trace is well formed.
    pub fn len(&self) -> u32
        ensures length { result ≡ length self.now.recording.past }
        ensures formed { IsWellFormed self.now.recording }
        ensures few { result ≤ max_entries }
        ensures listed { listed_in self.now.recording.past ≤ max_listed }
    {
        self.entries.len() as u32
    }

    /// Returns the number of processes, 1 to 256; they are numbered from 0. The trace is well formed.
    pub fn processes(&self) -> u16
        ensures value { result ≡ self.now.recording.processes }
        ensures formed { IsWellFormed self.now.recording }
        ensures few { length self.now.recording.past ≤ max_entries }
    {
        self.processes
    }

    /// Returns how many determinants the entries list in all.
    pub fn listed(&self) -> u32
        ensures value { result ≡ listed_in self.now.recording.past }
        ensures few { result ≤ max_listed }
    {
        self.listed
    }

    /// Returns the number of restarts, 0 to 65,536.
    #[tactic(auto, using(crate::proofs::Sizes::restarts_few))]
    pub fn restarts(&self) -> u32
        ensures value { result ≡ restarts self.now.recording.past }
        ensures few { result ≤ max_restarts }
    {
        self.restarts
    }

    /// Returns the entries, oldest first. The trace is well formed.
    pub fn entries(&self) -> &[Entry]
        ensures value { result.now ≡ entries_of self.now.recording }
        ensures formed { IsWellFormed self.now.recording }
        ensures few { length self.now.recording.past ≤ max_entries }
    {
        self.entries.as_slice()
    }

    /// Returns the entry at position i; None if i is not below the length.
    #[tactic(auto, using(crate::proofs::Lemmas::Instants::entry_of))]
    pub fn entry(&self, i: u32) -> Option<&Entry>
        ensures { option_copied result ≡ entry_at self.now.recording.past i }
    {
        scans::entry(self.entries.as_slice(), i)
    }

    /// Returns the determinant of the delivery at position i; None if that entry is not a delivery.
    pub fn det_at(&self, i: u32) -> Option<Det>
        ensures { result ≡ det_at self.now.recording.past i }
    {
        scans::det_at(self.entries.as_slice(), i)
    }

    /// Returns the number of deliveries.
    #[tactic(auto, using(crate::proofs::TraceIndex::deliveries_in_few))]
    pub fn deliveries(&self) -> u32
        ensures { result ≡ deliveries_in self.now.recording.past }
    {
        self.chains.len() as u32
    }

    /// Returns the number, counted from 0, of the newest delivery with this determinant among the first `among`
    /// deliveries; None if there is none. O(lanes that delivered the message) time; with sorted deliveries O(log
    /// entries).
    #[tactic(auto, using(crate::proofs::Lemmas::DeliveryNumbers::number_among, crate::proofs::Lemmas::DeliveryNumbers::number_below, crate::proofs::SortedLemmas::dets_few))]
    pub fn delivery_of(&self, det: Det, among: usize) -> Option<u32>
        ensures value { result ≡ number_of among (delivered_dets self.now.recording.past) det }
        ensures among { IfSome result (λ i. i < among) }
        ensures below { IfSome result (λ i. i < deliveries_in self.now.recording.past) }
    {
        if !self.sorted.is_complete() {
            return self.chains.find(det, among);
        }
        match self
            .chains
            .find_near(self.chains.head(det.message()), det, among)
        {
            Search::Finished(found) => found,
            Search::Unfinished => self.sorted.newest(det, among),
        }
    }

    /// Returns the number of the newest delivery with this determinant before delivery `number`, which must have it
    /// too; None if there is none. The search continues in the message's chain from that delivery. All calls for one
    /// determinant, each with the last result, take O(lanes that delivered the message) time together; with sorted
    /// deliveries a call takes O(log entries).
    #[tactic(auto, using(crate::proofs::TraceIndex::older_place, crate::proofs::DeliveryPlaces::place_among, crate::proofs::Lemmas::DeliveryNumbers::number_among, crate::proofs::SortedLemmas::dets_few))]
    pub fn older_delivery(&self, det: Det, number: u32) -> Option<u32>
        requires { number_of (number + 1) (delivered_dets self.now.recording.past) det
            ≡ Some number }
        ensures value { result ≡ number_of number (delivered_dets self.now.recording.past) det }
        ensures older { IfSome result (λ i. i < number) }
    {
        if !self.sorted.is_complete() {
            return self.chains.find_from(Some(number), det, number as usize);
        }
        match self.chains.find_near(Some(number), det, number as usize) {
            Search::Finished(found) => found,
            Search::Unfinished => self.sorted.newest(det, number as usize),
        }
    }

    /// Checks whether process p is up after the first t entries; false if p is not below `processes`. O(t) time: a
    /// caller that needs every instant iterates over `entries` instead.
    #[tactic(auto, using(crate::proofs::Lemmas::AtInstants::asked_instant))]
    pub fn up(&self, t: u32, p: Pid) -> bool
        requires { t ≤ length self.now.recording.past }
        ensures { result ≡ is_up_at self.now.recording t p.0 }
    {
        (p.0 as u16) < self.processes && !scans::is_down_at(self.entries.as_slice(), t as usize, p)
    }

    /// Returns the lane of process p after the first t entries, which is its number of restarts; None if p is not
    /// below `processes`. O(t) time: a caller that needs every instant iterates over `entries` instead.
    #[tactic(auto, using(crate::proofs::Lemmas::AtInstants::asked_instant))]
    pub fn lane(&self, t: u32, p: Pid) -> Option<u32>
        requires { t ≤ length self.now.recording.past }
        ensures { result ≡ lane_at self.now.recording t p.0 }
    {
        if (p.0 as u16) < self.processes {
            Some(scans::lane_at(self.entries.as_slice(), t as usize, p) as u32)
        } else {
            None
        }
    }

    /// Checks whether the process's present lane has delivered the message; false if p is not below `processes`.
    /// O(lanes that delivered the message) time; it reads no entry.
    #[tactic(auto, using(crate::proofs::LaneRecords::received_told, crate::proofs::LaneRecords::received_there))]
    pub fn has_delivered(&self, p: Pid, message: MsgName) -> bool
        ensures { result ≡ has_delivered self.now.recording.past p.0 message }
    {
        if (p.0 as u16) >= self.processes {
            return false;
        }
        let lane = self.present_lane(p).restarts;
        self.chains.is_newest_in(message, p, lane)
    }

    /// Returns an equal trace. O(entries) time; if the deliveries are sorted, they are sorted again.
    ///
    /// # Errors
    /// `NoMemory` if an allocation failed.
    pub fn try_clone(&self) -> Result<Trace, NoMemory>
        ensures { IfOk result (λ copy. copy.recording ≡ self.now.recording) }
    {
        let entries = clone_entries(&self.entries)?;
        let lanes = clone_lanes(&self.lanes)?;
        let chains = self.chains.try_clone()?;
        let sorted = sorted_again(
            &self.sorted,
            self.entries.as_slice(),
            *self.entries.allocator(),
        );
        Ok(Trace {
            processes: self.processes,
            entries,
            listed: self.listed,
            restarts: self.restarts,
            lanes,
            chains,
            sorted,
        })
    }

    /// Returns the present lane of a process.
    fn present_lane(&self, p: Pid) -> LaneState
        requires { p.0 < self.now.recording.processes }
        ensures { result ≡ lane_state self.now.recording.past p.0 }
    {
        self.lanes[p.0 as usize]
    }

    /// Checks whether the process's present lane has delivered an optional message; false without one.
    fn has_received(&self, p: Pid, message: Option<MsgName>) -> bool
        ensures { result ≡ option_map_or (has_delivered self.now.recording.past p.0) message false }
    {
        match message {
            Some(m) => self.has_delivered(p, m),
            None => false,
        }
    }

    /// Checks whether a delivery has this determinant.
    #[tactic(auto, using(crate::proofs::Lemmas::DeliveryNumbers::delivered_numbered, crate::proofs::Lemmas::DeliveryNumbers::listed_once))]
    fn is_delivered(&self, det: Det) -> bool
        ensures { result ≡ is_delivered self.now.recording.past det }
    {
        self.delivery_of(det, self.deliveries() as usize).is_some()
    }

    /// Checks whether each determinant is that of a delivery, or `own`.
    fn are_delivered_with(&self, own: Option<Det>, dets: &[Det]) -> bool
        ensures { result ≡ are_delivered_with self.now.recording.past own dets.now }
    {
        dets.iter()
            .all(|d| is_det(own, *d) || self.is_delivered(*d))
    }

    /// Checks whether one more entry with this many listed determinants would exceed these limits. O(1) time.
    pub fn exceeds(&self, limits: Limits, listed: usize) -> bool
        ensures { result ≡ exceeds limits.entries self.now.recording.past listed }
    {
        let all = (listed as u64).saturating_add(u64::from(self.listed));
        self.len() >= limits.entries || all > limits.listed_limit()
    }

    /// Checks whether one more entry with this many listed determinants would exceed a limit of any trace.
    fn exceeds_any_limit(&self, listed: usize) -> bool
        ensures { result ≡ exceeds_any_limit self.now.recording.past listed }
    {
        self.entries.len() >= MAX_ENTRIES || listed > MAX_LISTED - self.listed as usize
    }

    #[tactic(auto, unfolding(crate::specs::Rows::rows_within))]
    fn send_fault(&self, from: Pid, to: Pid, ssn: u32) -> Option<TraceFault>
        ensures { result ≡ fault_by_refusal_rows self.now.recording (Entry.Send from to ssn) }
    {
        if self.exceeds_any_limit(0) {
            return Some(TraceFault::TooLong);
        }
        if !((from.0 as u16) < self.processes && (to.0 as u16) < self.processes) {
            return Some(TraceFault::NoProcess);
        }
        let lane = self.present_lane(from);
        if lane.down {
            return Some(TraceFault::NotUp);
        }
        if ssn != lane.sends {
            return Some(TraceFault::WrongSsn);
        }
        None
    }

    #[tactic(auto, unfolding(crate::specs::Rows::rows_within))]
    fn deliver_fault(&self, to: Pid, send: u32, rsn: u32, listed: &Dets) -> Option<TraceFault>
        ensures { result ≡ fault_by_refusal_rows self.now.recording
            (Entry.Deliver to send rsn listed.now) }
    {
        if self.exceeds_any_limit(listed.as_slice().len()) {
            return Some(TraceFault::TooLong);
        }
        if (to.0 as u16) >= self.processes {
            return Some(TraceFault::NoProcess);
        }
        let lane = self.present_lane(to);
        if lane.down {
            return Some(TraceFault::NotUp);
        }
        if !scans::is_sent_to(self.entries.as_slice(), send, to) {
            return Some(TraceFault::NoSend);
        }
        if rsn != lane.deliveries {
            return Some(TraceFault::WrongRsn);
        }
        let message = scans::message_sent_at(self.entries.as_slice(), send);
        if self.has_received(to, message) {
            return Some(TraceFault::Doubled);
        }
        self.listed_fault(scans::det_from(to, rsn, message), listed)
    }

    #[tactic(auto, unfolding(crate::specs::Rows::rows_within))]
    fn stable_fault(&self, det: Det) -> Option<TraceFault>
        ensures { result ≡ fault_by_refusal_rows self.now.recording (Entry.Stable det) }
    {
        if self.exceeds_any_limit(0) {
            return Some(TraceFault::TooLong);
        }
        if !self.is_delivered(det) {
            return Some(TraceFault::NoDelivery);
        }
        None
    }

    #[tactic(auto, unfolding(crate::specs::Rows::rows_within))]
    fn crash_fault(&self, who: Pid) -> Option<TraceFault>
        ensures { result ≡ fault_by_refusal_rows self.now.recording (Entry.Crash who) }
    {
        if self.exceeds_any_limit(0) {
            return Some(TraceFault::TooLong);
        }
        if (who.0 as u16) >= self.processes {
            return Some(TraceFault::NoProcess);
        }
        if self.present_lane(who).down {
            return Some(TraceFault::NotUp);
        }
        None
    }

    #[tactic(auto, unfolding(crate::specs::Rows::rows_within))]
    fn restart_fault(&self, most: u32, who: Pid, listed: &Dets) -> Option<TraceFault>
        ensures { result ≡ fault_by_rows_within most self.now.recording
            (Entry.Restart who listed.now) }
    {
        if self.exceeds_any_limit(listed.as_slice().len()) {
            return Some(TraceFault::TooLong);
        }
        if (who.0 as u16) >= self.processes {
            return Some(TraceFault::NoProcess);
        }
        if !self.present_lane(who).down {
            return Some(TraceFault::NotDown);
        }
        if self.restarts >= most {
            return Some(TraceFault::Lanes);
        }
        self.listed_fault(None, listed)
    }

    #[tactic(auto, unfolding(crate::specs::Rows::rows_within))]
    fn forget_fault(&self, who: Pid, listed: &Dets) -> Option<TraceFault>
        ensures { result ≡ fault_by_refusal_rows self.now.recording (Entry.Forget who listed.now) }
    {
        if self.exceeds_any_limit(listed.as_slice().len()) {
            return Some(TraceFault::TooLong);
        }
        if (who.0 as u16) >= self.processes {
            return Some(TraceFault::NoProcess);
        }
        if self.present_lane(who).down {
            return Some(TraceFault::NotUp);
        }
        self.listed_fault(None, listed)
    }

    /// Returns the error of the determinants that an entry lists, if its other preconditions hold. `own` is the
    /// entry's own determinant.
    fn listed_fault(&self, own: Option<Det>, listed: &Dets) -> Option<TraceFault>
        ensures { result ≡ first_refusal ((not (is_ascending listed.now), TraceFault.Unsorted)
            ∷ (not (are_delivered_with self.now.recording.past own listed.now), TraceFault.NoDelivery)
            ∷ []) }
    {
        if !listed.is_ascending() {
            return Some(TraceFault::Unsorted);
        }
        if !self.are_delivered_with(own, listed.as_slice()) {
            return Some(TraceFault::NoDelivery);
        }
        None
    }

    /// Returns the first error of the entry under these limits.
    fn fault_within(&self, limits: Limits, entry: &Entry) -> Option<TraceFault>
        ensures { result ≡ fault_within limits.entries self.now.recording entry.now }
    {
        if self.exceeds(limits, entry.listed_count()) {
            return Some(TraceFault::TooLong);
        }
        self.fault_of(limits.restart_limit(), entry)
    }

    /// Returns the first error of the entry, by the refusal rows with at most `most` restarts.
    #[tactic(auto, unfolding(crate::specs::Rows::rows_within))]
    fn fault_of(&self, most: u32, entry: &Entry) -> Option<TraceFault>
        ensures { result ≡ fault_by_rows_within most self.now.recording entry.now }
    {
        match entry {
            Entry::Send { from, to, ssn } => self.send_fault(*from, *to, *ssn),
            Entry::Deliver {
                to,
                send,
                rsn,
                listed,
            } => { self.deliver_fault(*to, *send, *rsn, listed) }
            Entry::Stable { det } => self.stable_fault(*det),
            Entry::Crash { who } => self.crash_fault(*who),
            Entry::Restart { who, listed } => self.restart_fault(most, *who, listed),
            Entry::Forget { who, listed } => self.forget_fault(*who, listed),
        }
    }
}

/// Checks whether the entry is the first restart with which there are more than [`FEW_RESTARTS`], if there are
/// `restarts` before it.
fn is_first_of_many(restarts: u32, entry: &Entry) -> bool {
    restarts == FEW_RESTARTS && restarts_in(entry) == 1
}

/// Returns the sorted deliveries of these entries if `sorted` is complete; otherwise an unused set.
fn sorted_again(sorted: &SortedDeliveries, entries: &[Entry], alloc: Global) -> SortedDeliveries
    requires { length entries.now ≤ max_entries }
    ensures { AreDeliveries result (delivered_dets (past_at entries.now (length entries.now))) }
{
    let mut again = SortedDeliveries::new(alloc);
    again.fill_if(sorted.is_complete(), entries);
    again
}

/// Adds the entry's send or delivery to the chains. `own` is its own determinant, delivered in `lane`.
fn add_to_chains(
    chains: &mut Chains,
    entry: &Entry,
    own: Option<Det>,
    lane: u32,
) -> Result<(), NoMemory>
    requires sent { IfSome (message_sent entry.now) (λ m. m.source.0 < length chains.old.heads) }
    requires delivered { IfSome own (λ d. HasHead chains.old.heads (message_of d)) }
    requires few { length chains.old.nodes < max_entries }
    ensures heads { OnOk result (chains.new.heads ≡
        heads_after (message_sent entry.now) own chains.old) }
    ensures nodes { OnOk result (chains.new.nodes ≡
        nodes_after (message_sent entry.now) own lane chains.old) }
    ensures err { OnErr result ((chains.new.heads ≡ chains.old.heads) ×
        (chains.new.nodes ≡ chains.old.nodes)) }
    ensures spare { chains.old.spare ≤ chains.new.spare + 1 }
    ensures full { OnErr result (chains.old.spare ≡ 0) }
{
    if let Entry::Send { from, ssn, .. } = entry {
        let message = MsgName {
            source: *from,
            ssn: *ssn,
        };
        return chains.add_message(message);
    }
    match own {
        Some(det) => {
            let receipt = MessageReceipt {
                dest: det.dest,
                lane,
                rsn: det.rsn,
            };
            chains.add_receipt(det.message(), receipt)
        }
        None => Ok(()),
    }
}
