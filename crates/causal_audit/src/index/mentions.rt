//! The positions of the entries that mention each determinant.
ghost use Rattle.std.specs.Prelude.{◌≡◌, ◌<◌, ◌≤◌, ◌+◌, ◌^◌, ◌∷◌, ◌++◌, [], ℕ, List, Some, IfOk, OnOk, length, sum};
ghost use Rattle.std.specs.List.{All, flat_map};
ghost use Rattle.causal_name.specs.declared.Det.{Det};
ghost use Rattle.causal_trace.specs.declared.entry.Entry.{Entry};
ghost use Rattle.causal_trace.specs.Limits.{max_entries};
ghost use Rattle.causal_trace.specs.Numbers.{delivered_dets, number_of};
ghost use Rattle.causal_trace.specs.Past.{deliveries_in, instant, mentioned_dets};
ghost use Rattle.causal_audit.specs.Inside.Index.Lists.{AreMentions, AreNumbersOf, HaveNumbers, mentions_of, past_of};
ghost use Rattle.causal_audit.specs.Inside.Index.Packed.{AreOccurrences, HaveCapacityFor};
ghost use Rattle.causal_audit.specs.Inside.Index.RunIndexes.{IsMentionIndex};

use crate::index::packed_lists::{PackedLists, PackedListsBuilder};
use causal_name::{Det, NoMemory};
use causal_trace::entry::Entry;
use causal_trace::trace::Trace;
use std::alloc::Global;

/// Lists of positions, by the numbers of a trace's first deliveries. The list of a determinant is at its newest
/// delivery among these.
#[derive(Drop)]
pub struct Mentions {
    pub lists: PackedLists,
}

/// Up to this many entries, or this many restarts of the run, searches are short or few, so only the first deliveries
/// get lists.
const FEW_ENTRIES: usize = 4_096;

const FEW_RESTARTS: u32 = 16;

/// Returns 1 for a delivery, and 0 for another entry.
fn delivery_in(entry: &Entry) -> usize
    ensures few { result ≤ 1 }
    ensures count { (past : List Entry) →
        deliveries_in (entry.now ∷ past) ≡ deliveries_in past + result }
{
    match entry {
        Entry::Deliver { .. } => 1,
        Entry::Send { .. } => 0,
        Entry::Stable { .. } => 0,
        Entry::Crash { .. } => 0,
        Entry::Restart { .. } => 0,
        Entry::Forget { .. } => 0,
    }
}

/// Returns how many of these entries are deliveries.
fn deliveries_in(entries: &[Entry]) -> usize
    requires { length entries.now ≤ max_entries }
    ensures { result ≡ deliveries_in (past_of entries.now) }
{
    let mut count = 0;
    for entry in entries {
        count += delivery_in(entry);
    }
    count
}

/// Checks whether all deliveries of the trace get lists: those before the instant `end` are all, or searches up to it may
/// be many and long.
fn needs_all_lists(trace: &Trace, end: u32) -> bool {
    end == trace.len() || (end as usize > FEW_ENTRIES && trace.restarts() > FEW_RESTARTS)
}

/// Returns how many of the trace's first deliveries get lists: those before the instant `end`. A search then skips
/// later deliveries of the same message, at most one for each lane. If that could take long, all deliveries get lists.
fn lists_needed(trace: &Trace, end: u32) -> usize
    requires { end ≤ length trace.now.recording.past }
    ensures { deliveries_in (instant trace.now.recording.past end) ≤ result }
{
    if needs_all_lists(trace, end) {
        return trace.deliveries() as usize;
    }
    deliveries_in(&trace.entries()[..end as usize])
}

/// Appends the numbers of more determinants, among the trace's first `among` deliveries.
///
/// # Errors
/// `NoMemory` if allocation fails.
fn note_numbers(
    numbers: &mut Vec<u32>,
    trace: &Trace,
    dets: &[Det],
    among: usize,
) -> Result<(), NoMemory>
    requires { HaveNumbers among (delivered_dets trace.now.recording.past) dets.now }
    ensures { OnOk result ((before : List Det) →
        AreNumbersOf among (delivered_dets trace.now.recording.past) before numbers.old.items →
        AreNumbersOf among (delivered_dets trace.now.recording.past)
        (before ++ dets.now) numbers.new.items) }
{
    for det in dets {
        let Some(number) = trace.delivery_of(*det, among) else {
            unreachable!();
        };
        numbers.push(number)?;
    }
    Ok(())
}

/// Returns the numbers of the determinants that these entries mention, in order, among the trace's first `among`
/// deliveries.
///
/// # Errors
/// `NoMemory` if allocation fails.
fn numbers_of(
    alloc: Global,
    trace: &Trace,
    entries: &[Entry],
    among: usize,
) -> Result<Vec<u32>, NoMemory>
    requires { All (λ entry. HaveNumbers among (delivered_dets trace.now.recording.past)
        (mentioned_dets entry)) entries.now }
    ensures { IfOk result (λ numbers. AreNumbersOf among
        (delivered_dets trace.now.recording.past)
        (flat_map mentioned_dets entries.now) numbers.items) }
{
    let mut numbers = Vec::new(alloc);
    for entry in entries {
        note_numbers(&mut numbers, trace, entry.mentioned_dets(), among)?;
    }
    Ok(numbers)
}

/// Returns how often each number below `count` occurs.
///
/// # Errors
/// `NoMemory` if allocation fails.
fn occurrences(alloc: Global, numbers: &[u32], count: usize) -> Result<Vec<u32>, NoMemory>
    requires low { All (λ number. number < count) numbers.now }
    requires few { length numbers.now < 2 ^ 32 }
    ensures count { IfOk result (λ counts. length counts.items ≡ count) }
    ensures each { IfOk result (λ counts. AreOccurrences counts.items numbers.now) }
    ensures sum { IfOk result (λ counts. sum counts.items ≡ length numbers.now) }
{
    let mut counts: Vec<u32> = vec![in alloc; 0; count]?;
    for number in numbers {
        counts[*number as usize] += 1;
    }
    Ok(counts)
}

/// Returns `count` empty lists, each with capacity for as many positions as its number occurs.
#[tactic(auto, using(crate::proofs::index::Capacities::spare_all))]
fn allocate_lists(
    alloc: Global,
    numbers: &[u32],
    count: usize,
) -> Result<PackedListsBuilder, NoMemory>
    requires low { All (λ number. number < count) numbers.now }
    requires few { length numbers.now < 2 ^ 32 }
    ensures count { IfOk result (λ builder. length builder.lists ≡ count) }
    ensures empty { IfOk result (λ builder. All (λ list. list ≡ []) builder.lists) }
    ensures capacity { IfOk result (λ builder. HaveCapacityFor builder numbers.now) }
{
    let counts = occurrences(alloc, numbers, count)?;
    PackedListsBuilder::with_capacities(alloc, &counts)
}

/// Appends the position i of one more entry, which mentions the determinants of these numbers. The lists have spare
/// capacity for them.
fn note(builder: &mut PackedListsBuilder, numbers: &[u32], i: u32)
    requires low { All (λ number. number < length builder.old.lists) numbers.now }
    requires capacity { HaveCapacityFor builder.old numbers.now }
    ensures noted { (past : List Entry) (delivered : List Det) (entry : Entry) → length past ≡ i →
        AreNumbersOf (length builder.old.lists) delivered (mentioned_dets entry) numbers.now →
        AreMentions past delivered builder.old.lists →
        AreMentions (entry ∷ past) delivered builder.new.lists }
    ensures count { length builder.new.lists ≡ length builder.old.lists }
    ensures spare { (rest : List ℕ) → HaveCapacityFor builder.old (numbers.now ++ rest) →
        HaveCapacityFor builder.new rest }
{
    for number in numbers {
        builder.add(*number as usize, i);
    }
}

impl Mentions {
    /// Returns the list of a determinant of this trace.
    pub fn list(&self, trace: &Trace, det: Det) -> &[u32]
        ensures { result.now ≡
            mentions_of (delivered_dets trace.now.recording.past) self.now.lists det }
    {
        match trace.delivery_of(det, self.lists.len()) {
            Some(number) => self.lists.get(number as usize),
            None => &[],
        }
    }

    /// Returns the list of the determinant of a numbered delivery. The list is at the newest delivery with the
    /// determinant, so nothing is searched if the numbered delivery has one.
    pub fn list_by(&self, trace: &Trace, det: Det, number: u32) -> &[u32]
        requires { number_of (number + 1) (delivered_dets trace.now.recording.past) det
            ≡ Some number }
        ensures { (past : List Entry) →
            IsMentionIndex trace.now.recording.past past self.now → result.now ≡
            mentions_of (delivered_dets trace.now.recording.past) self.now.lists det }
    {
        let own = self.lists.get(number as usize);
        if own.is_empty() {
            return self.list(trace, det);
        }
        own
    }
}

/// Returns the positions of these entries, by the numbers of the determinants that they mention. `numbers` contains
/// these numbers in order; there are `among` lists.
///
/// # Errors
/// `NoMemory` if allocation fails.
fn build_mentions(
    alloc: Global,
    entries: &[Entry],
    numbers: &[u32],
    among: usize,
) -> Result<Mentions, NoMemory>
    requires few { length entries.now ≤ max_entries }
    requires countable { length numbers.now < 2 ^ 32 }
    requires numbered { (delivered : List Det) ×
        AreNumbersOf among delivered (flat_map mentioned_dets entries.now) numbers.now }
    ensures { IfOk result (λ mentions. (delivered : List Det) →
        AreNumbersOf among delivered (flat_map mentioned_dets entries.now) numbers.now →
        AreMentions (past_of entries.now) delivered mentions.lists) }
{
    let mut builder = allocate_lists(alloc, numbers, among)?;
    let mut rest = numbers;
    for (i, entry) in entries.iter().enumerate() {
        let (own, later) = rest.split_at(entry.mentioned_dets().len());
        note(&mut builder, own, i as u32);
        rest = later;
    }
    let lists = builder.finish();
    Ok(Mentions { lists })
}

/// Returns the ascending positions of the entries before the instant `end` that mention each determinant. Each mention
/// is searched once; its number takes 4 bytes until all lists are built.
///
/// # Errors
/// `NoMemory` if allocation fails.
pub fn mentions_in(alloc: Global, trace: &Trace, end: u32) -> Result<Mentions, NoMemory>
    requires { end ≤ length trace.now.recording.past }
    ensures { IfOk result (λ mentions. IsMentionIndex trace.now.recording.past
        (instant trace.now.recording.past end) mentions) }
{
    let entries = &trace.entries()[..end as usize];
    let among = lists_needed(trace, end);
    let numbers = numbers_of(alloc, trace, entries, among)?;
    build_mentions(alloc, entries, numbers.as_slice(), among)
}
