//! Shortest paths from an event to the others; each step goes from an event to one that it directly precedes.
ghost use Rattle.std.specs.Prelude.{◌≡◌, ◌∷◌, ◌+◌, ◌<◌, ◌≤◌, ℕ, List, IfOk, IfSome, length, reverse};
ghost use Rattle.std.specs.Option.{is_some};
ghost use Rattle.causal_trace.specs.declared.entry.Entry.{Entry};
ghost use Rattle.causal_trace.specs.Dependence.{AreForward, actor, DirectlyPrecedes, IsEventOf};
ghost use Rattle.causal_trace.specs.Limits.{max_entries};
ghost use Rattle.causal_trace.specs.Past.{lane};
ghost use Rattle.causal_explain.specs.Inside.ShortestPaths.{AreNearest, ArePathSteps, IsLeastDistance, IsPathOfLength, Nearest, PrecedesNext, IsPathStepOf, closer_event};

use causal_name::NoMemory;
use causal_trace::entry::Entry;
use std::alloc::Global;

/// An event, and the number of steps by which it is reached.
#[derive(Clone, Copy)]
pub struct ReachedEvent {
    pub position: u32,
    pub steps: u32,
}

/// The last step of a shortest path to an event, and the number of steps of that path.
#[derive(Clone, Copy)]
pub struct PathStep {
    pub steps: u32,
    /// The event from which the last step goes; for the first event, reached by zero steps, itself.
    pub previous: u32,
}

/// The shortest paths from an event to each entry, and the nearest event of one process's present lane (incarnation).
#[derive(Drop)]
pub struct ShortestPaths {
    pub each: Vec<Option<PathStep>>,
    pub nearest: Option<ReachedEvent>,
}

/// Returns the one of two that is reached by fewer steps.
fn closer_event(one: Option<ReachedEvent>, other: Option<ReachedEvent>) -> Option<ReachedEvent>
    ensures { result ≡ closer_event one other }
{
    match (one, other) {
        (Some(a), Some(b)) => { if b.steps < a.steps { Some(b) } else { Some(a) } }
        (Some(a), None) => Some(a),
        (None, b) => b,
    }
}

/// Returns the event at this position, with the number of steps of its path.
fn reached_by(way: Option<PathStep>, position: u32) -> Option<ReachedEvent>
    ensures { (past : List Entry) (i : ℕ) → IsPathStepOf past i position way →
        Nearest past i (λ k. k ≡ position) result }
{
    match way {
        Some(way) => Some(ReachedEvent {
            position,
            steps: way.steps,
        }),
        None => None,
    }
}

/// Returns the event at a position, if it was read and is reached.
#[tactic(auto, using(crate::proofs::WayLemmas::comes_within))]
fn reached_at(ways: &[Option<PathStep>], position: u32) -> Option<ReachedEvent>
    ensures { (past : List Entry) (i : ℕ) → ArePathSteps past i ways.now →
        Nearest past i (λ k. k ≡ position) result }
{
    match ways.get(position as usize) {
        Some(way) => reached_by(*way, position),
        None => None,
    }
}

/// Returns the nearest of the events that directly precede the next entry.
fn nearest_before(
    entry: &Entry,
    ways: &[Option<PathStep>],
    lanes: &[Option<ReachedEvent>],
) -> Option<ReachedEvent>
    requires { length lanes.now ≡ 256 }
    ensures { (past : List Entry) (i : ℕ) → ArePathSteps past i ways.now →
        AreNearest past i lanes.now →
        Nearest past i (PrecedesNext entry.now past) result }
{
    match entry {
        Entry::Send { from, .. } => lanes[from.0 as usize],
        Entry::Deliver { to, send, .. } => closer_event(
            lanes[to.0 as usize],
            reached_at(ways, *send),
        ),
        _ => None,
    }
}

/// Whether an entry is a send or a delivery.
fn is_event(entry: &Entry) -> bool
    ensures { result ≡ is_some (actor entry.now) }
{
    matches!(entry, Entry::Send { .. } | Entry::Deliver { .. })
}

/// Returns the last step of the path to the next entry, at this position.
fn path_step_to(
    entry: &Entry,
    from: u32,
    position: u32,
    before: Option<ReachedEvent>,
) -> Option<PathStep>
    requires { IfSome before (λ x. x.steps < position) }
    ensures { (past : List Entry) → length past ≡ position → AreForward (entry.now ∷ past) →
        Nearest past from (PrecedesNext entry.now past) before →
        IsPathStepOf (entry.now ∷ past) from position result }
{
    if position == from && is_event(entry) {
        return Some(PathStep {
            steps: 0,
            previous: from,
        });
    }
    match before {
        Some(before) => Some(PathStep {
            steps: before.steps + 1,
            previous: before.position,
        }),
        None => None,
    }
}

/// Updates the nearest event of each lane by one more entry.
fn note_reached(lanes: &mut [Option<ReachedEvent>], entry: &Entry, reached: Option<ReachedEvent>)
    requires { length lanes.old ≡ 256 }
    ensures { (past : List Entry) (i : ℕ) → AreForward (entry.now ∷ past) →
        Nearest (entry.now ∷ past) i (λ k. k ≡ length past) reached → AreNearest past i lanes.old →
        AreNearest (entry.now ∷ past) i lanes.new }
{
    match entry {
        Entry::Send { from, .. } => {
            let p = from.0 as usize;
            lanes[p] = closer_event(lanes[p], reached);
        }
        Entry::Deliver { to, .. } => {
            let p = to.0 as usize;
            lanes[p] = closer_event(lanes[p], reached);
        }
        Entry::Restart { who, .. } => lanes[who.0 as usize] = None,
        Entry::Stable { .. } => {}
        Entry::Crash { .. } => {}
        Entry::Forget { .. } => {}
    }
}

/// Returns the shortest paths from an event to each of these entries, in which no delivery precedes its send, and the
/// nearest event of this process's present lane.
///
/// It scans the entries once, in O(entries) time and memory. Each event of a lane directly precedes all later ones, so
/// only the nearest event of each lane is stored.
pub fn shortest_paths(
    alloc: Global,
    entries: &[Entry],
    from: u32,
    process: u8,
) -> Result<ShortestPaths, NoMemory>
    requires few { length entries.now ≤ max_entries }
    requires forward { AreForward (reverse entries.now) }
    ensures each { IfOk result (λ ways. ArePathSteps (reverse entries.now) from ways.each.items) }
    ensures nearest { IfOk result (λ ways. Nearest (reverse entries.now) from
        (λ k. IsEventOf (reverse entries.now) k process (lane
        (reverse entries.now) process)) ways.nearest) }
{
    let mut ways = Vec::with_capacity(alloc, entries.len())?;
    let mut lanes = [None; 256];
    for (i, entry) in entries.iter().enumerate() {
        let before = nearest_before(entry, ways.as_slice(), &lanes);
        let way = path_step_to(entry, from, i as u32, before);
        note_reached(&mut lanes, entry, reached_by(way, i as u32));
        ways.push_reserved(way);
    }
    Ok(ShortestPaths {
        each: ways,
        nearest: lanes[process as usize],
    })
}

/// Returns the event from which the last step to a position goes; the position itself if no step does.
fn previous_event(ways: &[Option<PathStep>], position: u32) -> u32
    ensures { (past : List Entry) (i n : ℕ)
        → ArePathSteps past i ways.now → IsLeastDistance past i position (n + 1) →
        DirectlyPrecedes past result position × IsLeastDistance past i result n }
{
    match ways.get(position as usize) {
        Some(Some(way)) => way.previous,
        _ => position,
    }
}

/// Returns the events of the path to an event, from the first on.
pub fn path_to(
    alloc: Global,
    ways: &[Option<PathStep>],
    nearest: ReachedEvent,
) -> Result<Vec<u32>, NoMemory>
    ensures { IfOk result (λ chain. (past : List Entry) (i : ℕ) → ArePathSteps past i ways.now →
        IsLeastDistance past i nearest.position nearest.steps →
        IsPathOfLength past i nearest.position nearest.steps chain.items) }
{
    let mut chain = Vec::with_capacity(alloc, nearest.steps as usize + 1)?;
    let mut position = nearest.position;
    chain.push_reserved(position);
    for _ in 0..nearest.steps {
        position = previous_event(ways, position);
        chain.push_reserved(position);
    }
    chain.reverse();
    Ok(chain)
}
