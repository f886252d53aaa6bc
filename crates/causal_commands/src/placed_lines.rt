//! The lines of facts, with the places of their entries in recordings.
ghost use Rattle.std.specs.Prelude.{◌≡◌, ◌++◌, [], ◌∷◌, ℕ, List, map, IfOk, OnOk};
ghost use Rattle.causal_commands.specs.PlacedLines as placed;
ghost use Rattle.causal_answers.specs.Lines.{fact_head};
ghost use Rattle.causal_answers.specs.Sentences.{IsSentence};
ghost use Rattle.causal_commands.specs.Inside.Placing.{ReturnsPlace, ReturnsPlaced, GivesAfter};

use causal_answers::{fact_head, fact_sentence};
use causal_facts::Fact;
use causal_merge::{max_input_len, read_place};
use causal_outcomes::MapFault;
use causal_text::TextKind;
use causal_trace::limits::Limits;
use std::alloc::{AllocError, Global};

/// Why lines are not given the places of their entries.
#[derive(Clone, Copy)]
pub(crate) enum PlaceError {
    Map(MapFault),
    NoMemory,
}

/// Returns the lines of facts on a trace with this many entries; each line of a fact that has an entry gets the fields
/// ` at=FILE:LINE clock=CLOCK` by the map, before its sentence. The map must have a line for each entry; it is parsed
/// only for entries of facts. O(map + facts) time and memory.
pub(crate) fn placed_text(
    alloc: Global,
    limits: Limits,
    map: &[u8],
    entries: u32,
    facts: &[Fact],
) -> Result<Vec<u8>, PlaceError>
    ensures { ReturnsPlaced (λ out. out.items) result
        (placed.map_fault limits.entries map.now entries facts.now)
        (placed.ArePlacedLines (placed.whole_lines map.now) facts.now) }
{
    if map.len() > max_input_len(limits) {
        return Err(PlaceError::Map(MapFault::Big));
    }
    let Ok(map_lines) = whole_lines(alloc, map) else {
        return Err(PlaceError::NoMemory);
    };
    placed_by(alloc, map_lines.as_slice(), entries, facts)
}

/// Returns the lines of a text, each of which ends with a line feed, without these.
fn whole_lines(alloc: Global, text: &[u8]) -> Result<Vec<&[u8]>, AllocError>
    ensures { IfOk result (λ found. map (λ line. line.now) found.items
        ≡ placed.whole_lines text.now) }
{
    let mut found = split_at_line_feeds(alloc, text)?;
    found.pop();
    Ok(found)
}

fn split_at_line_feeds(alloc: Global, text: &[u8]) -> Result<Vec<&[u8]>, AllocError>
    ensures { IfOk result (λ found. map (λ part. part.now) found.items
        ≡ placed.split_at_line_feeds text.now) }
{
    text.split(|byte| *byte == b'\n').collect(alloc)
}

fn placed_by(
    alloc: Global,
    map_lines: &[&[u8]],
    entries: u32,
    facts: &[Fact],
) -> Result<Vec<u8>, PlaceError>
    ensures { ReturnsPlaced (λ out. out.items) result
        (placed.fault_of_lines (map (λ line. line.now) map_lines.now) entries facts.now)
        (placed.ArePlacedLines (map (λ line. line.now) map_lines.now) facts.now) }
{
    if map_lines.len() as u64 != u64::from(entries) {
        return Err(PlaceError::Map(MapFault::Length {
            lines: map_lines.len() as u64,
            entries,
        }));
    }
    let mut out = Vec::new(alloc);
    match push_facts(alloc, &mut out, map_lines, facts) {
        Ok(()) => Ok(out),
        Err(error) => Err(error),
    }
}

fn push_facts(
    alloc: Global,
    out: &mut Vec<u8>,
    map_lines: &[&[u8]],
    facts: &[Fact],
) -> Result<(), PlaceError>
    ensures { GivesAfter out.old.items out.new.items result
        (placed.first_place_fault (map (λ line. line.now) map_lines.now) facts.now)
        (placed.ArePlacedLines (map (λ line. line.now) map_lines.now) facts.now) }
{
    for fact in facts {
        match push_fact(alloc, out, map_lines, fact) {
            Ok(()) => {}
            Err(error) => return Err(error),
        }
    }
    Ok(())
}

/// Appends the line of a fact with the place of its entry.
fn push_fact(
    alloc: Global,
    out: &mut Vec<u8>,
    map_lines: &[&[u8]],
    fact: &Fact,
) -> Result<(), PlaceError>
    ensures { GivesAfter out.old.items out.new.items result
        (placed.first_place_fault (map (λ line. line.now) map_lines.now) (fact.now ∷ []))
        (placed.IsPlacedLine (map (λ line. line.now) map_lines.now) fact.now) }
{
    match place_of(alloc, map_lines, fact.entry()) {
        Ok(place) => match push_parts(alloc, out, fact, place.as_slice()) {
            Ok(()) => Ok(()),
            Err(_) => Err(PlaceError::NoMemory),
        },
        Err(error) => Err(error),
    }
}

fn push_parts(alloc: Global, out: &mut Vec<u8>, fact: &Fact, place: &[u8]) -> Result<(), AllocError>
    ensures { OnOk result ((sentence : List ℕ) × IsSentence sentence × (out.new.items
        ≡ out.old.items ++ (fact_head fact.now ++ (place.now ++ sentence)))) }
{
    let head = fact_head(alloc, fact)?;
    let sentence = fact_sentence(alloc, fact)?;
    out.extend_from_slice(head.as_slice())?;
    out.extend_from_slice(place)?;
    out.extend_from_slice(sentence.as_slice())
}

/// Returns the fields of the place of an entry; none if there is no entry, or the map has no line for it.
fn place_of(alloc: Global, map_lines: &[&[u8]], entry: Option<u32>) -> Result<Vec<u8>, PlaceError>
    ensures { ReturnsPlace (λ place. place.items) result
        (placed.named_place (map (λ line. line.now) map_lines.now) entry) }
{
    match entry {
        Some(position) => match map_lines.get(position as usize) {
            Some(line) => place_at(alloc, position, line),
            None => Ok(Vec::new(alloc)),
        },
        None => Ok(Vec::new(alloc)),
    }
}

/// Returns the fields of the place of an entry, by its line of the map.
fn place_at(alloc: Global, position: u32, line: &[u8]) -> Result<Vec<u8>, PlaceError>
    ensures { ReturnsPlace (λ place. place.items) result (placed.place_at position line.now) }
{
    match read_place(alloc, position, line) {
        Ok(place) => Ok(place),
        Err(TextKind::NoMemory) => Err(PlaceError::NoMemory),
        Err(kind) => Err(PlaceError::Map(MapFault::Entry { position, kind })),
    }
}
