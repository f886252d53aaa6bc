//! Merges the recorder files of a run.
ghost use Rattle.std.specs.Prelude.{◌≡◌, ◌≢◌, ◌≤◌, ℕ, List, map, reverse, IfOk, IfErr};
ghost use Rattle.causal_trace.specs.Limits.{IsProcessCount};
ghost use Rattle.causal_merge.specs.Merges.{Merges, MergesFrom, MergesWithin, IsFirstMergeFault, IsFirstMergeFaultWithin};
ghost use Rattle.causal_merge.specs.Origins.{origin_of};
ghost use Rattle.causal_merge.specs.ParsedFiles.{AreParsedFiles, HasParsedLines};
ghost use Rattle.causal_merge.specs.Reading.{max_bytes};
ghost use Rattle.causal_line.specs.Lines.{lines};
ghost use Rattle.causal_merge.specs.declared.event.RecorderLine.{RecorderLine};
ghost use Rattle.causal_merge.specs.Inside.OrderedRuns.{IsOrderedRun};

use crate::event::{EventAtLine, RunHeader};
use crate::fault::{MergeFault, MergeKind};
use crate::merger::merge_events;
use crate::order::sort_events;
use crate::origins::{Origin, origins_of};
use crate::parsed_files::ParsedFiles;
use crate::recording_reader::RecordingReader;
use causal_line::kind::TextKind;
use causal_trace::limits::{DEFAULT_LIMITS, Limits};
use causal_trace::trace::Trace;
use std::alloc::Global;

/// The trace of a run, and the torn lines, which a kill cut short and which are skipped.
#[derive(Drop)]
pub struct MergedTrace {
    pub trace: Trace,
    /// Their numbers in the input, from 1, ascending.
    pub torn: Vec<u32>,
}

/// Returns the trace merged from the recorder files of all processes of one run, within the default limits. The text
/// has their lines in any order, in at most 67,108,864 bytes.
///
/// An error other than `NoMemory` is the first: of the lines in the order of the input, else a missing file, else of
/// the events in the merge order. `NoMemory` is returned only if an allocation failed.
///
/// Each line is read once, and the n events are sorted in O(n log n) time. Then each event costs O(log sends) time and
/// one push of its entry.
pub fn merge_text(alloc: Global, text: &[u8]) -> Result<MergedTrace, MergeFault>
    ensures ok { IfOk result (λ merged. Merges text.now merged.trace.recording merged.torn.items) }
    ensures err { IfErr result
        (λ fault. fault.kind ≢ MergeKind.Line TextKind.NoMemory → IsFirstMergeFault text.now fault) }
{
    merge_within(alloc, text, DEFAULT_LIMITS)
}

/// Merges as `merge_text` does, within the given limits. The trace has at most `limits.entries` entries, which together
/// list at most 16 determinants per entry. The files have at most [`max_input_len`](crate::bytes_within) bytes.
pub fn merge_within(alloc: Global, text: &[u8], limits: Limits) -> Result<MergedTrace, MergeFault>
    ensures ok { IfOk result
        (λ merged. MergesWithin limits.entries text.now merged.trace.recording merged.torn.items) }
    ensures err { IfErr result (λ fault. fault.kind ≢ MergeKind.Line TextKind.NoMemory
        → IsFirstMergeFaultWithin limits.entries text.now fault) }
{
    let reader = RecordingReader::within(alloc, limits).feed(text)?;
    reader.merge()
}

/// A merged trace, and where its entries come from.
#[derive(Drop)]
pub struct MappedTrace {
    pub merged: MergedTrace,
    /// The origins of the entries, in their order.
    pub origins: Vec<Origin>,
}

/// Merges as `merge_within` does, and returns where each entry comes from, in 16 more bytes for each.
pub fn merge_mapped(alloc: Global, text: &[u8], limits: Limits) -> Result<MappedTrace, MergeFault>
    ensures ok { IfOk result (λ mapped. MergesFrom limits.entries text.now
        mapped.merged.trace.recording mapped.merged.torn.items mapped.origins.items) }
    ensures err { IfErr result (λ fault. fault.kind ≢ MergeKind.Line TextKind.NoMemory
        → IsFirstMergeFaultWithin limits.entries text.now fault) }
{
    let reader = RecordingReader::within(alloc, limits).feed(text)?;
    reader.merge_mapped()
}

fn no_memory() -> MergeFault
    ensures { result.kind ≡ MergeKind.Line TextKind.NoMemory }
{
    MergeFault {
        line: 1,
        kind: MergeKind::Line(TextKind::NoMemory),
        detail: None,
    }
}

/// The events of a run in the merge order, and the torn lines.
#[derive(Drop)]
pub(crate) struct OrderedRun {
    run: RunHeader,
    events: Vec<EventAtLine>,
    torn: Vec<u32>,
}

/// Sorts the events of recorder files, of which no header is missing.
pub(crate) fn order_run(gathered: ParsedFiles) -> Result<OrderedRun, MergeFault>
    requires few { gathered.count ≤ max_bytes }
    requires said { (said : List RecorderLine) × AreParsedFiles gathered said }
    ensures ok { IfOk result (λ ordered. (most : ℕ) (text : List ℕ)
        → HasParsedLines most gathered (reverse (lines text)) → IsOrderedRun most text ordered) }
    ensures few { IfOk result (λ ordered. IsProcessCount ordered.run.processes) }
    ensures err { IfErr result (λ fault. (most : ℕ) (text : List ℕ)
        → HasParsedLines most gathered (reverse (lines text)) → IsFirstMergeFaultWithin most text fault) }
{
    let run = gathered.whole_run()?;
    let ParsedFiles {
        mut events,
        torn,
        ..
    } = gathered;
    sort_events(&mut events);
    Ok(OrderedRun { run, events, torn })
}

/// Merges the events of a run, which are in the merge order.
pub(crate) fn merge_run(
    alloc: Global,
    limits: Limits,
    ordered: OrderedRun,
) -> Result<MergedTrace, MergeFault>
    requires { IsProcessCount ordered.run.processes }
    ensures ok { IfOk result (λ merged. (text : List ℕ) → IsOrderedRun limits.entries text ordered
        → MergesFrom limits.entries text merged.trace.recording merged.torn.items
        (map origin_of ordered.events.items)) }
    ensures err { IfErr result (λ fault. (text : List ℕ) → IsOrderedRun limits.entries text ordered
        → fault.kind ≢ MergeKind.Line TextKind.NoMemory
        → IsFirstMergeFaultWithin limits.entries text fault) }
{
    let OrderedRun { run, events, torn } = ordered;
    let trace = merge_events(alloc, limits, run.processes, events)?;
    Ok(MergedTrace { trace, torn })
}

/// Merges the events of a run as `merge_run` does, and returns where each comes from.
pub(crate) fn map_run(
    alloc: Global,
    limits: Limits,
    ordered: OrderedRun,
) -> Result<MappedTrace, MergeFault>
    requires { IsProcessCount ordered.run.processes }
    ensures ok { IfOk result (λ mapped. (text : List ℕ) → IsOrderedRun limits.entries text ordered
        → MergesFrom limits.entries text mapped.merged.trace.recording mapped.merged.torn.items
        mapped.origins.items) }
    ensures err { IfErr result (λ fault. (text : List ℕ) → IsOrderedRun limits.entries text ordered
        → fault.kind ≢ MergeKind.Line TextKind.NoMemory
        → IsFirstMergeFaultWithin limits.entries text fault) }
{
    let Ok(origins) = origins_of(alloc, ordered.events.as_slice()) else {
        return Err(no_memory());
    };
    let merged = merge_run(alloc, limits, ordered)?;
    Ok(MappedTrace { merged, origins })
}
