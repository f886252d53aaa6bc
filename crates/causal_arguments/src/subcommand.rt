//! What a command line requests.
use causal_facts::Form;
use causal_trace::limits::Limits;

/// How far an audit reads.
#[derive(Clone, Copy)]
pub enum Until {
    /// To the end of the text.
    End,
    /// To the first breach that is found at 1, 2, 4, 8 .. entries.
    Breach,
    /// To the first breach that is found there, or by time between them.
    LiveBreach,
}

/// A command with its options. `faults` is the bound f, the number of processes that may be down at once; `workers` is the
/// number of threads that read, and that audit; `limits` are those of the trace.
#[derive(Clone, Copy)]
pub enum Subcommand {
    /// The verdict on a trace, which is read as far as `until` says.
    Audit {
        faults: u16,
        until: Until,
        form: Form,
        workers: u32,
        limits: Limits,
    },
    /// The reason for the verdict on a trace; without `faults`, the bounds f for which the trace is safe.
    Explain {
        faults: Option<u16>,
        form: Form,
        workers: u32,
        limits: Limits,
    },
    /// The reason for the verdict on a trace, with the places of a map.
    ExplainByMap {
        faults: u16,
        workers: u32,
        limits: Limits,
    },
    /// Whether recoveries follow the determinants that survive.
    Replays {
        form: Form,
        workers: u32,
        limits: Limits,
    },
    /// A picture of a trace with its verdict: of the entries about the position `around`, if there is one; with
    /// `only_breach` of the breach's processes alone.
    Draw {
        faults: u16,
        around: Option<u32>,
        only_breach: bool,
        workers: u32,
        limits: Limits,
    },
    /// The trace merged from recorder files, and its map, if that is wanted.
    Merge {
        workers: u32,
        limits: Limits,
        has_map: bool,
    },
    /// The trace of a script's run.
    Run,
}

/// A command line: its command, the files that it names, and the file of a map; without a file, standard input is read.
#[derive(Drop)]
pub struct CommandLine {
    pub command: Subcommand,
    pub files: Vec<String>,
    pub map: Option<String>,
}
