//! The call of `causal_commands` that answers a command.
ghost use Rattle.std.specs.Prelude.{◌≡◌};
ghost use Rattle.causal_arguments.specs.Workers.{HasWorkersInRange};
ghost use Rattle.causal_tool.specs.Invocations.{HasWorkerCountInRange, stray_detail_of, invocation_of};

use causal_arguments::{Subcommand, Until};
use causal_commands::{Form, Question, StrayDetail};
use causal_outcomes::Mapping;
use causal_picture::Selection;
use causal_trace::limits::Limits;
use causal_workers::Looks;

/// What the command line requests.
#[derive(Clone, Copy)]
pub(crate) enum Invocation {
    /// The answer to a question on a trace within limits.
    Trace {
        question: Question,
        form: Form,
        limits: Limits,
    },
    /// A picture of a selected part of a trace within limits, with its verdict for at most `faults` processes down at
    /// once.
    Draw {
        faults: u16,
        workers: u32,
        limits: Limits,
        selection: Selection,
    },
    /// The reason for the verdict on a trace within limits, with the places of a map.
    MappedReason {
        faults: u16,
        workers: u32,
        limits: Limits,
    },
    /// The trace merged from recorder files, within limits, and its map, if that is wanted.
    Merge {
        workers: u32,
        limits: Limits,
        mapping: Mapping,
    },
    /// The trace of a script's run.
    Run,
}

impl Invocation {
    /// Returns what a command requests.
    pub(crate) fn of(command: Subcommand) -> Invocation
        ensures of { result ≡ invocation_of command }
        ensures workers { HasWorkersInRange command → HasWorkerCountInRange result }
    {
        match command {
            Subcommand::Audit {
                faults,
                until,
                form,
                workers,
                limits,
            } => audit_invocation(faults, until, form, workers, limits),
            Subcommand::Explain {
                faults,
                form,
                workers,
                limits,
            } => explain_invocation(faults, form, workers, limits),
            Subcommand::ExplainByMap {
                faults,
                workers,
                limits,
            } => mapped_invocation(faults, workers, limits),
            Subcommand::Replays {
                form,
                workers,
                limits,
            } => replays_invocation(form, workers, limits),
            Subcommand::Draw {
                faults,
                around,
                only_breach,
                workers,
                limits,
            } => draw_invocation(faults, around, only_breach, workers, limits),
            Subcommand::Merge {
                workers,
                limits,
                has_map,
            } => merge_invocation(workers, limits, has_map),
            Subcommand::Run => Invocation::Run,
        }
    }
}

fn audit_invocation(
    faults: u16,
    until: Until,
    form: Form,
    workers: u32,
    limits: Limits,
) -> Invocation
    ensures { result ≡ invocation_of (Subcommand.Audit faults until form workers limits) }
{
    let question = match until {
        Until::End => Question::Verdict { faults, workers },
        Until::Breach => Question::Breach {
            faults,
            workers,
            looks: Looks::Checkpoints,
        },
        Until::LiveBreach => Question::Breach {
            faults,
            workers,
            looks: Looks::Live,
        },
    };
    Invocation::Trace {
        question,
        form,
        limits,
    }
}

fn explain_invocation(faults: Option<u16>, form: Form, workers: u32, limits: Limits) -> Invocation
    ensures { result ≡ invocation_of (Subcommand.Explain faults form workers limits) }
{
    let question = match faults {
        Some(faults) => Question::Reason { faults, workers },
        None => Question::Range { workers },
    };
    Invocation::Trace {
        question,
        form,
        limits,
    }
}

fn mapped_invocation(faults: u16, workers: u32, limits: Limits) -> Invocation
    ensures { result ≡ invocation_of (Subcommand.ExplainByMap faults workers limits) }
{
    Invocation::MappedReason {
        faults,
        workers,
        limits,
    }
}

fn replays_invocation(form: Form, workers: u32, limits: Limits) -> Invocation
    ensures { result ≡ invocation_of (Subcommand.Replays form workers limits) }
{
    Invocation::Trace {
        question: Question::Replays {
            workers,
            detail: stray_detail_of(form),
        },
        form,
        limits,
    }
}

fn draw_invocation(
    faults: u16,
    around: Option<u32>,
    only_breach: bool,
    workers: u32,
    limits: Limits,
) -> Invocation
    ensures { result ≡ invocation_of (Subcommand.Draw faults around only_breach workers limits) }
{
    Invocation::Draw {
        faults,
        workers,
        limits,
        selection: Selection {
            around,
            only_focus: only_breach,
        },
    }
}

fn merge_invocation(workers: u32, limits: Limits, has_map: bool) -> Invocation
    ensures { result ≡ invocation_of (Subcommand.Merge workers limits has_map) }
{
    let mapping = if has_map {
        Mapping::Mapped
    } else {
        Mapping::Unmapped
    };
    Invocation::Merge {
        workers,
        limits,
        mapping,
    }
}

/// Returns what `replays` reports besides a stray: JSON has the survivors too.
fn stray_detail_of(form: Form) -> StrayDetail
    ensures { result ≡ stray_detail_of form }
{
    match form {
        Form::Lines => StrayDetail::Line,
        Form::Json => StrayDetail::WithSurvivors,
    }
}
