//! How a command ends: its exit status and its message.
ghost use Rattle.std.specs.Prelude.{◌≡◌, option_map};

/// How a command ended.
#[derive(Clone, Copy)]
pub enum Ended {
    /// The verdict or view of an accepted trace was written.
    Accepted,
    /// The verdict or view of a trace that is not accepted was written.
    Breached,
    /// The bounds f for which a trace is safe were written.
    Ranged,
    /// The line of a trace whose recoveries follow what survives was written.
    Followed,
    /// The first instant at which a trace strays from what survives was written.
    Strayed,
    /// The trace merged from recorder files was written.
    Merged,
    /// The line of the first error of a trace, a script or recorder files was written; as a picture, nothing.
    Faulted,
    /// The trace of a script's run was written.
    Ran,
    /// The line of the first refused command of a script was written.
    Refused,
    /// The reader failed. Nothing was written.
    ReadFault,
    /// The writer failed, or accepted no byte. Only the first bytes of the answer were written, if any.
    WriteFault,
    /// An allocation failed. Nothing was written.
    NoMemory,
    /// A worker could not be started. Nothing was written.
    NoWorker,
    /// The shared runtime that ran a script could not be finished. Nothing was written.
    FinishFault,
}

impl Ended {
    ghost use Rattle.causal_outcomes.specs.Endings.{status_of, ended_text};

    /// Returns the program's exit status: 0, 1 or 2 after an answer that was written whole, 4 after a failed stream. It
    /// is 5 if an allocation or the start of a thread failed, or a run could not be finished.
    pub fn status(self) -> u8
        ensures { result ≡ status_of self }
    {
        match self {
            Ended::Accepted | Ended::Ranged | Ended::Followed | Ended::Merged | Ended::Ran => 0,
            Ended::Breached | Ended::Strayed => 1,
            Ended::Faulted | Ended::Refused => 2,
            Ended::ReadFault | Ended::WriteFault => 4,
            Ended::NoMemory | Ended::NoWorker | Ended::FinishFault => 5,
        }
    }

    /// Returns the message for standard error; None if the answer was written whole.
    pub fn text(self) -> Option<&'static str>
        ensures { option_map (λ text. text.now) result ≡ ended_text self }
    {
        match self {
            Ended::Accepted
            | Ended::Breached
            | Ended::Ranged
            | Ended::Followed
            | Ended::Strayed
            | Ended::Merged
            | Ended::Faulted
            | Ended::Ran
            | Ended::Refused => None,
            Ended::ReadFault => Some("read fault"),
            Ended::WriteFault => Some("write fault"),
            Ended::NoMemory => Some("no memory"),
            Ended::NoWorker => Some("no worker"),
            Ended::FinishFault => Some("finish fault"),
        }
    }
}
