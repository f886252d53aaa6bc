//! What is true of a process at an instant: whether it holds a determinant or lost it, and whether it is down. Positions
//! are those of entries, from 0.

/// A process whose volatile log contains the determinant.
#[derive(Clone, Copy)]
pub struct Holding {
    pub process: u8,
    /// The position of the delivery or restart by which the log came to contain it.
    pub since: u32,
}

/// By which kind of entry a process's volatile log came to lack a determinant.
#[derive(Clone, Copy)]
pub enum LostBy {
    Crash,
    Forgetting,
}

/// A process whose volatile log contained the determinant, and lacks it.
#[derive(Clone, Copy)]
pub struct Loss {
    pub process: u8,
    /// The position of the delivery or restart by which the log last came to contain it.
    pub since: u32,
    /// The position of the entry by which the log last lost it.
    pub lost: u32,
    /// The kind of that entry.
    pub by: LostBy,
}

/// A process that is down.
#[derive(Clone, Copy)]
pub struct DownProcess {
    pub process: u8,
    /// The position of its last crash.
    pub since: u32,
}
