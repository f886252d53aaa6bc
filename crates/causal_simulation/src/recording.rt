//! The recordings of all processes, in one text, and the kill that may come between any two lines.
use crate::stop::Stop;
use causal_name::NoMemory;
use std::alloc::Global;

/// The recordings.
#[derive(Drop)]
pub struct RunRecordings {
    pub text: Vec<u8>,
    /// The number of events that are recorded.
    pub events: u32,
    /// After so many more points the process that is running is killed; at 0 it is not.
    fuse: u32,
}

impl RunRecordings {
    /// Returns empty recordings.
    pub fn new(alloc: Global) -> RunRecordings {
        RunRecordings {
            text: Vec::new(alloc),
            events: 0,
            fuse: 0,
        }
    }

    /// Lets the process that is running come to its end at this point of those to come, or at none if it is 0.
    pub fn set_fuse(&mut self, fuse: u32) {
        self.fuse = fuse;
    }

    /// A point at which a process may be killed.
    pub fn point(&mut self) -> Result<(), Stop> {
        match self.fuse {
            0 => Ok(()),
            1 => {
                self.fuse = 0;
                Err(Stop::Killed)
            }
            left => {
                self.fuse = left - 1;
                Ok(())
            }
        }
    }

    /// Appends a line that is no event.
    pub fn push(&mut self, line: &[u8]) -> Result<(), NoMemory> {
        Ok(self.text.extend_from_slice(line)?)
    }

    /// Appends the line of an event; or its first half, where a kill cuts it.
    pub fn write(&mut self, line: &[u8]) -> Result<(), Stop> {
        if let Err(stop) = self.point() {
            self.push(&line[..line.len() / 2])?;
            self.push(b"\n")?;
            return Err(stop);
        }
        self.push(line)?;
        self.events = self.events.saturating_add(1);
        Ok(())
    }
}
