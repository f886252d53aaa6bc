//! What processes that are up have delivered: whoever recovers must send that again as it was.
use causal_name::{MsgName, NoMemory};
use std::alloc::Global;

/// What a process has delivered.
#[derive(Clone, Copy)]
struct KeptBodies {
    name: MsgName,
    value: u64,
}

/// What each process has delivered in its present lane.
#[derive(Drop)]
pub struct Books {
    kept: Vec<Vec<KeptBodies>>,
}

impl Books {
    /// Returns empty books.
    pub fn new(alloc: Global, processes: u8) -> Result<Books, NoMemory> {
        let mut kept = Vec::new(alloc);
        for _ in 0..processes {
            kept.push(Vec::new(alloc))?;
        }
        Ok(Books { kept })
    }

    /// A process has ended.
    pub fn clear(&mut self, me: u8) {
        if let Some(book) = self.kept.get_mut(usize::from(me)) {
            book.clear();
        }
    }

    /// A process has delivered a message.
    pub fn add(&mut self, me: u8, name: MsgName, value: u64) -> Result<(), NoMemory> {
        if let Some(book) = self.kept.get_mut(usize::from(me)) {
            book.push(KeptBodies { name, value })?;
        }
        Ok(())
    }

    /// Returns whether a message is the one that others have delivered under its name.
    pub fn permits(&self, to: u8, name: MsgName, value: u64) -> bool {
        for (q, book) in self.kept.iter().enumerate() {
            if !is_permitted(book.as_slice(), q == usize::from(to), name, value) {
                return false;
            }
        }
        true
    }
}

/// Returns whether one process has delivered a message of this name only if it is this one, and for that process.
fn is_permitted(book: &[KeptBodies], is_dest: bool, name: MsgName, value: u64) -> bool {
    for kept in book {
        if kept.name == name && !(is_dest && kept.value == value) {
            return false;
        }
    }
    true
}
