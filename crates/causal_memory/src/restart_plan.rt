//! The restart plan, made before the spare begins.
use crate::process_memory::ProcessMemory;
use causal_name::Det;

/// Everything that a restart must allocate, made before the spare begins.
#[derive(Drop)]
pub struct RestartPlan {
    /// The determinants that the restart entry lists.
    pub listed: Vec<Det>,
    /// The memory of the process after the restart: its log, and capacity for its sends.
    pub process_memory: ProcessMemory,
}
