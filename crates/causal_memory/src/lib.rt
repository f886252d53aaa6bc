//! What one process remembers: its volatile log, what it keeps of the messages that it sends, the names of those that it
//! has received, and how a delivery, a restart, a stable determinant and forgetting change them.
#![tactic(auto)]

/// The determinants that a delivery lists.
pub mod delivery_list;
/// The delivery plan, made before the process acts on the message.
pub mod delivery_plan;
/// The making of a delivery plan.
pub mod delivery_planning;
/// What a process that restarts learns.
pub mod learning;
/// The message that is named for a process's next delivery.
pub mod naming;
/// The memory of a process that begins.
pub mod new_memory;
/// The outbox: the messages that a process has sent.
pub mod outbox;
/// The volatile memory of an up process, and how it changes.
pub mod process_memory;
/// The restart plan, made before the process begins again.
pub mod restart_plan;
/// The making of a restart plan.
pub mod restart_planning;
