//! The whole program: from its words and the files outside to a status.
#![tactic(auto)]

pub mod laws;
mod program;

pub use call_base::object_name::ObjectName;
pub use call_base::status::{Difference, Fault, FullShare, NoKeys, RunFile, Status};
pub use lock_mode::{Gate, PackGate};
pub use nf_base::worker_turns::{Idle, Turns};
pub use program::maestro;
