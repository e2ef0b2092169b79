//! Workers that share the tables of one function: each handles the packets of its ports, in their
//! order, and all that they did is one order.
#![tactic(auto)]

mod alone;
mod dealing;
mod hint;
mod joining;
mod running;
mod sharing;
mod working;

pub use nf_base::worker_turns::{Idle, Turns};
pub use running::{RunResult, run};
