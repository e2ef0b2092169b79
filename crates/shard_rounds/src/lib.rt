//! Rounds of shards: a batch of packets is dispatched, the workers work in threads, each its own
//! packets, and the answers are collected in the order in which the packets were dispatched.
#![tactic(auto)]

mod collecting;
mod giving;
pub mod laws;
mod round;
mod working;

pub use nf_base::worker_turns::{Idle, Turns};
pub use round::{Round, begin_round, end_round, run_round};
pub use working::{work_apart, work_beside};
