//! The machine of shards: workers that share nothing, each with the packets of its own queue, and
//! answers that are collected in the order in which packets were dispatched. It says what the
//! events of a run do, and what holds after any list of them. No code that runs.
#![tactic(auto)]

mod event;
pub mod laws;
pub mod rows;

pub use event::{Answer, Event, Worked};
