//! Workers that share nothing: each has tables of its own share and works the packets of its queue,
//! and answers are collected in the order in which packets were dispatched.
#![tactic(auto)]

mod collected;
mod fifo;
pub mod laws;
mod playing;
mod shards;
mod worker;

pub use collected::{Collected, Stop};
pub use shard_machine::{Answer, Event, Worked};
pub use shards::Shards;
pub use worker::Worker;
