//! A run in mode `shard` as a stream: each packet is handed to the lasting worker of its queue, and what
//! it leaves is written behind, in capture order, as its answer comes.
#![tactic(auto)]

mod crew;
mod frames;
pub mod laws;
mod passing;
mod plain_answer;
mod result;
mod router;
mod running;
mod streaming;
mod writing;

pub use result::{RunEnd, ShardedResult, ShareFull};
pub use running::run;
