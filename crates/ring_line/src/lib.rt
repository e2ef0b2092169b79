//! Lasting workers behind rings: each has tables of its own share in a thread of its own, packets go
//! out to it in packs, and its answers come back in the order in which the packets were sent.
#![tactic(auto)]

mod bell;
mod halt;
mod inline_worker;
mod item;
pub mod laws;
mod line;
mod opening;
mod pack;
mod queue_handler;
mod queue_worker;
pub mod rows;
mod runner;
mod thread_worker;
mod worker_ends;
mod worker_loop;

pub use halt::Halt;
pub use line::{Answered, CollectedRef, First, Line};
pub use nf_base::worker_turns::{Idle, Turns};
pub use pack::AnswerRef;
pub use queue_handler::QueueHandler;
pub use queue_worker::QueueWorker;
pub use thread_worker::Next;
