//! A run of a function over made-up traffic, from the function's file to the files that it leaves and the
//! lines that sum it up.
#![tactic(auto)]

mod job;
mod running;
mod summing;
mod worker_plan;

pub use running::generate;
