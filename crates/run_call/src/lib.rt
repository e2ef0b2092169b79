//! A run, from the words that ask for it and its files to the files that it leaves.
#![tactic(auto)]

mod job;
mod leaving;
mod running;
mod worker_plan;

pub use running::run;
