//! Checks the trees of key certificates, line by line.
#![tactic(auto)]

mod checker;
mod naming;
mod spans;
mod sums;
mod tasks;

pub use checker::Checker;
pub use sums::is_sum;
