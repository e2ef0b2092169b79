//! Which keys the ports of a function are given, so that packets that meet have equal hashes, and
//! why there are none where there are none.
#![tactic(auto)]

mod cause;
pub mod laws;
mod synthesis;
mod verdict;

pub use synthesis::synthesise;
pub use verdict::{Cause, Verdict};
