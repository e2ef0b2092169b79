//! A run in mode `lock`: packets are read, workers that share the tables handle them, and what they
//! leave is written in the order in which they did.
#![tactic(auto)]

mod chunk;
mod kept;
pub mod laws;
mod pieces;
mod reading;
mod result;
mod rounds;
mod running;
mod writing;

pub use result::LockedResult;
pub use running::run;
