//! Files that are read and compared with the bytes that they are to hold, a piece at a time.
#![tactic(auto)]

mod compared;
mod front;

pub use compared::Compared;
pub use front::read_front;
