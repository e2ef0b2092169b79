//! A replay as a call of the program: a journal and the outputs beside it are judged, and the last state's
//! text is printed where all is the same.
#![tactic(auto)]

mod ending;
mod job;
mod names;
mod replaying;

pub use ending::ReplayEnd;
pub use replaying::replay;
