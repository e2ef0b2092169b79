//! Whether a journal and the outputs beside it are those of a run, as a stream: lines are judged as they
//! are read, and what their packets leave is compared with the outputs.
#![tactic(auto)]

pub mod laws;
mod lines;
mod opened;
mod outputs;
mod packets;
mod replaying;
mod result;
mod turn;

pub use opened::OpenedJournal;
pub use replaying::{first_line, replay};
pub use result::ReplayResult;
