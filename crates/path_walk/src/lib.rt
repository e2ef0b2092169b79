//! The feasible paths of a handler: each way that its statements may go, as far as the tests of the
//! packet alone say.
#![tactic(auto)]

mod block_texts;
mod branch;
mod counting;
mod fault;
mod going;
mod known;
pub mod laws;
mod laying;
mod line;
mod listing;
mod numbering;
mod ports;
mod reaching;
mod test;
mod token;
mod walk;
mod ways;

pub use branch::Branch;
pub use fault::WalkFault;
pub use listing::all_statements;
pub use ports::{block_path_count, block_paths, count_paths, paths};
pub use reaching::reached;
pub use walk::Path;
