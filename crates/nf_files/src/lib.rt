//! The files outside: a trait that says what is told of them and when a call on them may fail, the
//! files of the system, files in memory, and the reading and writing of whole files.
#![tactic(auto)]

mod ahead;
mod buffer;
mod count;
mod fault;
mod files;
mod kind;
mod memory;
mod number;
mod opening;
mod origin;
mod real;
mod standard;
mod system_file;
mod whole;

pub use count::FaultCount;
pub use fault::FilesFault;
pub use files::Files;
pub use kind::Kind;
pub use memory::MemoryFiles;
pub use opening::Opening;
pub use real::RealFiles;
pub use whole::{read_whole, write_whole};
