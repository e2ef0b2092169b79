//! Captures in the pcapng format (draft-ietf-opsawg-pcapng): what their bytes come to, how they are
//! read from a file, and how packets are written into one.
#![tactic(auto)]

mod block;
mod header;
mod interface;
pub mod laws;
mod number;
mod packet;
mod place;
mod reader;
mod resolution;
mod step;
mod writing;

pub use header::is_pcapng;
pub use interface::Interface;
pub use reader::{Next, NgReader};
pub use writing::{block_length, push_block, push_ng_header, put_block};
