//! The Toeplitz hash of receive side scaling (Microsoft RSS), and of which bytes of a packet it is
//! taken.
#![tactic(auto)]

mod hash;
mod input;
mod key;
pub mod laws;

pub use hash::{byte_hash, toeplitz};
pub use input::{Input, hash_packet, input_of};
pub use key::{DEFAULT_KEY, default_key};
