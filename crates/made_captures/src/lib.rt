//! Captures of made-up traffic, whose bytes are made as they are read: beside the files outside they
//! are further files.
#![tactic(auto)]

mod beside;
mod capture;
mod captures;
pub mod laws;
mod outputs;
mod piece;

pub use beside::MadeCaptures;
pub use captures::Captures;
pub use outputs::Outputs;
