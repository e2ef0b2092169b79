//! The summary of a run over made-up traffic.
#![tactic(auto)]

pub mod laws;
mod lines;
mod text;

pub use lines::{numbers, summary};
