//! Writes the certificate of a function's keys, or of there being none: a text that anyone can check.
#![tactic(auto)]

mod listing;
mod plain;
mod proving;
mod trees;

pub use proving::prove;
