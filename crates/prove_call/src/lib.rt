//! The call that prints the keys of a function, or that there are none, and writes a certificate of it.
#![tactic(auto)]

pub mod laws;
mod leaving;
mod proving;
mod texts;

pub use proving::prove_keys;
