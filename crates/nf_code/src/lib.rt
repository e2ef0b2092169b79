//! A network function made ready to run: its handlers as flat code, in which each statement has the
//! places of what may follow it.
#![tactic(auto)]

pub mod code;
mod emit;
pub mod ready;
