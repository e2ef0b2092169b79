//! Whether the lines of a journal are those of a lawful run: a line and its packet at a time, on tables.
#![tactic(auto)]

mod judge;
pub mod laws;
mod told;

pub use judge::Judge;
pub use told::port_of;
