//! A finite map from keys to numbers, by open addressing in memory taken once. A look-up stays
//! short however much was erased before.
#![tactic(auto)]

mod hash;
mod map;
mod slots;

pub use map::Map;
