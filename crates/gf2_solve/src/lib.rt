//! Linear equations over GF(2), the field of two elements, and their solution nearest a wanted
//! vector that has a 1 in each of some groups of bits.
#![tactic(auto)]

mod bits;
mod elimination;
mod equation;
mod groups;
pub mod laws;
mod nearest;
mod row;
mod search;
mod system;
mod words;

pub use bits::Bits;
pub use system::System;
