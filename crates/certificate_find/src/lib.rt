//! Finds a short certificate by Gaussian elimination. No clause says that it is right: who takes it
//! tests it first.
//!
//! A row that is a sum of earlier ones is never named. Each row that is kept is reduced by those
//! before it, from its last bit down, and what it is then keeps which rows it sums up.
#![tactic(auto)]

mod bits;
mod echelon;
mod names;
mod tree;
mod written;

pub use written::find;
