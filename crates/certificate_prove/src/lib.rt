//! Writes a tree for whatever is refuted, bit by bit.
#![tactic(auto)]

mod leaves;
mod places;
mod tree;

pub use places::is_place;
pub use tree::grow;
