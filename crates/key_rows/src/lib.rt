//! The keys nearest the default one under which packets that come to an object with equal labels
//! have equal hashes.
//!
//! Two packets that come to two places of an object, with equal values of its labels, are to have
//! equal hashes. So it is for all such packets exactly where some sums of key bits are 0 modulo 2:
//! linear equations over GF(2), of which the solution nearest the default key is taken.
#![tactic(auto)]

mod classes;
mod equations;
mod keyed;
pub mod laws;
mod nearest;
mod pairs;
mod place;
mod positions;
mod solution;
mod wanted;
mod windows;

pub use nearest::nearest_keys;
pub use place::{Object, Place};
