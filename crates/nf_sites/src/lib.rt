//! Where a function's text touches its state: its sites, the labels that each names, and which of
//! them are known by a field that the hash reads. What a packet touches, it touches at a site, so
//! packets that meet have one hash where the hash is admissible by sites.
#![tactic(auto)]

pub mod cover;
pub mod laws;
pub mod rows;
pub mod separation;
mod sort;

pub use sort::Sort;
