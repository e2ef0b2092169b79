//! The texts that say what the analysis of a function came to.
#![tactic(auto)]

mod explaining;
pub mod laws;
mod names;
mod telling;
mod text;

pub use explaining::objects;
pub use telling::{explain, verdict_part};
