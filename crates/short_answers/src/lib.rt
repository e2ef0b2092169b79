//! What packets came to, kept short: an action alone in a few bytes, and all else in a list of its own.
//!
//! Most packets come to no more than an action, and what a packet may come to takes some 250 bytes.
#![tactic(auto)]

mod answer;
mod answers;

pub use answer::{Answer, Told, keep, plain};
pub use answers::Answers;
