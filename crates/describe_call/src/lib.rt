//! The calls that print a text and do nothing else: what is said of a function, and the line of a hash.
#![tactic(auto)]

mod describing;
mod explaining;
mod hashing;
pub mod laws;

pub use describing::print_description;
pub use hashing::hash_line;
