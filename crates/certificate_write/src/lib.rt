//! Writes the text of a certificate, line by line: what is written is read back.
#![tactic(auto)]

mod heading;
pub mod laws;
mod line;
mod push;

pub use heading::push_heading;
pub use line::{push_line, push_lines};
