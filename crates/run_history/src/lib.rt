//! What a run leaves to be read: its journal, line by line, and the text of its last state.
#![tactic(auto)]

pub mod header;
pub mod laws;
pub mod line;
pub mod reader;
mod room;
pub mod state_text;
mod text;
pub mod version;
mod word;
