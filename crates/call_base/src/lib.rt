//! What the program's calls share: how they end, what they print, the names and numbers of their files, and
//! the function of a text.
#![tactic(auto)]

pub mod analysing;
pub mod finishing;
pub mod function;
pub mod inputs;
pub mod laws;
pub mod layout;
pub mod line;
pub mod loading;
pub mod names;
pub mod object_name;
pub mod opening;
pub mod say;
pub mod status;
pub mod text;
