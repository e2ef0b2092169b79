//! A journal that is read from its file, line by line.
#![tactic(auto)]

mod first;
mod journal;
mod next;

pub use journal::Journal;
pub use next::Next;
