//! Tags of keys with indices, by open addressing: eight bytes a slot, and no key in any.
#![tactic(auto)]

mod cells;
mod gap;
mod hash;
mod laws;
mod probe;
mod tags;

pub use cells::Pair;
pub use hash::tag_of;
pub use laws::low_words_count;
pub use tags::Slots;
