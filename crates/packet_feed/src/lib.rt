//! Packets of several captures that are read as streams, in the order in which they came.
#![tactic(auto)]

mod ahead;
mod captured;
mod fault;
mod fed;
mod feed;
mod first;
pub mod laws;
mod moved;
mod source;
mod sources;

pub use ahead::Ahead;
pub use fault::FeedFault;
pub use fed::Fed;
pub use feed::Feed;
pub use moved::Moved;
