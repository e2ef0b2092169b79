//! A run as a stream: packets are handled as they come, and what they leave is written as the run goes.
#![tactic(auto)]

mod buffer;
mod ending;
mod fault;
mod handled;
mod heads;
pub mod laws;
mod piece;
mod ran;
mod room;
pub mod rules;
mod running;
mod sink;
mod sinks;
mod streaming;
mod told;

pub use ending::Ending;
pub use fault::RunFault;
pub use handled::{HandledPacket, HandledParts};
pub use heads::begin_sinks;
pub use piece::push_sent;
pub use ran::Ran;
pub use running::{handle_all, stop_in};
pub use sink::Sink;
pub use sinks::{flush_all, flush_full, hold_all, put_all};
pub use streaming::run;
pub use told::ToldFields;
