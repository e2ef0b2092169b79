//! What seats did, kept short: the calls of one seat, and one order of the calls of all.
//!
//! A call is kept as its place and its action, in 24 bytes; where it came to more, all of that is
//! kept in a list of its own. Its packet isn't kept, since the caller has it. An order keeps whose
//! call is next, and which. Contracts see the calls, with their packets, and the order.
#![tactic(auto)]

mod log;
mod order;

pub use log::{CallLog, Head};
pub use order::{Order, Turn};
pub use short_answers::{Told, plain};
