//! A machine of seats that share the tables of one function: each looks at the tables after some
//! beginning of one history, or handles its packet alone at the history's end. All that they do is
//! one legal order.
//!
//! `Log` is the machine, plainly: it makes the tables anew for each look.
#![tactic(auto)]

mod call;
mod done;
pub mod laws;
mod log;
mod order;
pub mod rows;
mod tables;

pub use call::{Call, Entry, Event, Ordered, Placed, Way};
pub use done::again;
pub use log::Log;
pub use tables::is_served;
