//! The interpreter of a handler on the tables of a function, in place and without memory of its
//! own.
#![tactic(auto)]

mod block;
mod code_look;
mod code_run;
mod code_step;
mod context;
mod creation;
mod entry_ref;
mod handling;
mod input;
mod kept_edits;
mod labels;
mod operation;
mod question;
mod quiet_block;
mod quiet_step;
mod reads;
mod values;
mod vars;
mod whole;

pub use code_look::look_ready;
pub use code_step::handle_ready;
pub use context::{Context, Look, Outcome};
pub use handling::{Handled, handle, handle_in, replay, replay_granted};
pub use quiet_step::look;
pub use reads::{PacketFields, Reads};
pub use whole::{handle_whole, handle_whole_in, handle_whole_ready};
