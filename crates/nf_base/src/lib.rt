//! What every crate of maestro shares: packets, the checked function, what it remembers, and what
//! the handling of a packet comes to.
#![tactic(auto)]

pub mod block;
pub mod card;
mod copy;
pub mod decl;
pub mod done;
pub mod expr;
pub mod func;
pub mod handler;
pub mod hash_fields;
pub mod hash_key;
pub mod indexed;
pub mod key;
pub mod keys;
pub mod limited;
pub mod mac;
pub mod packet;
pub mod picks;
pub mod port_handlers;
pub mod seq;
pub mod share;
pub mod size;
pub mod state;
pub mod value;
pub mod width;
pub mod worker_turns;
pub mod workers;
