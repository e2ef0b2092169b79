//! The plain interpreter, over one undivided list of entries for each chain.
#![tactic(auto)]

mod block;
mod chain;
mod context;
mod copies;
mod creation;
mod entry_ref;
pub mod fault;
mod handling;
mod opening;
mod operation;
mod question;
pub mod undivided;
mod values;
