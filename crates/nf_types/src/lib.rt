//! The type rules of the language: from a syntax tree to a checked function, or to its first fault.
#![tactic(auto)]

mod array;
mod block;
mod block_rules;
mod cells;
mod chain;
mod column;
mod creation;
mod declaration;
mod ending;
mod fault;
mod field;
mod function;
mod handler;
mod handler_rules;
mod name;
mod objects;
mod operation;
mod part;
mod places;
mod question;
mod room;
pub mod rows;
mod statement_rules;
mod value;
mod value_rules;
mod variables;

pub use fault::{CheckFault, TypingKind};
pub use function::check;
