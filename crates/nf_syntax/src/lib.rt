//! The syntax tree of a network function, read from its text.
#![tactic(auto)]

mod action;
mod block;
mod declaration;
mod expression;
mod fault;
mod function;
mod head;
mod list;
mod single;
mod statement;
mod text;

pub use fault::{ParseFault, SyntaxKind};
pub use text::{one_fault, one_mark, parse};
