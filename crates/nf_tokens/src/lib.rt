//! The tokens of a network function's text, with their places.
#![tactic(auto)]

mod byte;
mod lexer;
mod number;
mod token;
mod word;

pub use lexer::{end_of, tokens};
pub use number::{address, decimal};
pub use token::{Flaw, Place, Placed, Sign, Token};
