//! The syntax tree of a network function: what its text says, and where each part of it stands.
//!
//! Names are ASCII bytes, numbers are 64 bits, lines and columns count from 1, a column counts bytes.
#![tactic(auto)]

mod block;
mod handler;
mod place;
mod tree;

pub use block::{Block, Creation, Ending, Operation, Question};
pub use handler::HandlerTree;
pub use place::{Literal, Name};
pub use tree::{
    ArrayTree, ChainTree, ColumnKind, ColumnTree, Declaration, Expr, Given, Guards, Label, MapTree,
    Part, ProductOperator, SumOperator, Tree,
};
