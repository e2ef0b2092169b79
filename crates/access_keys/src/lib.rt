//! The sites of a function: the text places on its feasible paths that touch state, each with the
//! labels that it knows and by which field of the packet.
#![tactic(auto)]

mod access;
mod creation;
mod field;
mod function;
mod known;
mod lookup;
mod named;
mod places;
mod read_order;
mod site;
mod statement;

pub use function::sites;
pub use site::{Known, Site};
