//! By which labels a function's objects can be sharded: the labels that each site of an object
//! knows, the rule that this makes, and the places that keys have to serve.
#![tactic(auto)]

mod joining;
mod labels;
pub mod laws;
mod place;
mod plan;
mod rule;
mod written;

pub use joining::join;
pub use labels::{field_at, is_on, knows_one, label_count};
pub use plan::{ObjectVerdict, Plan};
pub use rule::Rule;
pub use written::is_written;
