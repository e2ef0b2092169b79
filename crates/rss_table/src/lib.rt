//! The indirection table of receive side scaling (Microsoft RSS), and which indices of a chain each
//! of its queues owns.
#![tactic(auto)]

mod byte_tables;
pub mod laws;
mod shares;
mod table;

pub use byte_tables::ByteTables;
pub use shares::share;
pub use table::{Table, table_index};
