//! The fields of an Ethernet frame with IPv4 or IPv6 and TCP or UDP, read where they lie, and edits into it.
#![tactic(auto)]

mod bytes;
mod checksum;
mod edits;
mod field;
mod four_edits;
mod four_layout;
mod handled;
mod layout;
mod six_edits;
mod six_layout;
mod words;

pub use edits::edit;
pub use field::{family_of, field_of};
pub use handled::View;
pub use layout::{fields, fields_of, view};
