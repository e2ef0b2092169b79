//! Made-up traffic: clients that send datagrams to a server, and its replies, drawn by a seed.
#![tactic(auto)]

mod end;
mod frame;
pub mod laws;
mod traffic;

pub use traffic::Traffic;
