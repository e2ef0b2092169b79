//! The call that judges a certificate of a function's keys, or of there being none.
#![tactic(auto)]

mod judgement;
mod judging;
pub mod laws;

pub use judgement::Judgement;
pub use judging::judge;
