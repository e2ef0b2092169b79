//! Key certificates: what a checked one shows. Each function's contract is one law; its body does
//! nothing.
//!
//! A certificate says why keys are the nearest ones, or why there are none. It lists equations over
//! key bits, as rows whose bits add up to 0 modulo 2, and gives trees. A tree shows that no solution
//! with some bits fixed has a 1 in each span of bits that has to have one: it splits by the value of
//! a bit, down to a sum of rows that contradicts the fixed bits, or to a span whose bits are all 0.
#![tactic(auto)]

pub mod laws;
mod line;

pub use line::{Line, Named, Side, Span, Term};
