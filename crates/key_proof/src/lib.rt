//! Checks the certificate of a function's keys, or of there being none: with no call of what found
//! them.
#![tactic(auto)]

mod certifying;
mod checking;
mod fields;
mod finding;
mod judging;
mod keyed;
pub mod laws;
mod numbered;
mod reading;
mod rows;
mod subject;
mod vectors;

pub use certifying::{CertifyFault, certify};
pub use checking::first_wrong;
pub use numbered::Numbered;
pub use rows::row_of;
pub use subject::{Subject, subject_of};
pub use vectors::{bits_of, counted, default_bits, spans_of};
