//! What test programs give to runs: texts of functions, captures of frames, and files that are opened and created; and
//! what holds a worker until another has gone on.
#![tactic(auto)]

pub mod digest;
pub mod files;
pub mod frames;
pub mod functions;
pub mod meeting;
