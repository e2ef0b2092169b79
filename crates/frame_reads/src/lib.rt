//! Frames whose fields a handler reads where they lie.
#![tactic(auto)]

mod frame_fields;

pub use frame_fields::FrameFields;
