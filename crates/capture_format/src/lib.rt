//! Captures as they are written, in either format: pcap or pcapng.
#![tactic(auto)]

mod format;
pub mod laws;
mod writing;

pub use format::CaptureFormat;
pub use writing::{head_length, lead_length, packet_length, push_head, push_packet, put_packet};
