//! How many packets outputs hold.
ghost use Rattle.std.specs.Prelude.{◌≡◌};
ghost use Rattle.traffic_run.specs.Sent.{records_in};

use capture_format::{CaptureFormat, head_length, packet_length};

/// The length of each frame of made-up traffic, in bytes.
const FRAME: usize = 42;

/// How many packets so many outputs hold that were given so many bytes, where each frame has 42.
pub(crate) fn records_in(format: CaptureFormat, bytes: u64, outputs: u32) -> u64
    ensures { result ≡ records_in format bytes outputs }
{
    let heads = head_length(format) as u64 * u64::from(outputs);
    let packet = packet_length(format, FRAME) as u64;
    bytes.saturating_sub(heads) / packet
}
