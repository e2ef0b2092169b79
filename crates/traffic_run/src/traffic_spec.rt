//! What traffic is asked for.
ghost use Rattle.std.specs.Prelude.{◌≡◌, ◌<◌, ◌^◌};

use capture_format::CaptureFormat;
use nf_base::card::Card;

/// What traffic is asked for: a seed, how many packets, of how many flows, through what network card they
/// come, and in what format outputs are to be.
#[derive(Clone, Copy, Debug, PartialEq, Eq)]
pub struct TrafficSpec {
    pub seed: u32,
    pub count: u32,
    pub flows: u32,
    pub card: Card,
    pub format: CaptureFormat,
}

impl TrafficSpec {
    /// How many packets.
    pub(crate) fn count(&self) -> u32
        ensures value { result ≡ self.now.count }
        ensures within { result < 2 ^ 32 }
    {
        self.count
    }
}
