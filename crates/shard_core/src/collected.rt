use nf_base::done::Done;
use nf_base::packet::Packet;

/// A packet with its queue and what its handling came to.
#[derive(Debug, Drop)]
pub struct Collected {
    pub packet: Packet,
    pub queue: u32,
    pub done: Done,
}

/// The packet at which a share has no index left for a `new` of a chain.
#[derive(Clone, Copy, Debug, PartialEq, Eq)]
pub struct Stop {
    /// The number of the chain.
    pub chain: u32,
    pub queue: u32,
    pub packet: Packet,
}
