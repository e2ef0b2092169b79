//! Where a worker's share ended.

use nf_base::packet::Packet;

/// The packet at which a share has no index left for a `new` of a chain.
#[derive(Clone, Copy, Debug, PartialEq, Eq)]
pub struct Halt {
    /// The number of the chain.
    pub chain: u32,
    pub packet: Packet,
}
