//! What workers tell as they go on.

use crate::packet::PacketId;

/// Is told when a worker comes to a packet and when it has handled it.
///
/// Nothing depends on what is told: a run has the same answers whatever these calls do. A test holds
/// one worker in them until another has gone on. No lock is held during either call.
pub trait Turns {
    /// The worker of this number is about to look at a packet.
    fn before(&self, worker: u32, packet: PacketId);

    /// It has the packet's answer, and has not handed it on yet.
    fn after(&self, worker: u32, packet: PacketId);
}

/// Does nothing.
#[derive(Clone, Copy, Debug, Drop)]
pub struct Idle;

impl Turns for Idle {
    fn before(&self, _worker: u32, _packet: PacketId) {}

    fn after(&self, _worker: u32, _packet: PacketId) {}
}
