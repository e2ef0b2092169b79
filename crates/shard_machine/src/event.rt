use nf_base::done::Done;
use nf_base::packet::Packet;

/// What may happen to shards, in any order.
#[derive(Clone, Copy, Debug, PartialEq, Eq)]
pub enum Event {
    /// A packet is given to its queue.
    Dispatch(Packet),
    /// The worker of this number works its next packet.
    Work(u32),
    /// The answer of the next packet, in the order dispatched, is asked for.
    Collect,
}

/// What a worker came to.
#[derive(Clone, Copy, Debug, PartialEq, Eq)]
pub enum Worked {
    /// It worked the next packet of its queue.
    Done,
    /// No packet of its queue waits.
    Idle,
    /// It has met its share stop, now or before.
    Stopped,
}

/// A packet, and what its handling came to.
#[derive(Debug, Drop)]
pub struct Answer {
    pub packet: Packet,
    pub done: Done,
}
