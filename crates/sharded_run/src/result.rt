//! What a run in mode `shard` came to.

use shard_core::Stop;
use stream_run::{Ending, Ran};

/// The share stop at which a run ends.
#[derive(Clone, Copy, Debug, PartialEq, Eq)]
pub struct ShareFull {
    pub stop: Stop,
    /// How many packets were handled before it.
    pub packets: u32,
}

/// How the packets of a run end.
#[derive(Clone, Copy, Debug, PartialEq, Eq)]
pub enum RunEnd {
    /// All packets were handled, or as many as were asked for.
    Over(Ending),
    /// A share has no index left at a packet, and those before it were handled.
    Full(ShareFull),
}

/// What reading a packet came to.
#[derive(Clone, Copy, Debug, PartialEq, Eq)]
pub enum ReadResult {
    /// It was handed to the worker of its queue.
    On,
    /// None is left, or as many were given as may be.
    End(Ending),
    /// A share has no index left at a packet before it, and so many before that were handled. Where, the
    /// crew tells.
    Met(u32),
}

/// What a run came to that no fault stopped.
#[derive(Drop)]
pub enum ShardedResult {
    /// All packets were handled, or as many as were asked for.
    Ran(Ran),
    /// A share has no index left at a packet, and those before it were handled.
    Full(ShareFull),
}
