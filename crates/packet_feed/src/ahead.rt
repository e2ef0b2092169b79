//! What was read of a capture ahead of what was given.

/// What was read of a capture behind the packets that were given.
#[derive(Clone, Copy, Debug, PartialEq, Eq)]
pub enum Ahead {
    /// Nothing.
    Unread,
    /// The next packet, whose record or block is whole.
    Held,
    /// That the capture ends here.
    Ended,
    /// That it is torn here: the offset of the torn record or block, in bytes.
    Torn(u64),
}
