//! Where captures moved on to.

/// Where captures moved on to.
#[derive(Clone, Copy, Debug, PartialEq, Eq)]
pub enum Moved {
    /// The next packet, of which the captures tell from then on as the one that was given last.
    Packet,
    /// No whole record is left.
    End,
    /// A whole record is left, and as many packets as were asked for were given.
    TooMany,
}
