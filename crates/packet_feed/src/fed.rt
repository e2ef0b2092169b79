//! What comes next of captures.

use nf_base::packet::Packet;

/// What comes next of captures.
#[derive(Clone, Copy, Debug, PartialEq, Eq)]
pub enum Fed {
    /// The packet that came next.
    Packet(Packet),
    /// No whole record is left.
    End,
    /// A whole record is left, and as many packets as were asked for were given.
    TooMany,
}
