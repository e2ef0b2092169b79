//! What one whole block comes to.
use pcap_file::Head;

/// What one whole block comes to.
#[derive(Clone, Copy, Debug, PartialEq, Eq)]
pub(crate) enum Step {
    /// The capture is torn at it.
    Stopped,
    /// It is no packet.
    Quiet,
    /// A packet of an Ethernet.
    Frame(Head),
    /// A packet of another link type.
    Other(Head),
}
