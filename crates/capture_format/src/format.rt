//! The formats in which captures are written.

/// A format in which captures are written.
#[derive(Clone, Copy, Debug, PartialEq, Eq)]
pub enum CaptureFormat {
    /// The libpcap file format 2.4, with nanoseconds.
    Pcap,
    /// One section with one interface, in nanoseconds, and an Enhanced Packet Block for each packet
    /// (draft-ietf-opsawg-pcapng).
    Pcapng,
}
