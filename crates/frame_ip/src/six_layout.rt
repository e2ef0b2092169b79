//! An IPv6 frame, seen in the bytes that were captured of it.
//!
//! | offset | bytes | meaning |
//! |---|---|---|
//! | 0 | 6 | destination MAC |
//! | 6 | 6 | source MAC |
//! | 12 | 2 | Ethernet type, 0x86dd for IPv6 |
//! | 14 | 1 | IP version (high half) |
//! | 18 | 2 | payload length |
//! | 20 | 1 | next header, 6 for TCP and 17 for UDP |
//! | 21 | 1 | hop limit |
//! | 22 | 16 | source address |
//! | 38 | 16 | destination address |
//! | 54 | 2 | source port |
//! | 56 | 2 | destination port |
//!
//! All numbers stand in network order (RFC 8200 section 3, RFC 768, RFC 9293 section 3.1).
ghost use Rattle.std.specs.Prelude.{◌≡◌, ◌≤◌, length, IsTrue};
ghost use Rattle.frame_ip.specs.SixFrame.{has_transport, is_six, fields_at};

use crate::bytes::{mac_at, u16_at, u128_at};
use nf_base::packet::{Addresses, Fields};

const IPV6: u16 = 0x86dd;

const TCP: u8 = 6;

const UDP: u8 = 17;

/// An Ethernet header, an IPv6 header and a UDP header, in bytes.
const SHORTEST: usize = 62;

/// The same with the least TCP header.
const SHORTEST_TCP: usize = 74;

fn reaches_ports(frame: &[u8]) -> bool
    requires { 62 ≤ length frame.now }
    ensures { result ≡ has_transport frame.now }
{
    match frame[20] {
        TCP => SHORTEST_TCP <= frame.len(),
        UDP => SHORTEST <= frame.len(),
        _ => false,
    }
}

/// Whether a frame is handled as IPv6; IPv6's payload length is not tested.
pub(crate) fn is_ipv6(frame: &[u8]) -> bool
    ensures { result ≡ is_six frame.now }
{
    frame.len() >= SHORTEST
        && u16_at(frame, 12) == IPV6
        && frame[14] / 16 == 6
        && reaches_ports(frame)
}

/// The fields of an IPv6 frame.
pub(crate) fn fields(frame: &[u8], original: u32) -> Fields
    requires { IsTrue (is_six frame.now) }
    ensures { result ≡ fields_at frame.now original }
{
    Fields {
        length: original,
        src_mac: mac_at(frame, 6),
        dst_mac: mac_at(frame, 0),
        addresses: Addresses::Six {
            src: u128_at(frame, 22),
            dst: u128_at(frame, 38),
        },
        proto: frame[20],
        ttl: frame[21],
        src_port: u16_at(frame, 54),
        dst_port: u16_at(frame, 56),
    }
}
