//! An IPv4 frame, seen in the bytes that were captured of it.
//!
//! | offset | bytes | meaning |
//! |---|---|---|
//! | 0 | 6 | destination MAC |
//! | 6 | 6 | source MAC |
//! | 12 | 2 | Ethernet type, 0x0800 for IPv4 |
//! | 14 | 1 | IP version (high half) and IHL in words of 4 bytes (low half) |
//! | 20 | 2 | flags (3 bits) and fragment offset (13 bits) |
//! | 22 | 1 | TTL |
//! | 23 | 1 | protocol, 6 for TCP and 17 for UDP |
//! | 26 | 4 | source address |
//! | 30 | 4 | destination address |
//! | 14 + 4 IHL | 2 | source port |
//! | 14 + 4 IHL + 2 | 2 | destination port |
//!
//! All numbers stand in network order (RFC 791 section 3.1, RFC 768, RFC 9293 section 3.1).
ghost use Rattle.std.specs.Prelude.{◌≡◌, ◌+◌, ◌≤◌, length, IsTrue};
ghost use Rattle.frame_ip.specs.FourFrame.{header_words, transport_at, has_transport, is_four, fields_at};

use crate::bytes::{mac_at, u16_at, u32_at};
use nf_base::packet::{Addresses, Fields};

const IPV4: u16 = 0x0800;

const TCP: u8 = 6;

const UDP: u8 = 17;

/// An Ethernet header, the least IPv4 header and a UDP header, in bytes.
const SHORTEST: usize = 42;

/// The IP header's words of 4 bytes.
#[inline]
fn words(frame: &[u8]) -> usize
    requires { 15 ≤ length frame.now }
    ensures { result ≡ header_words frame.now }
{
    usize::from(frame[14] % 16)
}

/// Where the TCP or UDP header begins.
#[inline]
pub(crate) fn transport(frame: &[u8]) -> usize
    requires { 15 ≤ length frame.now }
    ensures { result ≡ transport_at frame.now }
{
    14 + 4 * words(frame)
}

fn reaches_ports(frame: &[u8]) -> bool
    requires { 42 ≤ length frame.now }
    ensures { result ≡ has_transport frame.now }
{
    let transport = transport(frame);
    match frame[23] {
        TCP => transport + 20 <= frame.len(),
        UDP => transport + 8 <= frame.len(),
        _ => false,
    }
}

/// Whether a frame is handled as IPv4; IP's total length is not tested.
pub(crate) fn is_ipv4(frame: &[u8]) -> bool
    ensures { result ≡ is_four frame.now }
{
    frame.len() >= SHORTEST
        && u16_at(frame, 12) == IPV4
        && frame[14] / 16 == 4
        && words(frame) >= 5
        && u16_at(frame, 20) % 0x4000 == 0
        && reaches_ports(frame)
}

/// The fields of an IPv4 frame.
pub(crate) fn fields(frame: &[u8], original: u32) -> Fields
    requires { IsTrue (is_four frame.now) }
    ensures { result ≡ fields_at frame.now original }
{
    let transport = transport(frame);
    Fields {
        length: original,
        src_mac: mac_at(frame, 6),
        dst_mac: mac_at(frame, 0),
        addresses: Addresses::Four {
            src: u32_at(frame, 26),
            dst: u32_at(frame, 30),
        },
        proto: frame[23],
        ttl: frame[22],
        src_port: u16_at(frame, transport),
        dst_port: u16_at(frame, transport + 2),
    }
}
