//! The frame of a datagram without data.
//!
//! | offset | bytes | meaning |
//! |---|---|---|
//! | 0 | 6 | destination MAC, 02:00:00:00:00:02 |
//! | 6 | 6 | source MAC, 02:00:00:00:00:01 |
//! | 12 | 2 | Ethernet type, 0x0800 for IPv4 |
//! | 14 | 1 | IP version 4 and IHL 5 |
//! | 15 | 1 | type of service, 0 |
//! | 16 | 2 | total length, 28 |
//! | 18 | 4 | identification, flags and fragment offset, 0 |
//! | 22 | 1 | TTL, 64 |
//! | 23 | 1 | protocol, 17 for UDP |
//! | 24 | 2 | IP header checksum |
//! | 26 | 4 | source address |
//! | 30 | 4 | destination address |
//! | 34 | 2 | source port |
//! | 36 | 2 | destination port |
//! | 38 | 2 | UDP length, 8 |
//! | 40 | 2 | UDP checksum, 0: there is none |
//!
//! All numbers stand in network order (RFC 791 section 3.1, RFC 768).

ghost use Rattle.std.specs.Prelude.{◌≡◌, ◌+◌, ◌/◌, ◌%◌, ◌≤◌, ◌<◌, ◌^◌, ◌-◌};
ghost use Rattle.frame_ip.specs.Checksum.{fold};
ghost use Rattle.gen_traffic.specs.Frames.{header_checksum, frame_between, fields_between};

use crate::end::End;
use nf_base::mac::Mac;
use nf_base::packet::{Addresses, Fields};

/// The words of the IP header that are the same in each frame, summed up.
const SAME_WORDS: u32 = 0x4500 + 28 + 0x4011;

/// The two 16-bit words of an address, summed up.
fn words(address: u32) -> u32
    ensures value { result ≡ address / 65536 + address % 65536 }
    ensures within { result ≤ 131070 }
{
    address / 65_536 + address % 65_536
}

/// The high half added to the low half until the sum fits 16 bits; twice is enough.
#[tactic(auto, using(frame_ip::proofs::Folding::twice))]
fn fold(sum: u32) -> u16
    requires { sum < 2 ^ 24 }
    ensures { result ≡ fold sum }
{
    let once = sum / 65_536 + sum % 65_536;
    (once / 65_536 + once % 65_536) as u16
}

/// The IP header's checksum: the complement of the folded sum of its words (RFC 791 section 3.1).
fn header_checksum(from: End, to: End) -> u16
    ensures { result ≡ header_checksum from to }
{
    0xffff - fold(SAME_WORDS + words(from.address) + words(to.address))
}

/// The frame of a datagram from one end to another.
pub fn frame_between(from: End, to: End) -> [u8; 42]
    ensures { result ≡ frame_between from to }
{
    let checksum = header_checksum(from, to).to_be_bytes();
    let source = from.address.to_be_bytes();
    let destination = to.address.to_be_bytes();
    let source_port = from.port.to_be_bytes();
    let destination_port = to.port.to_be_bytes();
    [
        2,
        0,
        0,
        0,
        0,
        2,
        2,
        0,
        0,
        0,
        0,
        1,
        8,
        0,
        0x45,
        0,
        0,
        28,
        0,
        0,
        0,
        0,
        64,
        17,
        checksum[0],
        checksum[1],
        source[0],
        source[1],
        source[2],
        source[3],
        destination[0],
        destination[1],
        destination[2],
        destination[3],
        source_port[0],
        source_port[1],
        destination_port[0],
        destination_port[1],
        0,
        8,
        0,
        0,
    ]
}

/// The fields of that frame.
pub fn fields_between(from: End, to: End) -> Fields
    ensures { result ≡ fields_between from to }
{
    Fields {
        length: 42,
        src_mac: Mac::new(0x0200_0000_0001),
        dst_mac: Mac::new(0x0200_0000_0002),
        addresses: Addresses::Four {
            src: from.address,
            dst: to.address,
        },
        proto: 17,
        ttl: 64,
        src_port: from.port,
        dst_port: to.port,
    }
}
