//! The edits of a packet, written into its IPv6 frame.
//!
//! | field | offset | bytes | counts in the checksum of |
//! |---|---|---|---|
//! | destination MAC | 0 | 6 | none |
//! | source MAC | 6 | 6 | none |
//! | hop limit | 21 | 1, in a word with the next header | none |
//! | source address | 22 | 16 | TCP or UDP |
//! | destination address | 38 | 16 | TCP or UDP |
//! | source port | 54 | 2 | TCP or UDP |
//! | destination port | 56 | 2 | TCP or UDP |
//! | UDP checksum | 60 | 2 | |
//! | TCP checksum | 70 | 2 | |
//!
//! IPv6 has no checksum of its own.
ghost use Rattle.std.specs.Prelude.{◌≡◌, ◌+◌, ◌*◌, ◌%◌, ◌≤◌, ◌<◌, ◌++◌, length, IsTrue, slice_index};
ghost use Rattle.frame_ip.specs.SixFrame.{is_six};
ghost use Rattle.frame_ip.specs.Writes.{put, put_all, ports, IsUnedited};
ghost use Rattle.frame_ip.specs.Checksum.{changes, updated};
ghost use Rattle.frame_ip.specs.SixEdit.{address_words, hop_words, addresses, checksum_at, transport_checksum, edited};
ghost use Rattle.frame_ip.specs.SixSums.{IsTransportRight, HasChecksum, TransportKeepsRight};

use crate::bytes::u16_at;
use crate::checksum::{udp_checksum, updated};
use crate::words::{change, port_change, put, put_mac, put_port};
use nf_base::done::Edits;

const UDP: u8 = 17;

/// Where the checksum of UDP stands.
const UDP_CHECKSUM: usize = 60;

/// Where the checksum of TCP stands.
const TCP_CHECKSUM: usize = 70;

// The low 16 bits of an address.
fn low(address: u128) -> u16
    ensures { result ≡ address % 65536 }
{
    (address % 65_536) as u16
}

fn put_address(frame: &mut [u8], at: usize, value: Option<u128>)
    requires { at + 16 ≤ length frame.old }
    ensures { frame.new ≡ put_all (address_words at value) frame.old }
{
    if let Some(value) = value {
        put(
            frame,
            at,
            low(value / 0x1_0000_0000_0000_0000_0000_0000_0000),
        );
        put(
            frame,
            at + 2,
            low(value / 0x1_0000_0000_0000_0000_0000_0000),
        );
        put(frame, at + 4, low(value / 0x1_0000_0000_0000_0000_0000));
        put(frame, at + 6, low(value / 0x1_0000_0000_0000_0000));
        put(frame, at + 8, low(value / 0x1_0000_0000_0000));
        put(frame, at + 10, low(value / 0x1_0000_0000));
        put(frame, at + 12, low(value / 0x1_0000));
        put(frame, at + 14, low(value));
    }
}

// The word of a next header and a hop limit.
fn hop_word(value: u64, proto: u8) -> u16
    ensures { result ≡ proto * 256 + value % 256 }
{
    u16::from(proto) * 256 + (value % 256) as u16
}

fn put_hop(frame: &mut [u8], proto: u8, value: Option<u64>)
    requires { 62 ≤ length frame.old }
    ensures { frame.new ≡ put_all (hop_words proto value) frame.old }
{
    if let Some(value) = value {
        put(frame, 20, hop_word(value, proto));
    }
}

fn address_change(frame: &[u8], at: usize, value: Option<u128>) -> u32
    requires { at + 16 ≤ length frame.now }
    ensures value { result ≡ changes frame.now (address_words at value) }
    ensures within { result ≤ 1048560 }
{
    match value {
        None => 0,
        Some(value) => {
            let first = change(
                frame,
                at,
                low(value / 0x1_0000_0000_0000_0000_0000_0000_0000),
            ) + change(
                frame,
                at + 2,
                low(value / 0x1_0000_0000_0000_0000_0000_0000),
            );
            let second = change(frame, at + 4, low(value / 0x1_0000_0000_0000_0000_0000))
                + change(frame, at + 6, low(value / 0x1_0000_0000_0000_0000));
            let third = change(frame, at + 8, low(value / 0x1_0000_0000_0000))
                + change(frame, at + 10, low(value / 0x1_0000_0000));
            let last = change(frame, at + 12, low(value / 0x1_0000))
                + change(frame, at + 14, low(value));
            first + second + (third + last)
        }
    }
}

// Where the checksum of TCP or UDP stands.
fn checksum_at(frame: &[u8]) -> usize
    requires { IsTrue (is_six frame.now) }
    ensures value { result ≡ checksum_at frame.now }
    ensures within { result + 2 ≤ length frame.now }
    ensures ports { 62 ≤ length frame.now }
    ensures some_proto { 0 < slice_index frame.now 20 }
    ensures proto { slice_index frame.now 20 < 256 }
{
    if frame[20] == UDP {
        UDP_CHECKSUM
    } else {
        TCP_CHECKSUM
    }
}

// The checksum of TCP or UDP, as it comes out.
fn recomputed(frame: &[u8], edits: &Edits) -> u16
    requires { IsTrue (is_six frame.now) }
    ensures { result ≡ updated frame.now (checksum_at frame.now)
        (addresses edits.now ++ ports edits.now 54) }
{
    let at = checksum_at(frame);
    let addresses = address_change(frame, 22, edits.src_ip6)
        + address_change(frame, 38, edits.dst_ip6);
    let ports = port_change(frame, 54, edits.src_port) + port_change(frame, 56, edits.dst_port);
    updated(u16_at(frame, at), addresses + ports)
}

fn transport_checksum(frame: &[u8], edits: &Edits) -> u16
    requires { IsTrue (is_six frame.now) }
    ensures value { result ≡ transport_checksum edits.now frame.now }
    ensures right { HasChecksum frame.now → TransportKeepsRight edits.now frame.now }
    ensures unchanged { IsUnedited edits.now →
        put (record { at = checksum_at frame.now; word = transport_checksum edits.now frame.now })
        frame.now ≡ frame.now }
{
    let at = checksum_at(frame);
    let new = recomputed(frame, edits);
    if frame[20] == UDP {
        udp_checksum(u16_at(frame, at), new)
    } else {
        new
    }
}

/// Writes the edits into an IPv6 frame, and brings the checksum of TCP or UDP up to date.
pub(crate) fn edit(frame: &mut [u8], edits: &Edits)
    requires { IsTrue (is_six frame.old) }
    ensures edited { frame.new ≡ edited edits.now frame.old }
    ensures unchanged { IsUnedited edits.now → frame.new ≡ frame.old }
    ensures transport_stays_right { IsTransportRight frame.old → IsTransportRight frame.new }
    ensures transport_right { HasChecksum frame.old → TransportKeepsRight edits.now frame.old }
{
    let checksum = transport_checksum(frame, edits);
    let at = checksum_at(frame);
    let proto = frame[20];
    put_mac(frame, 0, edits.dst_mac);
    put_mac(frame, 6, edits.src_mac);
    put_hop(frame, proto, edits.ttl);
    put_address(frame, 22, edits.src_ip6);
    put_address(frame, 38, edits.dst_ip6);
    put_port(frame, 54, edits.src_port);
    put_port(frame, 56, edits.dst_port);
    put(frame, at, checksum);
}
