//! The edits of a packet, written into its IPv4 frame.
//!
//! | field | offset | bytes | counts in the checksum of |
//! |---|---|---|---|
//! | destination MAC | 0 | 6 | none |
//! | source MAC | 6 | 6 | none |
//! | TTL | 22 | 1, in a word with the protocol | IP |
//! | source address | 26 | 4 | IP, and TCP or UDP |
//! | destination address | 30 | 4 | IP, and TCP or UDP |
//! | source port | 14 + 4 IHL | 2 | TCP or UDP |
//! | destination port | 14 + 4 IHL + 2 | 2 | TCP or UDP |
//! | IP header checksum | 24 | 2 | |
//! | UDP checksum | 14 + 4 IHL + 6 | 2 | |
//! | TCP checksum | 14 + 4 IHL + 16 | 2 | |
ghost use Rattle.std.specs.Prelude.{◌≡◌, ◌+◌, ◌*◌, ◌%◌, ◌≤◌, ◌<◌, ◌++◌, length, IsTrue, slice_index};
ghost use Rattle.frame_ip.specs.FourFrame.{is_four, header_words, transport_at};
ghost use Rattle.frame_ip.specs.Writes.{put, put_all, ports, IsUnedited};
ghost use Rattle.frame_ip.specs.Checksum.{changes, updated};
ghost use Rattle.frame_ip.specs.FourEdit.{address_words, ttl_words, addresses, checksum_at, ip_checksum, transport_checksum, edited};
ghost use Rattle.frame_ip.specs.FourSums.{IsIpRight, IsTransportRight, HasChecksum, IpKeepsRight, TransportKeepsRight};

use crate::bytes::u16_at;
use crate::checksum::{udp_checksum, updated};
use crate::four_layout::transport;
use crate::words::{change, low, port_change, put, put_mac, put_port};
use nf_base::done::Edits;

/// Where the IP header's checksum stands.
const IP_CHECKSUM: usize = 24;

const UDP: u8 = 17;

fn put_address(frame: &mut [u8], at: usize, value: Option<u64>)
    requires { at + 4 ≤ length frame.old }
    ensures { frame.new ≡ put_all (address_words at value) frame.old }
{
    if let Some(value) = value {
        put(frame, at, low(value / 65_536));
        put(frame, at + 2, low(value));
    }
}

// The word of a TTL and a protocol.
fn ttl_word(value: u64, proto: u8) -> u16
    ensures { result ≡ value % 256 * 256 + proto }
{
    (value % 256) as u16 * 256 + u16::from(proto)
}

fn put_ttl(frame: &mut [u8], proto: u8, value: Option<u64>)
    requires { 24 ≤ length frame.old }
    ensures { frame.new ≡ put_all (ttl_words proto value) frame.old }
{
    if let Some(value) = value {
        put(frame, 22, ttl_word(value, proto));
    }
}

fn address_change(frame: &[u8], at: usize, value: Option<u64>) -> u32
    requires { at + 4 ≤ length frame.now }
    ensures value { result ≡ changes frame.now (address_words at value) }
    ensures within { result ≤ 262140 }
{
    match value {
        None => 0,
        Some(value) => {
            change(frame, at, low(value / 65_536)) + change(frame, at + 2, low(value))
        }
    }
}

fn ttl_change(frame: &[u8], value: Option<u64>) -> u32
    requires { 24 ≤ length frame.now }
    ensures value { result ≡ changes frame.now (ttl_words (slice_index frame.now 23) value) }
    ensures within { result ≤ 131070 }
{
    match value {
        None => 0,
        Some(value) => change(frame, 22, ttl_word(value, frame[23])),
    }
}

fn ip_checksum(frame: &[u8], edits: &Edits) -> u16
    requires { 42 ≤ length frame.now }
    ensures value { result ≡ ip_checksum edits.now frame.now }
    ensures right { IpKeepsRight edits.now frame.now }
    ensures unchanged { IsUnedited edits.now →
        put (record { at = 24; word = ip_checksum edits.now frame.now }) frame.now ≡ frame.now }
{
    let addresses = address_change(frame, 26, edits.src_ip)
        + address_change(frame, 30, edits.dst_ip);
    let sum = ttl_change(frame, edits.ttl) + addresses;
    updated(u16_at(frame, IP_CHECKSUM), sum)
}

// Where the checksum of TCP or UDP stands.
fn checksum_at(frame: &[u8]) -> usize
    requires { IsTrue (is_four frame.now) }
    ensures value { result ≡ checksum_at frame.now }
    ensures within { result + 2 ≤ length frame.now }
    ensures ports { transport_at frame.now + 8 ≤ length frame.now }
    ensures header { 42 ≤ length frame.now }
    ensures words { 5 ≤ header_words frame.now }
    ensures version { 0 < slice_index frame.now 14 }
    ensures some_proto { 0 < slice_index frame.now 23 }
    ensures proto { slice_index frame.now 23 < 256 }
{
    if frame[23] == UDP {
        transport(frame) + 6
    } else {
        transport(frame) + 16
    }
}

// The checksum of TCP or UDP, as it comes out.
fn recomputed(frame: &[u8], edits: &Edits) -> u16
    requires { IsTrue (is_four frame.now) }
    ensures { result ≡ updated frame.now (checksum_at frame.now)
        (addresses edits.now ++ ports edits.now (transport_at frame.now)) }
{
    let at = checksum_at(frame);
    let ports = transport(frame);
    let addresses = address_change(frame, 26, edits.src_ip)
        + address_change(frame, 30, edits.dst_ip);
    let ports = port_change(frame, ports, edits.src_port)
        + port_change(frame, ports + 2, edits.dst_port);
    updated(u16_at(frame, at), addresses + ports)
}

fn transport_checksum(frame: &[u8], edits: &Edits) -> u16
    requires { IsTrue (is_four frame.now) }
    ensures value { result ≡ transport_checksum edits.now frame.now }
    ensures right { HasChecksum frame.now → TransportKeepsRight edits.now frame.now }
    ensures unchanged { IsUnedited edits.now →
        put (record { at = checksum_at frame.now; word = transport_checksum edits.now frame.now })
        frame.now ≡ frame.now }
{
    let at = checksum_at(frame);
    let new = recomputed(frame, edits);
    if frame[23] == UDP {
        udp_checksum(u16_at(frame, at), new)
    } else {
        new
    }
}

/// Writes the edits into an IPv4 frame, and brings both checksums up to date.
pub(crate) fn edit(frame: &mut [u8], edits: &Edits)
    requires { IsTrue (is_four frame.old) }
    ensures edited { frame.new ≡ edited edits.now frame.old }
    ensures unchanged { IsUnedited edits.now → frame.new ≡ frame.old }
    ensures ip_stays_right { IsIpRight frame.old → IsIpRight frame.new }
    ensures transport_stays_right { IsTransportRight frame.old → IsTransportRight frame.new }
    ensures ip_right { IpKeepsRight edits.now frame.old }
    ensures transport_right { HasChecksum frame.old → TransportKeepsRight edits.now frame.old }
{
    let ip = ip_checksum(frame, edits);
    let checksum = transport_checksum(frame, edits);
    let at = checksum_at(frame);
    let ports = transport(frame);
    let proto = frame[23];
    put_mac(frame, 0, edits.dst_mac);
    put_mac(frame, 6, edits.src_mac);
    put_ttl(frame, proto, edits.ttl);
    put(frame, IP_CHECKSUM, ip);
    put_address(frame, 26, edits.src_ip);
    put_address(frame, 30, edits.dst_ip);
    put_port(frame, ports, edits.src_port);
    put_port(frame, ports + 2, edits.dst_port);
    put(frame, at, checksum);
}
