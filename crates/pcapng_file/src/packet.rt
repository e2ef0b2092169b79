//! Packets and interfaces, as the bodies of blocks say them (pcapng, "Interface Description Block",
//! "Enhanced Packet Block", "Simple Packet Block").
//!
//! | block | offset in the body | bytes | meaning |
//! |---|---|---|---|
//! | type 1 | 0 | 2 | link type, 1 for Ethernet |
//! | | 2 | 2 | reserved |
//! | | 4 | 4 | the most bytes of a frame that are captured, 0 for no bound |
//! | | 8 | | options |
//! | type 6 | 0 | 4 | interface, counted from 0 in its section |
//! | | 4 | 8 | time, the high half first, in units of the interface |
//! | | 12 | 4 | captured length, in bytes |
//! | | 16 | 4 | original length, in bytes |
//! | | 20 | captured length | the frame, then padding and options |
//! | type 3 | 0 | 4 | original length, in bytes; the interface is 0 |
//! | | 4 | captured length | the frame, then padding |
ghost use Rattle.std.specs.Prelude.{◌≡◌, ◌+◌, ◌≤◌, List, ℕ, length, min, IfSome, slice_get};
ghost use Rattle.std.specs.Option.{option_map};
ghost use Rattle.pcap_file.specs.Record.{greatest_time};
ghost use Rattle.pcapng_file.specs.Heard.{head_of};
ghost use Rattle.pcapng_file.specs.Options.{resolution_of};
ghost use Rattle.pcapng_file.specs.Blocks.{Describes, Gives, bounded, heard_of, interface_in, interface_said, enhanced_said, simple_said};
ghost use Rattle.pcapng_file.specs.Taking.{IsFront};

use crate::interface::Interface;
use crate::number::{number, short};
use crate::resolution::{nanoseconds, resolution_in};
use pcap_file::{Endian, Head};
use std::marker::Model;

/// The most bytes of a frame that a packet holds.
const MOST_CAPTURED: u32 = 262_144;

/// The most interfaces of a section.
const MOST_INTERFACES: usize = 256;

/// The most bytes of the body of an interface's block, which has 65,536 with what stands round it.
const MOST_DESCRIBED: usize = 65_524;

/// The link type of Ethernet frames.
const ETHERNET: u16 = 1;

/// The unit of an interface that doesn't say one: microseconds.
const MICROSECONDS: u8 = 6;

/// A packet, whose frame is borrowed from the block's bytes.
#[derive(Drop)]
pub(crate) struct Packet<'a> {
    pub(crate) time: u64,
    pub(crate) original: u32,
    pub(crate) frame: &'a [u8],
    pub(crate) is_ethernet: bool,
}

impl<'a> Model for Packet<'a> {
    ghost use Rattle.std.specs.Prelude.{length, ◌≤◌};
    ghost use Rattle.pcap_file.specs.Record.{greatest_time};
    ghost use Rattle.pcapng_file.specs.Heard.{Heard};

    ghost Value = { Heard };

    ghost view = { λ p. record {
      time = p.time;
      original = p.original;
      frame = p.frame.now;
      is_ethernet = p.is_ethernet;
    } };

    ghost invariant = { λ p. (length p.frame.now ≤ 262144) × (p.time ≤ greatest_time) };
}

impl<'a> Packet<'a> {
    /// What is told of it beside its frame.
    pub(crate) fn head(&self) -> Head
        ensures value { result ≡ head_of self.now }
        ensures time { result.time ≤ greatest_time }
        ensures captured { length self.now.frame ≤ 262144 }
    {
        Head {
            time: self.time,
            captured: self.frame.len() as u32,
            original: self.original,
        }
    }
}

// A packet of an interface, whose frame is the first captured bytes of a tail of so many. Of that as
// much is held as a frame can have.
fn captured_of<'a>(
    interface: Interface,
    time: u64,
    original: u32,
    captured: u32,
    tail: &'a [u8],
    count: usize,
) -> Option<Packet<'a>>
    requires time { time ≤ greatest_time }
    requires held { min count 262144 ≤ length tail.now }
    ensures value { (most : ℕ) (all : List ℕ) → 262144 ≤ most → IsFront most tail.now count all →
        heard_of interface time original captured all ≡ option_map Gives result }
    ensures within { IfSome result (λ packet. length packet.frame ≤ count) }
{
    if captured > MOST_CAPTURED || captured as usize > count {
        return None;
    }
    Some(Packet {
        time,
        original,
        frame: &tail[..captured as usize],
        is_ethernet: interface.link == ETHERNET,
    })
}

// The interface of this number.
fn interface_at(interfaces: &[Interface], index: u32) -> Option<Interface>
    ensures { result ≡ slice_get interfaces.now index }
{
    let place = index as usize;
    if place < interfaces.len() {
        Some(interfaces[place])
    } else {
        None
    }
}

/// The packet of a type 6 block, whose body has `size` bytes; of these the first 262,164 are held.
pub(crate) fn enhanced<'a>(
    interfaces: &[Interface],
    order: Endian,
    body: &'a [u8],
    size: usize,
) -> Option<Packet<'a>>
    requires held { length body.now ≡ min size 262164 }
    ensures value { (all : List ℕ) → IsFront 262164 body.now size all →
        enhanced_said (record { order = order; interfaces = interfaces.now }) all
        ≡ option_map Gives result }
    ensures within { IfSome result (λ packet. 20 + length packet.frame ≤ size) }
{
    if size < 20 {
        return None;
    }
    match interface_at(interfaces, number(order, body)) {
        None => None,
        Some(interface) => {
            let high = u64::from(number(order, &body[4..]));
            let count = high * 4_294_967_296 + u64::from(number(order, &body[8..]));
            let time = nanoseconds(interface.resolution, count);
            let captured = number(order, &body[12..]);
            let original = number(order, &body[16..]);
            captured_of(interface, time, original, captured, &body[20..], size - 20)
        }
    }
}

// How many bytes of a frame an interface captures.
fn bounded(most: u32, original: u32) -> u32
    ensures { result ≡ bounded most original }
{
    if most == 0 {
        original
    } else {
        original.min(most)
    }
}

/// The packet of a type 3 block, whose body has `size` bytes; of these the first 262,164 are held.
///
/// It has no time of its own: its time is 0.
pub(crate) fn simple<'a>(
    interfaces: &[Interface],
    order: Endian,
    body: &'a [u8],
    size: usize,
) -> Option<Packet<'a>>
    requires held { length body.now ≡ min size 262164 }
    ensures value { (all : List ℕ) → IsFront 262164 body.now size all →
        simple_said (record { order = order; interfaces = interfaces.now }) all
        ≡ option_map Gives result }
    ensures within { IfSome result (λ packet. 4 + length packet.frame ≤ size) }
{
    if size < 4 {
        return None;
    }
    match interface_at(interfaces, 0) {
        None => None,
        Some(interface) => {
            let original = number(order, body);
            let captured = bounded(interface.most, original);
            captured_of(interface, 0, original, captured, &body[4..], size - 4)
        }
    }
}

// The unit that options say, or microseconds.
fn resolution_of(found: Option<u8>) -> u8
    ensures { result ≡ resolution_of found }
{
    match found {
        None => MICROSECONDS,
        Some(byte) => byte,
    }
}

// The interface that a body describes.
fn interface_in(order: Endian, body: &[u8]) -> Interface
    requires { 8 ≤ length body.now }
    ensures { result ≡ interface_in order body.now }
{
    let found = resolution_in(order, &body[8..]);
    Interface {
        link: short(order, body),
        most: number(order, &body[4..]),
        resolution: resolution_of(found),
    }
}

/// The interface of a type 1 block, whose body has `size` bytes; of these the first 262,164 are held.
pub(crate) fn described(
    interfaces: &[Interface],
    order: Endian,
    body: &[u8],
    size: usize,
) -> Option<Interface>
    requires held { length body.now ≡ min size 262164 }
    ensures { (all : List ℕ) → IsFront 262164 body.now size all →
        interface_said (record { order = order; interfaces = interfaces.now }) all
        ≡ option_map Describes result }
{
    if size < 8 {
        return None;
    }
    if size > MOST_DESCRIBED {
        return None;
    }
    if interfaces.len() >= MOST_INTERFACES {
        return None;
    }
    Some(interface_in(order, body))
}
