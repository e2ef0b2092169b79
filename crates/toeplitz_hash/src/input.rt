//! What of a packet is hashed.
//!
//! | offset, IPv4 | bytes | offset, IPv6 | bytes | meaning |
//! |---|---|---|---|---|
//! | 0 | 4 | 0 | 16 | source address |
//! | 4 | 4 | 16 | 16 | destination address |
//! | 8 | 2 | 32 | 2 | source port |
//! | 10 | 2 | 34 | 2 | destination port |
//!
//! All numbers stand in network order (Microsoft RSS, IPv4 and IPv6 with ports).
ghost use Rattle.std.specs.Prelude.{◌≡◌, ◌<◌, ◌≤◌, length};
ghost use Rattle.toeplitz_hash.specs.Packets.{input_bytes, hash_of};

use crate::hash::toeplitz;
use nf_base::keys::Keys;
use nf_base::packet::{Addresses, Fields, Packet};
use std::marker::Model;

/// The bytes that are hashed, 12 or 36.
#[derive(Drop)]
pub struct Input {
    bytes: [u8; 36],
    len: usize,
}

impl Model for Input {
    ghost use Rattle.std.specs.Prelude.{List, ℕ, take, ◌≤◌};

    ghost Value = { List ℕ };

    ghost view = { λ a. take a.len a.bytes };

    ghost invariant = { λ a. a.len ≤ 36 };
}

impl Input {
    #[inline]
    pub fn as_slice(&self) -> &[u8]
        ensures value { result.now ≡ self.now }
        ensures within { length self.now ≤ 36 }
    {
        &self.bytes[..self.len]
    }
}

/// The bytes of a handled packet that are hashed.
#[inline(always)]
pub fn input_of(fields: &Fields) -> Input
    ensures { result ≡ input_bytes fields.now }
{
    let x = fields.src_port.to_be_bytes();
    let y = fields.dst_port.to_be_bytes();
    match fields.addresses {
        Addresses::Four { src, dst } => {
            let s = src.to_be_bytes();
            let d = dst.to_be_bytes();
            let bytes = [
                s[0], s[1], s[2], s[3], d[0], d[1], d[2], d[3], x[0], x[1], y[0], y[1], 0, 0, 0, 0,
                0, 0, 0, 0, 0, 0, 0, 0, 0, 0, 0, 0, 0, 0, 0, 0, 0, 0, 0, 0,
            ];
            Input { bytes, len: 12 }
        }
        Addresses::Six { src, dst } => {
            let s = src.to_be_bytes();
            let d = dst.to_be_bytes();
            let bytes = [
                s[0], s[1], s[2], s[3], s[4], s[5], s[6], s[7], s[8], s[9], s[10], s[11], s[12],
                s[13], s[14], s[15], d[0], d[1], d[2], d[3], d[4], d[5], d[6], d[7], d[8], d[9],
                d[10], d[11], d[12], d[13], d[14], d[15], x[0], x[1], y[0], y[1],
            ];
            Input { bytes, len: 36 }
        }
    }
}

/// The hash of a packet under the key of the port that it came in at, and None for one that is
/// skipped.
pub fn hash_packet(keys: &Keys, packet: &Packet) -> Option<u32>
    requires { packet.now.id.port < length keys.now.ports }
    ensures { result ≡ hash_of keys.now packet.now }
{
    match packet.fields {
        Some(fields) => {
            let input = input_of(&fields);
            let key = keys.ports.item(packet.id.port);
            Some(toeplitz(key.as_slice(), input.as_slice()))
        }
        None => None,
    }
}
