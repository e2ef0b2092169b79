//! The piece of a capture that is given now.
ghost use Rattle.std.specs.Prelude.{◌≡◌, ◌<◌, ◌^◌, ◌*◌, length, take, drop, min, nat_eq};
ghost use Rattle.pcap_file.specs.Record.{record_at};
ghost use Rattle.pcap_file.specs.Spelled.{header_bytes, written_bytes};

use byteorder::{ByteOrder, LittleEndian};
use std::marker::Model;

/// The length of a record with a frame of 42 bytes.
const RECORD: usize = 58;

/// The header of a capture, at the end of as many bytes.
const HEADER: [u8; RECORD] = [
    0, 0, 0, 0, 0, 0, 0, 0, 0, 0, 0, 0, 0, 0, 0, 0, 0, 0, 0, 0, 0, 0, 0, 0, 0, 0, 0, 0, 0, 0, 0, 0,
    0, 0, 0x4d, 0x3c, 0xb2, 0xa1, 2, 0, 4, 0, 0, 0, 0, 0, 0, 0, 0, 0, 0, 0, 4, 0, 1, 0, 0, 0,
];

/// Where it begins there.
const HEADER_AT: usize = 34;

/// The header or one record of a capture, of which contracts see the bytes that weren't given yet.
#[derive(Drop)]
pub(crate) struct Piece {
    bytes: [u8; RECORD],
    at: usize,
}

impl Model for Piece {
    ghost use Rattle.std.specs.Prelude.{ℕ, List, drop, ◌≤◌};

    ghost Value = { List ℕ };

    ghost view = { λ p. drop p.at p.bytes };

    ghost invariant = { λ p. p.at ≤ 58 };
}

// The bytes of the record of a frame that came in at a time, in nanoseconds.
fn record_bytes(time: u64, frame: [u8; 42]) -> [u8; RECORD]
    requires { time < 2 ^ 32 * 1000 }
    ensures { result ≡ written_bytes (record_at time 42 frame) }
{
    let mut bytes = [0u8; RECORD];
    LittleEndian::write_u32(&mut bytes, (time / 1_000_000_000) as u32);
    LittleEndian::write_u32(&mut bytes[4..], (time % 1_000_000_000) as u32);
    LittleEndian::write_u32(&mut bytes[8..], 42);
    LittleEndian::write_u32(&mut bytes[12..], 42);
    bytes[16..].copy_from_slice(&frame);
    bytes
}

impl Piece {
    /// The header of a capture.
    pub(crate) fn header() -> Piece
        ensures { result ≡ header_bytes }
    {
        Piece {
            bytes: HEADER,
            at: HEADER_AT,
        }
    }

    /// The record of a frame that came in at a time, in nanoseconds.
    pub(crate) fn record(time: u64, frame: [u8; 42]) -> Piece
        requires { time < 2 ^ 32 * 1000 }
        ensures { result ≡ written_bytes (record_at time 42 frame) }
    {
        let bytes = record_bytes(time, frame);
        Piece { bytes, at: 0 }
    }

    pub(crate) fn is_empty(&self) -> bool
        ensures { result ≡ nat_eq (length self.now) 0 }
    {
        self.at == RECORD
    }

    /// Gives the bytes in front, as many as there is room for, and tells their number.
    pub(crate) fn give(&mut self, out: &mut [u8]) -> usize
        ensures count { result ≡ min (length self.old) (length out.old) }
        ensures given { take result out.new ≡ take result self.old }
        ensures rest { self.new ≡ drop result self.old }
    {
        let count = out.len().min(RECORD - self.at);
        out[..count].copy_from_slice(&self.bytes[self.at..self.at + count]);
        self.at += count;
        count
    }
}
