//! A pcapng capture into bytes (draft-ietf-opsawg-pcapng).
//!
//! A packet stands in an Enhanced Packet Block (section 4.3), little-endian:
//!
//! | offset | bytes | meaning |
//! |---|---|---|
//! | 0 | 4 | type, 6 |
//! | 4 | 4 | length of the block, in bytes, a multiple of 4 |
//! | 8 | 4 | interface, 0 |
//! | 12 | 4 | time in nanoseconds, high 32 bits |
//! | 16 | 4 | time in nanoseconds, low 32 bits |
//! | 20 | 4 | captured length, in bytes |
//! | 24 | 4 | original length, in bytes |
//! | 28 | captured length | the frame |
//! | | 0 to 3 | zeros, up to a multiple of 4 |
//! | | 4 | length of the block again |
ghost use Rattle.std.specs.Prelude.{◌≡◌, ◌+◌, ◌≤◌, ◌++◌, length, take, replicate, OnOk, OnErr};
ghost use Rattle.pcap_file.specs.declared.form.Endian.TheVariants.{Little};
ghost use Rattle.pcap_file.specs.Form.{bytes_in};
ghost use Rattle.pcap_file.specs.Record.{greatest_time};
ghost use Rattle.pcapng_file.specs.Written.{ng_header_bytes, padding, block_length, block_lead, block_trail, block_bytes, Fits};

use byteorder::{ByteOrder, LittleEndian};
use std::alloc::AllocError;

/// A section header of version 1.0 and unknown length, and an interface: link type 1, at most 262,144
/// captured bytes, time in units of 10^-9 seconds.
const HEADER: [u8; 60] = [
    0x0a, 0x0d, 0x0d, 0x0a, 0x1c, 0, 0, 0, 0x4d, 0x3c, 0x2b, 0x1a, 1, 0, 0, 0, 0xff, 0xff, 0xff,
    0xff, 0xff, 0xff, 0xff, 0xff, 0x1c, 0, 0, 0, 1, 0, 0, 0, 0x20, 0, 0, 0, 1, 0, 0, 0, 0, 0, 4, 0,
    9, 0, 1, 0, 9, 0, 0, 0, 0, 0, 0, 0, 0x20, 0, 0, 0,
];

/// What stands behind a frame, up to a multiple of 4 bytes.
const ZEROS: [u8; 3] = [0; 3];

/// Appends what a capture begins with, 60 bytes: a section header and one interface.
#[tactic(auto, unfolding(crate::specs::Written::ng_header_bytes))]
pub fn push_ng_header(out: &mut Vec<u8>) -> Result<(), AllocError>
    ensures ok { OnOk result (out.new.items ≡ out.old.items ++ ng_header_bytes) }
    ensures unchanged { OnErr result (out.new.items ≡ out.old.items) }
{
    out.extend_from_slice(&HEADER)
}

// How many zeros stand behind a frame.
#[inline(always)]
fn padding(captured: usize) -> usize
    ensures value { result ≡ padding captured }
    ensures few { result ≤ 3 }
{
    (4 - captured % 4) % 4
}

/// How long the block of a packet is, in bytes.
#[inline(always)]
pub fn block_length(captured: usize) -> usize
    requires { captured ≤ 262144 }
    ensures value { result ≡ block_length captured }
    ensures within { result ≤ 262176 }
{
    32 + (captured + padding(captured))
}

// One number, lowest byte first.
#[inline(always)]
fn number(n: u32) -> [u8; 4]
    ensures { result ≡ bytes_in Little n }
{
    let mut bytes = [0u8; 4];
    LittleEndian::write_u32(&mut bytes, n);
    bytes
}

// What stands in front of the frame.
fn lead(time: u64, original: u32, captured: usize) -> [u8; 28]
    requires time { time ≤ greatest_time }
    requires captured { captured ≤ 262144 }
    ensures { result ≡ block_lead time original captured }
{
    let mut bytes = [0u8; 28];
    LittleEndian::write_u32(&mut bytes, 6);
    LittleEndian::write_u32(&mut bytes[4..], block_length(captured) as u32);
    LittleEndian::write_u32(&mut bytes[8..], 0);
    LittleEndian::write_u32(&mut bytes[12..], (time / 4_294_967_296) as u32);
    LittleEndian::write_u32(&mut bytes[16..], (time % 4_294_967_296) as u32);
    LittleEndian::write_u32(&mut bytes[20..], captured as u32);
    LittleEndian::write_u32(&mut bytes[24..], original);
    bytes
}

// The zeros behind a frame.
#[inline(always)]
fn zeros(captured: usize) -> &'static [u8]
    ensures { result.now ≡ replicate (padding captured) 0 }
{
    &ZEROS[..padding(captured)]
}

fn append(out: &mut Vec<u8>, time: u64, original: u32, frame: &[u8]) -> Result<(), AllocError>
    requires time { time ≤ greatest_time }
    requires frame { length frame.now ≤ 262144 }
    ensures ok { OnOk result
        (out.new.items ≡ out.old.items ++ block_bytes time original frame.now) }
    ensures front { take (length out.old.items) out.new.items ≡ out.old.items }
{
    let lead = lead(time, original, frame.len());
    let total = number(block_length(frame.len()) as u32);
    out.extend_from_slice(&lead)?;
    out.extend_from_slice(frame)?;
    out.extend_from_slice(zeros(frame.len()))?;
    out.extend_from_slice(&total)?;
    Ok(())
}

/// Appends the block of a packet.
///
/// The time is in nanoseconds, and `original` is the frame's length on the wire, in bytes.
pub fn push_block(
    out: &mut Vec<u8>,
    time: u64,
    original: u32,
    frame: &[u8],
) -> Result<(), AllocError>
    requires time { time ≤ greatest_time }
    requires frame { length frame.now ≤ 262144 }
    ensures ok { OnOk result
        (out.new.items ≡ out.old.items ++ block_bytes time original frame.now) }
    ensures unchanged { OnErr result (out.new.items ≡ out.old.items) }
    // What is written can be read again.
    ensures fits { Fits time original frame.now }
{
    let before = out.len();
    let done = append(out, time, original, frame);
    if done.is_err() {
        out.truncate(before);
    }
    done
}

#[inline(always)]
fn put_bytes(room: &mut [u8], at: usize, bytes: &[u8]) -> usize
    requires { at + length bytes.now ≤ length room.old }
    ensures end { result ≡ at + length bytes.now }
    ensures put { take result room.new ≡ take at room.old ++ bytes.now }
{
    let end = at + bytes.len();
    room[at..end].copy_from_slice(bytes);
    end
}

// Puts what stands behind a frame.
#[inline(always)]
fn put_trail(room: &mut [u8], at: usize, captured: usize) -> usize
    requires captured { captured ≤ 262144 }
    requires room { at + (padding captured + 4) ≤ length room.old }
    ensures end { result ≡ at + (padding captured + 4) }
    ensures put { take result room.new ≡ take at room.old ++ block_trail captured }
{
    let total = number(block_length(captured) as u32);
    let middle = put_bytes(room, at, zeros(captured));
    put_bytes(room, middle, &total)
}

/// Puts the block of a packet into some room, from a place on: where it ends.
///
/// What stands before that place stays.
#[inline(always)]
pub fn put_block(room: &mut [u8], at: usize, time: u64, original: u32, frame: &[u8]) -> usize
    requires time { time ≤ greatest_time }
    requires frame { length frame.now ≤ 262144 }
    requires room { at + block_length (length frame.now) ≤ length room.old }
    ensures end { result ≡ at + block_length (length frame.now) }
    ensures put { take result room.new ≡ take at room.old ++ block_bytes time original frame.now }
{
    let lead = lead(time, original, frame.len());
    let start = put_bytes(room, at, &lead);
    let stop = put_bytes(room, start, frame);
    put_trail(room, stop, frame.len())
}
