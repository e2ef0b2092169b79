//! A capture into bytes.
ghost use Rattle.std.specs.Prelude.{◌≡◌, ◌+◌, ◌/◌, ◌%◌, ◌≤◌, ◌<◌, ◌^◌, ◌++◌, length, take, drop, OnOk, OnErr};
ghost use Rattle.pcap_file.specs.declared.form.Endian.TheVariants.{Little};
ghost use Rattle.pcap_file.specs.declared.form.TimeUnit.TheVariants.{Nanoseconds};
ghost use Rattle.pcap_file.specs.Form.{bytes_in};
ghost use Rattle.pcap_file.specs.Record.{Fits, record_at, time_of, greatest_time};
ghost use Rattle.pcap_file.specs.Spelled.{header_bytes, written_bytes};

use byteorder::{ByteOrder, LittleEndian};
use std::alloc::AllocError;

/// Magic number, version 2.4, zone and accuracy 0, at most 262,144 captured bytes, link type 1.
const HEADER: [u8; 24] = [
    0x4d, 0x3c, 0xb2, 0xa1, 2, 0, 4, 0, 0, 0, 0, 0, 0, 0, 0, 0, 0, 0, 4, 0, 1, 0, 0, 0,
];

/// Appends the header of a capture, 24 bytes.
pub fn push_header(out: &mut Vec<u8>) -> Result<(), AllocError>
    ensures ok { OnOk result (out.new.items ≡ out.old.items ++ header_bytes) }
    ensures unchanged { OnErr result (out.new.items ≡ out.old.items) }
{
    out.extend_from_slice(&HEADER)
}

// The four numbers of a record, lowest byte first.
fn numbers(time: u64, captured: u32, original: u32) -> [u8; 16]
    requires { time ≤ greatest_time }
    ensures { result ≡ bytes_in Little (time / 1000000000) ++ (bytes_in Little (time % 1000000000) ++ (bytes_in Little captured ++ bytes_in Little original)) }
{
    let mut bytes = [0u8; 16];
    LittleEndian::write_u32(&mut bytes, (time / 1_000_000_000) as u32);
    LittleEndian::write_u32(&mut bytes[4..], (time % 1_000_000_000) as u32);
    LittleEndian::write_u32(&mut bytes[8..], captured);
    LittleEndian::write_u32(&mut bytes[12..], original);
    bytes
}

fn append(out: &mut Vec<u8>, time: u64, original: u32, frame: &[u8]) -> Result<(), AllocError>
    requires time { time ≤ greatest_time }
    requires frame { length frame.now ≤ 262144 }
    ensures ok { OnOk result (out.new.items ≡ out.old.items ++ written_bytes (record_at time original frame.now)) }
    ensures front { take (length out.old.items) out.new.items ≡ out.old.items }
{
    let numbers = numbers(time, frame.len() as u32, original);
    out.extend_from_slice(&numbers)?;
    out.extend_from_slice(frame)?;
    Ok(())
}

/// Appends a record: 16 bytes of numbers and the frame.
///
/// The time is in nanoseconds, and `original` is the frame's length on the wire, in bytes.
pub fn push_record(
    out: &mut Vec<u8>,
    time: u64,
    original: u32,
    frame: &[u8],
) -> Result<(), AllocError>
    requires time { time ≤ greatest_time }
    requires frame { length frame.now ≤ 262144 }
    ensures ok { OnOk result (out.new.items ≡ out.old.items ++ written_bytes (record_at time original frame.now)) }
    ensures unchanged { OnErr result (out.new.items ≡ out.old.items) }
    // What is written can be read again, at the same time.
    ensures fits { Fits (record_at time original frame.now) }
    ensures same_time { time_of Nanoseconds (record_at time original frame.now) ≡ time }
{
    let before = out.len();
    let done = append(out, time, original, frame);
    if done.is_err() {
        out.truncate(before);
    }
    done
}

#[inline(always)]
fn put_bytes(room: &mut [u8], at: usize, bytes: &[u8]) -> usize
    requires { at + length bytes.now ≤ length room.old }
    ensures end { result ≡ at + length bytes.now }
    ensures put { take result room.new ≡ take at room.old ++ bytes.now }
{
    let end = at + bytes.len();
    room[at..end].copy_from_slice(bytes);
    end
}

/// Puts a record into some room, from a place on: where it ends.
///
/// What stands before that place stays.
#[inline(always)]
pub fn put_record(room: &mut [u8], at: usize, time: u64, original: u32, frame: &[u8]) -> usize
    requires time { time ≤ greatest_time }
    requires frame { length frame.now ≤ 262144 }
    requires room { at + 16 + length frame.now ≤ length room.old }
    ensures end { result ≡ at + 16 + length frame.now }
    ensures put { take result room.new ≡ take at room.old ++ written_bytes (record_at time original frame.now) }
{
    let numbers = numbers(time, frame.len() as u32, original);
    let middle = put_bytes(room, at, &numbers);
    put_bytes(room, middle, frame)
}
