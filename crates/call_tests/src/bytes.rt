// Captures and other bytes, as they are spelled (libpcap file format 2.4).
use std::alloc::{AllocError, Global};

// The header of a capture: little-endian, nanoseconds, at most 262,144 bytes a frame, Ethernet.
const HEADER: [u8; 24] = [
    0x4d, 0x3c, 0xb2, 0xa1, 0x02, 0x00, 0x04, 0x00, 0x00, 0x00, 0x00, 0x00, 0x00, 0x00, 0x00, 0x00,
    0x00, 0x00, 0x04, 0x00, 0x01, 0x00, 0x00, 0x00,
];

/// A capture without records.
pub fn empty_capture(alloc: Global) -> Result<Vec<u8>, AllocError> {
    Vec::from_slice(alloc, &HEADER)
}

fn push_number(out: &mut Vec<u8>, number: u64) -> Result<(), AllocError> {
    let low = number % 4_294_967_296;
    out.extend_from_slice(&(low as u32).to_le_bytes())
}

/// Puts a record behind a capture: its time in nanoseconds, the original length of its frame, and the bytes that stand of it.
pub fn push_record(
    out: &mut Vec<u8>,
    time: u64,
    original: u64,
    frame: &[u8],
) -> Result<(), AllocError> {
    push_number(out, time / 1_000_000_000)?;
    push_number(out, time % 1_000_000_000)?;
    push_number(out, frame.len() as u64)?;
    push_number(out, original)?;
    out.extend_from_slice(frame)
}

/// Puts the bytes of hexadecimal digits behind others. Whether they are such digits, two for each byte.
pub fn push_hex(alloc: Global, out: &mut Vec<u8>, digits: &str) -> Result<bool, AllocError> {
    match hex::decode(alloc, digits) {
        Ok(bytes) => {
            out.extend_from_slice(bytes.as_slice())?;
            Ok(true)
        }
        Err(_) => Ok(false),
    }
}

/// The byte of two hexadecimal digits.
pub fn byte_of(digits: &str) -> Option<u8> {
    match u8::from_str_radix(digits, 16) {
        Ok(byte) if digits.len() == 2 => Some(byte),
        _ => None,
    }
}
