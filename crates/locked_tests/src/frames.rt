//! Frames and captures of them.
use pcap_file::{push_header, push_record};
use std::alloc::{AllocError, Global};

/// A UDP frame of the station whose address ends in 0a to that whose ends in 0b (RFC 791, RFC 768).
const OF_A: [u8; 42] = [
    0x00, 0x00, 0x00, 0x00, 0x00, 0x0b, 0x00, 0x00, 0x00, 0x00, 0x00, 0x0a, 0x08, 0x00, 0x45, 0x00,
    0x00, 0x1c, 0x00, 0x00, 0x00, 0x00, 0x40, 0x11, 0x74, 0xcc, 0x01, 0x01, 0x01, 0x01, 0x02, 0x02,
    0x02, 0x02, 0x00, 0x01, 0x00, 0x02, 0x00, 0x08, 0x00, 0x00,
];

/// The same of the second to the first.
const OF_B: [u8; 42] = [
    0x00, 0x00, 0x00, 0x00, 0x00, 0x0a, 0x00, 0x00, 0x00, 0x00, 0x00, 0x0b, 0x08, 0x00, 0x45, 0x00,
    0x00, 0x1c, 0x00, 0x00, 0x00, 0x00, 0x40, 0x11, 0x74, 0xcc, 0x01, 0x01, 0x01, 0x01, 0x02, 0x02,
    0x02, 0x02, 0x00, 0x01, 0x00, 0x02, 0x00, 0x08, 0x00, 0x00,
];

/// A frame of a capture.
#[derive(Clone, Copy)]
pub enum Frame {
    /// Of the first station to the second.
    OfA,
    /// Of the second to the first.
    OfB,
}

/// A time in nanoseconds, and the frame that came then.
pub type Record = (u64, Frame);

fn push_frame(out: &mut Vec<u8>, time: u64, frame: Frame) -> Result<(), AllocError> {
    let time = time.min(4_294_967_295_999_999_999);
    match frame {
        Frame::OfA => push_record(out, time, 42, &OF_A),
        Frame::OfB => push_record(out, time, 42, &OF_B),
    }
}

/// A capture of these frames, as an output has it.
pub fn capture(alloc: Global, records: &[Record]) -> Result<Vec<u8>, AllocError> {
    let mut out = Vec::new(alloc);
    push_header(&mut out)?;
    for (time, frame) in records {
        push_frame(&mut out, *time, *frame)?;
    }
    Ok(out)
}

/// A capture for each port.
pub fn captures(alloc: Global, ports: &[&[Record]]) -> Result<Vec<Vec<u8>>, AllocError> {
    let mut captures = Vec::new(alloc);
    for records in ports {
        captures.push(capture(alloc, records)?)?;
    }
    Ok(captures)
}
