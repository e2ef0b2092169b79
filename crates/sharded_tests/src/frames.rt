//! Frames and captures of them (RFC 791, RFC 768).
use pcap_file::{push_header, push_record};
use std::alloc::{AllocError, Global};

/// A UDP frame from 10.0.0.1:1000 to 10.0.0.2:80.
const QUERY: [u8; 42] = [
    0x02, 0x00, 0x00, 0x00, 0x00, 0x02, 0x02, 0x00, 0x00, 0x00, 0x00, 0x01, 0x08, 0x00, 0x45, 0x00,
    0x00, 0x1c, 0x00, 0x00, 0x00, 0x00, 0x40, 0x11, 0x66, 0xcf, 0x0a, 0x00, 0x00, 0x01, 0x0a, 0x00,
    0x00, 0x02, 0x03, 0xe8, 0x00, 0x50, 0x00, 0x08, 0x00, 0x00,
];

/// A UDP frame from 10.0.0.2:80 to 10.0.0.1:1000.
const REPLY: [u8; 42] = [
    0x02, 0x00, 0x00, 0x00, 0x00, 0x02, 0x02, 0x00, 0x00, 0x00, 0x00, 0x01, 0x08, 0x00, 0x45, 0x00,
    0x00, 0x1c, 0x00, 0x00, 0x00, 0x00, 0x40, 0x11, 0x66, 0xcf, 0x0a, 0x00, 0x00, 0x02, 0x0a, 0x00,
    0x00, 0x01, 0x00, 0x50, 0x03, 0xe8, 0x00, 0x08, 0x00, 0x00,
];

/// A UDP frame from 85.85.0.1, both of whose checksums are 0xdd2f.
const SUMMED: [u8; 42] = [
    0x02, 0x00, 0x00, 0x00, 0x00, 0x02, 0x02, 0x00, 0x00, 0x00, 0x00, 0x01, 0x08, 0x00, 0x45, 0x00,
    0x00, 0x1c, 0x00, 0x00, 0x00, 0x00, 0x40, 0x11, 0xdd, 0x2f, 0x55, 0x55, 0x00, 0x01, 0xc0, 0xa8,
    0x00, 0x00, 0x04, 0x00, 0x00, 0x50, 0x00, 0x08, 0xdd, 0x2f,
];

/// The same from 50.133.0.1: 0xdd2f with 0x5555 changed to 0x3285 comes out as 0 (RFC 1624 section 4), which a UDP
/// checksum never is.
const EDITED: [u8; 42] = [
    0x02, 0x00, 0x00, 0x00, 0x00, 0x02, 0x02, 0x00, 0x00, 0x00, 0x00, 0x01, 0x08, 0x00, 0x45, 0x00,
    0x00, 0x1c, 0x00, 0x00, 0x00, 0x00, 0x40, 0x11, 0x00, 0x00, 0x32, 0x85, 0x00, 0x01, 0xc0, 0xa8,
    0x00, 0x00, 0x04, 0x00, 0x00, 0x50, 0x00, 0x08, 0xff, 0xff,
];

/// A frame of a capture.
#[derive(Clone, Copy)]
pub enum Frame {
    /// A UDP frame from 10.0.0.1:1000 to 10.0.0.2:80.
    Query,
    /// A UDP frame from 10.0.0.2:80 to 10.0.0.1:1000.
    Reply,
    /// The query as a fragment.
    Fragment,
    /// A frame that is of no version of IP.
    Arp,
    /// The query, as the first 42 bytes of a frame of 1,514.
    Cut,
    /// The query, with zeros behind it up to 30,000 bytes.
    Long,
    /// A UDP frame from 85.85.0.1, both of whose checksums are 0xdd2f.
    Summed,
    /// The same from 50.133.0.1.
    Edited,
}

/// A time in nanoseconds, and the frame that came then.
pub type Record = (u64, Frame);

/// The query with another byte at a place.
fn changed(at: usize, byte: u8) -> [u8; 42] {
    let mut frame = QUERY;
    if at < 42 {
        frame[at] = byte;
    }
    frame
}

fn push_frame(out: &mut Vec<u8>, time: u64, frame: Frame) -> Result<(), AllocError> {
    let time = time.min(4_294_967_295_999_999_999);
    match frame {
        Frame::Query => push_record(out, time, 42, &QUERY),
        Frame::Reply => push_record(out, time, 42, &REPLY),
        Frame::Fragment => push_record(out, time, 42, &changed(20, 0x20)),
        Frame::Arp => push_record(out, time, 42, &changed(13, 0x06)),
        Frame::Cut => push_record(out, time, 1514, &QUERY),
        Frame::Long => push_long(out, time),
        Frame::Summed => push_record(out, time, 42, &SUMMED),
        Frame::Edited => push_record(out, time, 42, &EDITED),
    }
}

fn push_long(out: &mut Vec<u8>, time: u64) -> Result<(), AllocError> {
    let mut frame = [0u8; 30_000];
    for (to, byte) in frame.iter_mut().zip(&QUERY) {
        *to = *byte;
    }
    push_record(out, time.min(4_294_967_295_999_999_999), 30_000, &frame)
}

/// A capture of these frames.
pub fn capture(alloc: Global, records: &[Record]) -> Result<Vec<u8>, AllocError> {
    let mut out = Vec::new(alloc);
    push_header(&mut out)?;
    for (time, frame) in records {
        push_frame(&mut out, *time, *frame)?;
    }
    Ok(out)
}

/// A capture for each port.
pub fn captures(alloc: Global, ports: &[&[Record]]) -> Result<Vec<Vec<u8>>, AllocError> {
    let mut captures = Vec::new(alloc);
    for records in ports {
        captures.push(capture(alloc, records)?)?;
    }
    Ok(captures)
}
