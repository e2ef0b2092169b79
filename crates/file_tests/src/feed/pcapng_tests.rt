//! Captures in pcapng, alone and beside captures in the libpcap file format (draft-ietf-opsawg-pcapng).

use super::story::{End, Line, Story, read_all};
use super::tests::capture;
use packet_feed::FeedFault;
use std::alloc::{AllocError, Global};
use std::test::Fail;

/// A section's header, in little-endian, with no length of the section.
const SECTION: [u8; 28] = [
    0x0a, 0x0d, 0x0d, 0x0a, 28, 0, 0, 0, 0x4d, 0x3c, 0x2b, 0x1a, 1, 0, 0, 0, 0xff, 0xff, 0xff,
    0xff, 0xff, 0xff, 0xff, 0xff, 28, 0, 0, 0,
];

/// An interface of Ethernet whose times are nanoseconds (option 9, `if_tsresol`, of 9).
const NANOSECONDS: [u8; 32] = [
    1, 0, 0, 0, 32, 0, 0, 0, 1, 0, 0, 0, 0, 0, 4, 0, 9, 0, 1, 0, 9, 0, 0, 0, 0, 0, 0, 0, 32, 0, 0,
    0,
];

/// One of Ethernet without options, whose times are microseconds.
const MICROSECONDS: [u8; 20] = [1, 0, 0, 0, 20, 0, 0, 0, 1, 0, 0, 0, 0, 0, 4, 0, 20, 0, 0, 0];

/// One of raw IP (link type 101) without options.
const RAW_IP: [u8; 20] = [
    1, 0, 0, 0, 20, 0, 0, 0, 101, 0, 0, 0, 0, 0, 4, 0, 20, 0, 0, 0,
];

/// One of Ethernet whose times are halves of a second (option 9 of 0x81).
const HALVES: [u8; 32] = [
    1, 0, 0, 0, 32, 0, 0, 0, 1, 0, 0, 0, 0, 0, 4, 0, 9, 0, 1, 0, 0x81, 0, 0, 0, 0, 0, 0, 0, 32, 0,
    0, 0,
];

/// A Simple Packet Block: 4 captured bytes of a frame of as many.
const SIMPLE: [u8; 20] = [
    3, 0, 0, 0, 20, 0, 0, 0, 4, 0, 0, 0, 0x33, 2, 3, 4, 20, 0, 0, 0,
];

/// A TCP segment's first bytes, with an IP header of 20 bytes, and 2 bytes behind it.
const SEGMENT: [u8; 56] = [
    0, 0, 0, 0, 0, 2, 0, 0, 0, 0, 0, 1, 0x08, 0x00, 0x45, 0, 0, 40, 0, 0, 0, 0, 64, 6, 0, 0, 10, 0,
    0, 1, 192, 168, 0, 2, 0x30, 0x39, 0x01, 0xbb, 0, 0, 0, 0, 0, 0, 0, 0, 0x50, 0x02, 0, 0, 0, 0,
    0, 0, 0, 0,
];

/// A section and its interfaces.
fn section(alloc: Global, interfaces: &[&[u8]]) -> Result<Vec<u8>, AllocError> {
    let mut out = Vec::from_slice(alloc, &SECTION)?;
    for interface in interfaces {
        out.extend_from_slice(interface)?;
    }
    Ok(out)
}

/// Appends an Enhanced Packet Block, whose captured bytes are a multiple of 4, and all of the frame.
fn block(out: &mut Vec<u8>, interface: u32, time: u64, frame: &[u8]) -> Result<(), AllocError> {
    let captured = (frame.len() % 65_536) as u32;
    let total = 32 + captured;
    let low = (time % 4_294_967_296) as u32;
    let high = (time / 4_294_967_296) as u32;
    for number in [6, total, interface, high, low, captured, captured] {
        out.extend_from_slice(&number.to_le_bytes())?;
    }
    out.extend_from_slice(frame)?;
    out.extend_from_slice(&total.to_le_bytes())
}

/// A capture in nanoseconds, of frames of 4 bytes.
fn in_pcapng(alloc: Global, times: &[u64]) -> Result<Vec<u8>, AllocError> {
    let mut out = section(alloc, &[&NANOSECONDS])?;
    for time in times {
        block(&mut out, 0, *time, &[0x22, 2, 3, 4])?;
    }
    Ok(out)
}

/// What one capture gives.
fn story(alloc: Global, bytes: Vec<u8>) -> Result<Story, AllocError> {
    read_all(alloc, &[bytes], &[], 9)
}

/// Time, port, number and first byte of a packet.
fn told(line: &Line) -> (u64, u32, u32, u8) {
    (line.time, line.port, line.seq, line.byte)
}

#[test]
fn both_kinds_stand_side_by_side(rt: HostRuntime) -> Result<(), Fail> {
    let alloc = rt.alloc();
    let captures = [
        capture(alloc, &[5, 9])?,
        in_pcapng(alloc, &[5, 7, 6])?,
        capture(alloc, &[6])?,
        in_pcapng(alloc, &[])?,
    ];
    let all = read_all(alloc, &captures, &[], 9)?;
    let expected = [
        (5, 0, 0, 1),
        (5, 1, 0, 0x22),
        (6, 2, 0, 1),
        (7, 1, 1, 0x22),
        (7, 1, 2, 0x22),
        (9, 0, 1, 1),
    ];
    assert_eq!(rt; (all.end, all.torn, all.lines.len()), (End::End, None, 6));
    for (line, wanted) in all.lines.iter().zip(&expected) {
        assert_eq!(rt; told(line), *wanted);
    }
    Ok(())
}

/// A packet of each of three interfaces, a Simple Packet Block, which is of interface 0 and has the
/// latest time so far, and a packet of a second section, whose interface 0 counts halves.
fn many_units(alloc: Global) -> Result<Vec<u8>, AllocError> {
    let mut out = section(alloc, &[&MICROSECONDS, &NANOSECONDS, &HALVES])?;
    block(&mut out, 0, 7, &[1, 0, 0, 0])?;
    block(&mut out, 1, 7001, &[2, 0, 0, 0])?;
    block(&mut out, 2, 3, &[3, 0, 0, 0])?;
    out.extend_from_slice(&SIMPLE)?;
    out.extend_from_slice(&SECTION)?;
    out.extend_from_slice(&HALVES)?;
    block(&mut out, 0, 4, &[5, 0, 0, 0])?;
    Ok(out)
}

#[test]
fn times_are_those_of_the_packets_interface(rt: HostRuntime) -> Result<(), Fail> {
    let all = story(rt.alloc(), many_units(rt.alloc())?)?;
    let expected = [
        (7_000, 0, 0, 1),
        (7_001, 0, 1, 2),
        (1_500_000_000, 0, 2, 3),
        (1_500_000_000, 0, 3, 0x33),
        (2_000_000_000, 0, 4, 5),
    ];
    assert_eq!(rt; (all.end, all.torn, all.lines.len()), (End::End, None, 5));
    for (line, wanted) in all.lines.iter().zip(&expected) {
        assert_eq!(rt; told(line), *wanted);
        assert_eq!(rt; (line.captured, line.original), (4, 4));
    }
    Ok(())
}

/// The same segment from an interface of raw IP, and from one of Ethernet.
fn two_links(alloc: Global) -> Result<Vec<u8>, AllocError> {
    let mut out = section(alloc, &[&RAW_IP, &MICROSECONDS])?;
    block(&mut out, 0, 1, &SEGMENT)?;
    block(&mut out, 1, 2, &SEGMENT)?;
    Ok(out)
}

#[test]
fn a_packet_of_another_link_type_is_skipped(rt: HostRuntime) -> Result<(), Fail> {
    let all = story(rt.alloc(), two_links(rt.alloc())?)?;
    assert_eq!(rt; (all.end, all.lines.len()), (End::End, 2));
    for (line, wanted) in all.lines.iter().zip(&[(0, false), (1, true)]) {
        assert_eq!(rt; (line.seq, line.handled), *wanted);
        assert_eq!(rt; (line.captured, line.original), (56, 56));
    }
    Ok(())
}

/// How a capture of two packets ends that is cut to so many bytes: the header has 28, the interface 32,
/// each packet 36.
fn cut_end(alloc: Global, length: usize) -> Result<(End, Option<(u32, u64)>, usize), AllocError> {
    let mut bytes = in_pcapng(alloc, &[5, 7])?;
    bytes.truncate(length);
    let all = story(alloc, bytes)?;
    Ok((all.end, all.torn, all.lines.len()))
}

#[test]
fn a_cut_capture_gives_its_whole_packets(rt: HostRuntime) -> Result<(), Fail> {
    let unstarted = End::Unstarted(FeedFault::NotCapture { port: 0 });
    for length in 0..133 {
        let wanted = match length {
            0..24 => (unstarted, None, 0),
            24..28 => (End::End, Some((0, 0)), 0),
            28 => (End::End, None, 0),
            29..60 => (End::End, Some((0, 28)), 0),
            60 => (End::End, None, 0),
            61..96 => (End::End, Some((0, 60)), 0),
            96 => (End::End, None, 1),
            97..132 => (End::End, Some((0, 96)), 1),
            _ => (End::End, None, 2),
        };
        assert_eq!(rt; cut_end(rt.alloc(), length)?, wanted, "{length} bytes");
    }
    Ok(())
}

/// How a capture of a packet ends of which one byte is another.
fn changed_end(
    alloc: Global,
    place: usize,
    byte: u8,
) -> Result<(End, Option<(u32, u64)>, usize), AllocError> {
    let mut bytes = in_pcapng(alloc, &[5])?;
    if place < bytes.len() {
        bytes[place] = byte;
    }
    let all = story(alloc, bytes)?;
    Ok((all.end, all.torn, all.lines.len()))
}

/// The first byte, the total length of the header, its byte-order magic, its major version and its
/// closing length; the closing length of the packet, and its interface.
#[test]
fn a_wrong_header_is_no_capture_and_a_wrong_block_is_torn(rt: HostRuntime) -> Result<(), Fail> {
    let unstarted = End::Unstarted(FeedFault::NotCapture { port: 0 });
    let cases = [
        (0, 0x0b, (unstarted, None, 0)),
        (4, 24, (unstarted, None, 0)),
        (8, 0x4e, (unstarted, None, 0)),
        (12, 2, (unstarted, None, 0)),
        (24, 32, (End::End, Some((0, 0)), 0)),
        (92, 40, (End::End, Some((0, 60)), 0)),
        (68, 1, (End::End, Some((0, 60)), 0)),
    ];
    for (place, byte, wanted) in cases {
        let ends = changed_end(rt.alloc(), place, byte)?;
        assert_eq!(rt; ends, wanted, "byte {place}");
    }
    Ok(())
}
