//! Captures that are read as streams.
ghost use Rattle.std.specs.Prelude.{◌≡◌, length};

use super::calls::left;
use super::story::{End, FUNCTIONS, Line, Story, read_all, read_for};
use nf_base::func::Func;
use nf_files::Files;
use packet_feed::FeedFault;
use pcap_file::{push_header, push_record};
use std::alloc::{AllocError, Global};
use std::test::Fail;
use test_samples::files::{holding, next, open_all, start};
use test_samples::functions::function;

/// A capture of frames of one byte, by their times in nanoseconds.
pub fn capture(alloc: Global, times: &[u64]) -> Result<Vec<u8>, AllocError> {
    let mut out = Vec::new(alloc);
    push_header(&mut out)?;
    for time in times {
        if *time <= 4_294_967_295_999_999_999 {
            push_record(&mut out, *time, 60, &[1])?;
        }
    }
    Ok(out)
}

/// Time, port and number of a packet.
fn order(line: &Line) -> (u64, u32, u32) {
    (line.time, line.port, line.seq)
}

/// More bytes than a capture here has.
const ALL: usize = 1_000_000;

/// A capture of frames of one byte, by their times, cut to so many bytes.
fn cut_capture(alloc: Global, times: &[u64], length: usize) -> Result<Vec<u8>, AllocError> {
    let mut bytes = capture(alloc, times)?;
    bytes.truncate(length);
    Ok(bytes)
}

/// What such captures give, of which each is cut to so many bytes; the calls on files that are listed fail.
fn cut_story(
    alloc: Global,
    all: &[(&[u64], usize)],
    fails: &[u64],
    most: u32,
) -> Result<Story, AllocError> {
    let mut captures = Vec::new(alloc);
    for (times, length) in all {
        captures.push(cut_capture(alloc, times, *length)?)?;
    }
    read_all(alloc, captures.as_slice(), fails, most)
}

/// How it ends, where the captures are torn, and how many packets there are.
fn ends(
    alloc: Global,
    all: &[(&[u64], usize)],
    fails: &[u64],
    most: u32,
) -> Result<(End, Option<(u32, u64)>, usize), AllocError> {
    let told = cut_story(alloc, all, fails, most)?;
    Ok((told.end, told.torn, told.lines.len()))
}

/// Captures in which packets come at one time, and times fall.
const TIES: [(&[u64], usize); 4] = [
    (&[7, 3, 9], ALL),
    (&[7, 8], ALL),
    (&[], ALL),
    (&[0, 9], ALL),
];

/// Their packets, in the order in which they come.
const IN_ORDER: [(u64, u32, u32); 7] = [
    (0, 3, 0),
    (7, 0, 0),
    (7, 0, 1),
    (7, 1, 0),
    (8, 1, 1),
    (9, 0, 2),
    (9, 3, 1),
];

/// Two captures, the first packets of both, and what comes when five are asked for.
const TWO: [(&[u64], usize); 2] = [(&[5, 9, 2], ALL), (&[9, 4, 12], ALL)];

const FIRST_FIVE: [(u64, u32, u32); 5] = [(5, 0, 0), (9, 0, 1), (9, 0, 2), (9, 1, 0), (9, 1, 1)];

#[test]
fn as_many_are_given_as_are_asked_for(rt: HostRuntime) -> Result<(), Fail> {
    let told = cut_story(rt.alloc(), &TWO, &[], 5)?;
    assert_eq!(rt; (told.end, told.lines.len()), (End::TooMany, 5));
    for (line, wanted) in told.lines.iter().zip(&FIRST_FIVE) {
        assert_eq!(rt; order(line), *wanted);
    }
    Ok(())
}

#[test]
fn ties_go_by_port_and_times_never_fall(rt: HostRuntime) -> Result<(), Fail> {
    let told = cut_story(rt.alloc(), &TIES, &[], 7)?;
    assert_eq!(rt; (told.end, told.torn), (End::End, None));
    assert_eq!(rt; told.lines.len(), 7);
    for (line, wanted) in told.lines.iter().zip(&IN_ORDER) {
        assert_eq!(rt; order(line), *wanted);
    }
    for most in 0..7 {
        let (end, _torn, count) = ends(rt.alloc(), &TIES, &[], most)?;
        assert_eq!(rt; (count, end), (most as usize, End::TooMany), "{most}");
    }
    Ok(())
}

/// The first bytes of the four forms, and the bytes of a record in each: seconds 1, fraction 2, 3 captured bytes, 60
/// on the wire.
const FORMS: [[u8; 43]; 4] = [
    [
        0xa1, 0xb2, 0xc3, 0xd4, 0, 2, 0, 4, 0, 0, 0, 0, 0, 0, 0, 0, 0, 0, 0, 96, 0, 0, 0, 1, 0, 0,
        0, 1, 0, 0, 0, 2, 0, 0, 0, 3, 0, 0, 0, 60, 7, 8, 9,
    ],
    [
        0xa1, 0xb2, 0x3c, 0x4d, 0, 2, 0, 4, 0, 0, 0, 0, 0, 0, 0, 0, 0, 0, 0, 96, 0, 0, 0, 1, 0, 0,
        0, 1, 0, 0, 0, 2, 0, 0, 0, 3, 0, 0, 0, 60, 8, 8, 9,
    ],
    [
        0xd4, 0xc3, 0xb2, 0xa1, 2, 0, 4, 0, 0, 0, 0, 0, 0, 0, 0, 0, 96, 0, 0, 0, 1, 0, 0, 0, 1, 0,
        0, 0, 2, 0, 0, 0, 3, 0, 0, 0, 60, 0, 0, 0, 9, 8, 9,
    ],
    [
        0x4d, 0x3c, 0xb2, 0xa1, 2, 0, 4, 0, 0, 0, 0, 0, 0, 0, 0, 0, 96, 0, 0, 0, 1, 0, 0, 0, 1, 0,
        0, 0, 2, 0, 0, 0, 3, 0, 0, 0, 60, 0, 0, 0, 10, 8, 9,
    ],
];

/// What captures of these bytes give.
fn story(alloc: Global, all: &[&[u8]]) -> Result<Story, AllocError> {
    let mut captures = Vec::new(alloc);
    for bytes in all {
        captures.push(Vec::from_slice(alloc, bytes)?)?;
    }
    read_all(alloc, captures.as_slice(), &[], 9)
}

#[test]
fn all_four_forms_are_read(rt: HostRuntime) -> Result<(), Fail> {
    let [a, b, c, d] = &FORMS;
    let told = story(rt.alloc(), &[a, b, c, d])?;
    // Nanoseconds come before microseconds of the same fraction.
    let expected = [
        (1_000_000_002, 1, 8),
        (1_000_000_002, 3, 10),
        (1_000_002_000, 0, 7),
        (1_000_002_000, 2, 9),
    ];
    assert_eq!(rt; (told.end, told.lines.len()), (End::End, 4));
    for (line, wanted) in told.lines.iter().zip(&expected) {
        assert_eq!(rt; (line.time, line.port, line.byte), *wanted);
        assert_eq!(rt;
            (line.seq, line.captured, line.original, line.handled),
            (0, 3, 60, false)
        );
    }
    Ok(())
}

#[test]
fn torn_captures_give_their_whole_records(rt: HostRuntime) -> Result<(), Fail> {
    for cut in 24..61 {
        let (count, torn) = match cut {
            24 => (2, None),
            25..41 => (2, Some((1, 24))),
            41 => (3, None),
            42..58 => (3, Some((1, 41))),
            _ => (4, None),
        };
        let all: [(&[u64], usize); 3] = [(&[7], ALL), (&[6, 9], cut), (&[5], ALL)];
        let ends = ends(rt.alloc(), &all, &[], 9)?;
        assert_eq!(rt; ends, (End::End, torn, count), "{cut} bytes");
    }
    Ok(())
}

/// A record here has 17 bytes: the last one of ports 0 and 2 lacks a byte.
#[test]
fn the_least_torn_port_is_named(rt: HostRuntime) -> Result<(), Fail> {
    let all: [(&[u64], usize); 3] = [(&[7], 40), (&[], ALL), (&[5, 9], 57)];
    let ends = ends(rt.alloc(), &all, &[], 1)?;
    assert_eq!(rt; ends, (End::End, Some((0, 24)), 1));
    Ok(())
}

#[test]
fn the_least_port_without_a_header_is_named(rt: HostRuntime) -> Result<(), Fail> {
    for bad in 0..3 {
        let all: [(&[u64], usize); 3] = [
            (&[7], if bad == 0 { 23 } else { ALL }),
            (&[8], if bad == 1 { 23 } else { ALL }),
            (&[], 9),
        ];
        let (end, _torn, count) = ends(rt.alloc(), &all, &[], 9)?;
        let fault = FeedFault::NotCapture { port: bad };
        assert_eq!(rt; (end, count), (End::Unstarted(fault), 0), "port {bad}");
    }
    Ok(())
}

fn fault(port: u32) -> End {
    End::Fault(FeedFault::File { port })
}

/// The calls are counted from 0: two openings, a read for each header, and of each record one for its numbers and one
/// for its frame, where it is wanted; at the end of a capture one that gives nothing.
#[test]
fn each_call_that_fails_names_its_port(rt: HostRuntime) -> Result<(), Fail> {
    let all: [(&[u64], usize); 2] = [(&[5, 9], ALL), (&[7], ALL)];
    let cases = [
        (0, End::Unopened, 0),
        (1, End::Unopened, 0),
        (2, End::Unstarted(FeedFault::File { port: 0 }), 0),
        (3, End::Unstarted(FeedFault::File { port: 1 }), 0),
        (4, fault(0), 0),
        (5, fault(0), 0),
        (6, fault(1), 0),
        (7, fault(1), 0),
        (8, fault(0), 1),
        (9, fault(0), 1),
        (10, fault(1), 2),
        (11, fault(0), 3),
        (12, End::End, 3),
    ];
    for (call, end, given) in cases {
        let (found, _torn, count) = ends(rt.alloc(), &all, &[call], 9)?;
        assert_eq!(rt; (found, count), (end, given), "call {call}");
    }
    Ok(())
}

/// A TCP segment's first bytes, with an IP header of 20 bytes.
const SEGMENT: [u8; 54] = [
    0, 0, 0, 0, 0, 2, 0, 0, 0, 0, 0, 1, 0x08, 0x00, 0x45, 0, 0, 40, 0, 0, 0, 0, 64, 6, 0, 0, 10, 0,
    0, 1, 192, 168, 0, 2, 0x30, 0x39, 0x01, 0xbb, 0, 0, 0, 0, 0, 0, 0, 0, 0x50, 0x02, 0, 0, 0, 0,
    0, 0,
];

/// What a capture gives of a segment that is cut, and of a whole one.
fn segments(alloc: Global) -> Result<Story, AllocError> {
    let mut out = Vec::new(alloc);
    push_header(&mut out)?;
    push_record(&mut out, 1, 54, &SEGMENT[..53])?;
    push_record(&mut out, 2, 1500, &SEGMENT)?;
    read_all(alloc, &[out], &[], 9)
}

#[test]
fn a_skipped_frame_is_a_packet_with_a_number(rt: HostRuntime) -> Result<(), Fail> {
    let told = segments(rt.alloc())?;
    let expected = [(0, 53, 54, false), (1, 54, 1500, true)];
    assert_eq!(rt; told.lines.len(), 2);
    for (line, wanted) in told.lines.iter().zip(&expected) {
        assert_eq!(rt;
            (line.seq, line.captured, line.original, line.handled),
            *wanted
        );
    }
    Ok(())
}

/// A UDP segment's first bytes from ::1 to ::2, port 1 to port 2, with an IPv6 header.
const SEGMENT_6: [u8; 62] = [
    0x02, 0x00, 0x00, 0x00, 0x00, 0x02, 0x02, 0x00, 0x00, 0x00, 0x00, 0x01, 0x86, 0xdd, 0x60, 0x00,
    0x00, 0x00, 0x00, 0x08, 0x11, 0x40, 0, 0, 0, 0, 0, 0, 0, 0, 0, 0, 0, 0, 0, 0, 0, 1, 0, 0, 0, 0,
    0, 0, 0, 0, 0, 0, 0, 0, 0, 0, 0, 2, 0x00, 0x01, 0x00, 0x02, 0x00, 0x08, 0x00, 0x00,
];

/// A capture of a segment of IPv6, one of IPv4, and the first again, cut.
fn both_families(alloc: Global, time: u64) -> Result<Vec<u8>, AllocError> {
    let mut out = Vec::new(alloc);
    push_header(&mut out)?;
    let time = time.min(1_000);
    push_record(&mut out, time, 62, &SEGMENT_6)?;
    push_record(&mut out, time, 54, &SEGMENT)?;
    push_record(&mut out, time, 62, &SEGMENT_6[..61])?;
    Ok(out)
}

/// Functions of two ports, and which of the packets of two such captures they handle.
const FAMILIES: [(&str, [bool; 6]); 4] = [
    (
        "nf a { ports 2; on 0 { } on 1 { } }",
        [false, true, false, false, true, false],
    ),
    (
        "nf b { ports 2; on 0 { } on 0 six { } on 1 { } }",
        [true, true, false, false, true, false],
    ),
    (
        "nf c { ports 2; on 0 { } on 1 { } on 1 six { } }",
        [false, true, false, true, true, false],
    ),
    (
        "nf d { ports 2; on 0 { } on 0 six { } on 1 { } on 1 six { } }",
        [true, true, false, true, true, false],
    ),
];

#[test]
fn an_ipv6_frame_is_skipped_where_its_port_has_no_handler_for_it(
    rt: HostRuntime,
) -> Result<(), Fail> {
    let alloc = rt.alloc();
    for (text, handled) in &FAMILIES {
        let captures = [both_families(alloc, 1)?, both_families(alloc, 2)?];
        let told = read_for(alloc, text, &captures, &[], 9)?;
        assert_eq!(rt; (told.end, told.lines.len()), (End::End, 6), "{text}");
        for (line, wanted) in told.lines.iter().zip(handled) {
            let place = (line.port, line.seq);
            assert_eq!(rt; line.handled, *wanted, "{text} {place:?}");
        }
    }
    Ok(())
}

/// How many bytes are left of two files after so many packets.
fn left_after<F: Files>(
    alloc: Global,
    files: &mut F,
    func: &Func,
    packets: u32,
) -> Result<(usize, usize), Fail>
    requires { length func.now.handlers ≡ 2 }
{
    let opened = open_all(alloc, files, &["0", "1"])?;
    let mut feed = start(alloc, files, func, opened.as_slice(), 9)?;
    for _ in 0..packets {
        next(&mut feed, files)?;
    }
    let first = left(files, opened.as_slice(), 0);
    let second = left(files, opened.as_slice(), 1);
    Ok((first, second))
}

/// The same of two captures in memory.
fn left_of(alloc: Global, packets: u32) -> Result<(usize, usize), Fail> {
    let captures = [capture(alloc, &[1, 2, 9])?, capture(alloc, &[3, 10])?];
    let mut files = holding(alloc, &["0", "1"], &captures, &[])?;
    match function(alloc, FUNCTIONS[1].as_bytes()) {
        Some(func) if func.handlers.len() == 2 => left_after(alloc, &mut files, &func, packets),
        _ => Ok((usize::MAX, usize::MAX)),
    }
}

/// A record here has 17 bytes.
#[test]
fn at_most_one_record_more_is_taken(rt: HostRuntime) -> Result<(), Fail> {
    let cases = [
        (0, (51, 34)),
        (1, (34, 17)),
        (2, (17, 17)),
        (3, (0, 17)),
        (4, (0, 0)),
        (5, (0, 0)),
    ];
    for (packets, wanted) in cases {
        let left = left_of(rt.alloc(), packets)?;
        assert_eq!(rt; left, wanted, "{packets} packets");
    }
    Ok(())
}
