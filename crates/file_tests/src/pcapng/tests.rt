//! Pcapng captures in files.
use super::calls::{header, left, next, open};
use super::story::{End, Story, read_all};
use nf_files::{Files, MemoryFiles};
use pcap_file::CapFault;
use pcapng_file::{push_block, push_ng_header};
use std::alloc::{AllocError, Global};
use std::test::Fail;

/// A section in big-endian whose interface counts half seconds, and a packet of it at 3 halves: a frame of 3 bytes.
const HALVES: [u8; 96] = [
    0x0a, 0x0d, 0x0d, 0x0a, 0, 0, 0, 0x1c, 0x1a, 0x2b, 0x3c, 0x4d, 0, 1, 0, 0, 0xff, 0xff, 0xff,
    0xff, 0xff, 0xff, 0xff, 0xff, 0, 0, 0, 0x1c, 0, 0, 0, 1, 0, 0, 0, 0x20, 0, 1, 0, 0, 0, 0, 0, 2,
    0, 9, 0, 1, 0x81, 0, 0, 0, 0, 0, 0, 0, 0, 0, 0, 0x20, 0, 0, 0, 6, 0, 0, 0, 0x24, 0, 0, 0, 0, 0,
    0, 0, 0, 0, 0, 0, 3, 0, 0, 0, 3, 0, 0, 0, 3, 1, 2, 3, 0, 0, 0, 0, 0x24,
];

/// Behind that a type 3 block of a frame of 3 bytes, of which the interface captures 2.
const SIMPLE: [u8; 20] = [
    0, 0, 0, 3, 0, 0, 0, 0x14, 0, 0, 0, 3, 1, 2, 0, 0, 0, 0, 0, 0x14,
];

/// Appends a block in little-endian: its body, and so many zeros more.
fn push_any(out: &mut Vec<u8>, kind: u32, body: &[u8], zeros: usize) -> Result<(), AllocError> {
    let total = (body.len().saturating_add(zeros).saturating_add(12) % 4_294_967_296) as u32;
    out.extend_from_slice(&kind.to_le_bytes())?;
    out.extend_from_slice(&total.to_le_bytes())?;
    out.extend_from_slice(body)?;
    out.resize(out.len().saturating_add(zeros), 0)?;
    out.extend_from_slice(&total.to_le_bytes())
}

/// A written header, a block, and a written packet at time 5.
fn around(alloc: Global, kind: u32, body: &[u8], zeros: usize) -> Result<Vec<u8>, AllocError> {
    let mut out = Vec::new(alloc);
    push_ng_header(&mut out)?;
    push_any(&mut out, kind, body, zeros)?;
    push_block(&mut out, 5, 3, &[1, 2, 3])?;
    Ok(out)
}

/// How many packets are given, how many of these of another link type, the first one's time, and the end.
fn told(story: &Story) -> (usize, usize, Option<u64>, End) {
    (
        story.heads.len(),
        story.others,
        story.heads.first().map(|head| head.time),
        story.end,
    )
}

/// The same of a capture.
fn given(alloc: Global, bytes: &[u8]) -> Result<(usize, usize, Option<u64>, End), AllocError> {
    let story = read_all(alloc, bytes, &[])?;
    Ok(told(&story))
}

/// A capture of three frames, of which the last is cut.
fn cut_capture(alloc: Global) -> Result<Vec<u8>, AllocError> {
    let mut out = Vec::new(alloc);
    push_ng_header(&mut out)?;
    push_block(&mut out, 5, 60, &[1, 2, 3])?;
    push_block(&mut out, 1_000_000_000, 1500, &[])?;
    push_block(&mut out, 4_294_967_295_999_999_999, 64, &[4, 5])?;
    out.pop();
    Ok(out)
}

/// The first two packets that a capture gives, each with its time and its captured and original bytes, how many
/// there are, and the end.
fn first_two(alloc: Global, bytes: &[u8]) -> Result<([Shown; 2], usize, End), AllocError> {
    let story = read_all(alloc, bytes, &[])?;
    let shown = [shown(&story, 0), shown(&story, 1)];
    Ok((shown, story.heads.len(), story.end))
}

type Shown = Option<(u64, u32, u32)>;

fn shown(story: &Story, number: usize) -> Shown {
    story
        .heads
        .get(number)
        .map(|head| (head.time, head.captured, head.original))
}

/// A written header has 60 bytes, and the blocks of the whole frames 36 and 32.
#[test]
fn packets_are_given_up_to_a_tear(rt: HostRuntime) -> Result<(), Fail> {
    let bytes = cut_capture(rt.alloc())?;
    let (shown, count, end) = first_two(rt.alloc(), bytes.as_slice())?;
    assert_eq!(rt;
        shown.as_slice(),
        [Some((5, 3, 60)), Some((1_000_000_000, 0, 1500))].as_slice()
    );
    assert_eq!(rt; (count, end), (2, End::Torn(128)));
    Ok(())
}

/// The same, and whether the frames are these, one after the other.
fn given_with(
    alloc: Global,
    bytes: &[u8],
    frames: &[u8],
) -> Result<((usize, usize, Option<u64>, End), bool), AllocError> {
    let story = read_all(alloc, bytes, &[])?;
    Ok((told(&story), story.frames.as_slice() == frames))
}

/// Both captures, one behind the other.
fn joined(alloc: Global, front: &[u8], back: &[u8]) -> Result<Vec<u8>, AllocError> {
    let mut out = Vec::from_slice(alloc, front)?;
    out.extend_from_slice(back)?;
    Ok(out)
}

/// Blocks of 28, 32 and 36 bytes.
#[test]
fn a_cut_block_is_named_by_its_first_byte(rt: HostRuntime) -> Result<(), Fail> {
    for cut in 0..97 {
        let wanted = match cut {
            0..24 => (0, 0, None, End::Unread(CapFault::NotCapture)),
            24..28 => (0, 0, None, End::Torn(0)),
            28 => (0, 0, None, End::End),
            29..60 => (0, 0, None, End::Torn(28)),
            60 => (0, 0, None, End::End),
            61..96 => (0, 0, None, End::Torn(60)),
            _ => (1, 0, Some(1_500_000_000), End::End),
        };
        let told = given(rt.alloc(), HALVES.get(..cut).unwrap_or(&HALVES))?;
        assert_eq!(rt; told, wanted, "{cut} bytes");
    }
    Ok(())
}

/// The capture of half seconds with a byte changed.
fn changed(alloc: Global, at: usize, byte: u8) -> Result<Vec<u8>, AllocError> {
    let mut out = Vec::new(alloc);
    for (i, old) in HALVES.iter().enumerate() {
        out.push(if i == at { byte } else { *old })?;
    }
    Ok(out)
}

#[test]
fn each_byte_says_what_the_draft_says(rt: HostRuntime) -> Result<(), Fail> {
    let none = (0, 0, None, End::Unread(CapFault::NotCapture));
    let at = |time: u64| (1, 0, Some(time), End::End);
    let torn = |offset: u64| (0, 0, None, End::Torn(offset));
    let cases = [
        (11, 0x4e, none, "another magic number"),
        (7, 0x18, none, "a header of 24 bytes"),
        (13, 2, none, "major version 2"),
        (15, 9, at(1_500_000_000), "another minor version"),
        (27, 0x20, torn(0), "another closing length of the header"),
        (
            37,
            2,
            (1, 1, Some(1_500_000_000), End::End),
            "another link type",
        ),
        (45, 14, at(3000), "no option 9: microseconds"),
        (47, 2, at(3000), "an option 9 of 2 bytes"),
        (48, 9, at(3), "nanoseconds"),
        (48, 0, at(3_000_000_000), "seconds"),
        (48, 0x7f, at(0), "10^-127 seconds"),
        (48, 0xff, at(0), "2^-127 seconds"),
        (
            59,
            0x24,
            torn(28),
            "another closing length of the interface",
        ),
        (71, 1, torn(60), "an interface that is not described"),
        (72, 0xff, at(4_294_967_295_999_999_999), "a late time"),
        (83, 5, torn(60), "more captured bytes than there are"),
        (95, 0x20, torn(60), "another closing length"),
        (
            67,
            0x26,
            torn(60),
            "a total length that is no multiple of 4",
        ),
        (63, 2, (0, 0, None, End::End), "the old type 2"),
    ];
    for (place, byte, wanted, what) in cases {
        let bytes = changed(rt.alloc(), place, byte)?;
        assert_eq!(rt; given(rt.alloc(), bytes.as_slice())?, wanted, "{what}");
    }
    Ok(())
}

#[test]
fn sections_follow_one_another(rt: HostRuntime) -> Result<(), Fail> {
    let alloc = rt.alloc();
    let mut capture = Vec::new(alloc);
    push_ng_header(&mut capture)?;
    push_block(&mut capture, 5, 3, &[1, 2, 3])?;
    let both = joined(alloc, capture.as_slice(), &HALVES)?;
    assert_eq!(rt; given(alloc, both.as_slice())?, (2, 0, Some(5), End::End));
    let header = HALVES.get(..28).unwrap_or(&HALVES);
    let packet = HALVES.get(60..).unwrap_or(&HALVES);
    let anew = joined(alloc, &HALVES, header)?;
    let anew = joined(alloc, anew.as_slice(), packet)?;
    assert_eq!(rt;
        given(alloc, anew.as_slice())?,
        (1, 0, Some(1_500_000_000), End::Torn(124))
    );
    Ok(())
}

#[test]
fn a_simple_packet_has_no_time_and_the_interface_bounds_it(rt: HostRuntime) -> Result<(), Fail> {
    let bytes = joined(rt.alloc(), HALVES.get(..60).unwrap_or(&HALVES), &SIMPLE)?;
    let given = given_with(rt.alloc(), bytes.as_slice(), &[1, 2])?;
    assert_eq!(rt; given, ((1, 0, Some(0), End::End), true));
    Ok(())
}

#[test]
fn long_blocks_are_stepped_over(rt: HostRuntime) -> Result<(), Fail> {
    let alloc = rt.alloc();
    for zeros in [0, 262_160, 266_240, 1_000_000] {
        let bytes = around(alloc, 0x0bad, &[1, 2, 3, 4], zeros)?;
        assert_eq!(rt;
            given(alloc, bytes.as_slice())?,
            (1, 0, Some(5), End::End),
            "{zeros}"
        );
    }
    let numbers = [
        0, 0, 0, 0, 0, 0, 0, 0, 9, 0, 0, 0, 2, 0, 0, 0, 7, 0, 0, 0, 8, 8, 0, 0,
    ];
    for options in [0, 4, 300_000] {
        let bytes = around(alloc, 6, &numbers, options)?;
        let given = given_with(alloc, bytes.as_slice(), &[8, 8, 1, 2, 3])?;
        assert_eq!(rt; given, ((2, 0, Some(9), End::End), true), "{options}");
    }
    Ok(())
}

/// A packet of so many captured bytes, all of them zeros, and one more packet.
fn long_packet(alloc: Global, captured: u32) -> Result<Vec<u8>, AllocError> {
    let mut body = Vec::new(alloc);
    for number in [0, 0, 9, captured, captured] {
        body.extend_from_slice(&number.to_le_bytes())?;
    }
    let zeros = captured.saturating_add(3) / 4 * 4;
    around(alloc, 6, body.as_slice(), zeros as usize)
}

#[test]
fn limits_are_kept(rt: HostRuntime) -> Result<(), Fail> {
    let alloc = rt.alloc();
    let most = long_packet(alloc, 262_144)?;
    assert_eq!(rt; given(alloc, most.as_slice())?, (2, 0, Some(9), End::End));
    let more = long_packet(alloc, 262_145)?;
    assert_eq!(rt; given(alloc, more.as_slice())?, (0, 0, None, End::Torn(60)));
    let ethernet = [1, 0, 0, 0, 0, 0, 0, 0];
    let long = around(alloc, 1, &ethernet, 65_516)?;
    assert_eq!(rt; given(alloc, long.as_slice())?, (1, 0, Some(5), End::End));
    let longer = around(alloc, 1, &ethernet, 65_520)?;
    assert_eq!(rt;
        given(alloc, longer.as_slice())?,
        (0, 0, None, End::Torn(60))
    );
    Ok(())
}

/// So many interfaces of 20 bytes behind the one of a written header, and a packet.
fn interfaces(alloc: Global, count: usize) -> Result<Vec<u8>, AllocError> {
    let mut out = Vec::new(alloc);
    push_ng_header(&mut out)?;
    for _ in 0..count {
        push_any(&mut out, 1, &[1, 0, 0, 0, 0, 0, 0, 0], 0)?;
    }
    push_block(&mut out, 5, 3, &[1, 2, 3])?;
    Ok(out)
}

#[test]
fn a_section_has_256_interfaces(rt: HostRuntime) -> Result<(), Fail> {
    let all = interfaces(rt.alloc(), 255)?;
    assert_eq!(rt;
        given(rt.alloc(), all.as_slice())?,
        (1, 0, Some(5), End::End)
    );
    let more = interfaces(rt.alloc(), 256)?;
    assert_eq!(rt;
        given(rt.alloc(), more.as_slice())?,
        (0, 0, None, End::Torn(5160))
    );
    Ok(())
}

/// The same of the capture of half seconds, of whose calls on files one fails.
fn given_without(alloc: Global, call: u64) -> Result<(usize, usize, Option<u64>, End), AllocError> {
    let story = read_all(alloc, &HALVES, &[call])?;
    Ok(told(&story))
}

#[test]
fn each_call_that_fails_is_told(rt: HostRuntime) -> Result<(), Fail> {
    let fault = End::Fault(CapFault::File);
    let mut last = 0;
    for call in 0..40 {
        let given = given_without(rt.alloc(), call)?;
        let wanted = match call {
            0 => (0, 0, None, End::Unopened),
            1 => (0, 0, None, End::Unread(CapFault::File)),
            _ if given.3 == fault => given,
            _ => (1, 0, Some(1_500_000_000), End::End),
        };
        assert_eq!(rt; given, wanted, "call {call}");
        if given.3 == fault {
            last = call;
        }
    }
    assert!(rt; last > 5);
    Ok(())
}

/// A written capture of a long frame and a short one.
fn long_and_short(alloc: Global) -> Result<Vec<u8>, AllocError> {
    let mut bytes = Vec::new(alloc);
    push_ng_header(&mut bytes)?;
    push_block(&mut bytes, 4_294_967_298, 200_001, &[7; 200_000])?;
    push_block(&mut bytes, 4_294_967_295_999_999_999, 4_294_967_295, &[1])?;
    Ok(bytes)
}

#[test]
fn a_written_capture_is_read_again(rt: HostRuntime) -> Result<(), Fail> {
    let bytes = long_and_short(rt.alloc())?;
    let (shown, count, end) = first_two(rt.alloc(), bytes.as_slice())?;
    assert_eq!(rt; (count, end), (2, End::End));
    assert_eq!(rt;
        shown.as_slice(),
        [
            Some((4_294_967_298, 200_000, 200_001)),
            Some((4_294_967_295_999_999_999, 1, 4_294_967_295)),
        ]
        .as_slice()
    );
    Ok(())
}

/// Its frames, one after the other.
#[test]
fn written_frames_are_read_again(rt: HostRuntime) -> Result<(), Fail> {
    let bytes = long_and_short(rt.alloc())?;
    let mut frames = Vec::from_slice(rt.alloc(), &[7; 200_000])?;
    frames.push(1)?;
    let given = given_with(rt.alloc(), bytes.as_slice(), frames.as_slice())?;
    assert_eq!(rt; given, ((2, 0, Some(4_294_967_298), End::End), true));
    Ok(())
}

/// How many bytes are left of a file behind the first packet.
fn behind<F: Files>(alloc: Global, files: &mut F) -> Option<usize> {
    let file = open(files, "capture").ok()?;
    let mut reader = header(alloc, files, file).ok()?;
    let mut frame = Vec::new(alloc);
    next(&mut reader, files, &mut frame).ok()?;
    Some(left(files, file))
}

#[test]
fn no_byte_behind_a_packet_is_taken(rt: HostRuntime) -> Result<(), Fail> {
    let mut files = MemoryFiles::new(rt.alloc(), Vec::new(rt.alloc()));
    let bytes = joined(rt.alloc(), &HALVES, &SIMPLE)?;
    files.put("capture", bytes.as_slice())?;
    assert_eq!(rt; behind(rt.alloc(), &mut files), Some(20));
    Ok(())
}
