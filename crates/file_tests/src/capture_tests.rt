//! Captures in files.
use crate::calls::{header, left, next, open};
use crate::story::{End, Story, read_all};
use nf_files::{Files, MemoryFiles};
use pcap_file::{CapFault, Head, push_header, push_record};
use std::alloc::{AllocError, Global};
use std::test::Fail;

/// A header of the form big-endian in microseconds, and a record of a frame of 3 bytes.
const BIG: [u8; 43] = [
    0xa1, 0xb2, 0xc3, 0xd4, 0, 2, 0, 4, 0, 0, 0, 0, 0, 0, 0, 0, 0, 0, 0, 96, 0, 0, 0, 1, 0, 0, 0,
    1, 0, 0, 0, 2, 0, 0, 0, 3, 0, 0, 0, 60, 7, 8, 9,
];

/// The bytes from `at` on are changed.
fn changed(alloc: Global, bytes: &[u8], at: usize, new: &[u8]) -> Result<Vec<u8>, AllocError> {
    let mut out = Vec::new(alloc);
    for (i, byte) in bytes.iter().enumerate() {
        let mut next = *byte;
        if i >= at && i - at < new.len() {
            next = new[i - at];
        }
        out.push(next)?;
    }
    Ok(out)
}

/// How many records a capture gives, and how it ends; the calls on files that are listed fail.
fn ended(alloc: Global, bytes: &[u8], fails: &[u64]) -> Result<(usize, End), AllocError> {
    let story = read_all(alloc, bytes, fails)?;
    Ok((story.heads.len(), story.end))
}

#[test]
fn a_wrong_header_is_no_capture(rt: HostRuntime) -> Result<(), Fail> {
    let wrong = End::Unread(CapFault::NotCapture);
    let cases: [(usize, &[u8], End, &str); 7] = [
        (0, &[0xa1, 0xb2, 0xc3, 0xd5], wrong, "another magic number"),
        (0, &[0xd4, 0xb2, 0xc3, 0xa1], wrong, "another byte order"),
        (20, &[0, 0, 0, 101], wrong, "another link type"),
        (20, &[0, 0, 1, 1], wrong, "a second byte of the link type"),
        (20, &[0x14, 0, 0, 1], End::End, "high bits of the link type"),
        (20, &[0, 1, 0, 1], End::End, "bit 16 of the link type"),
        (4, &[9; 8], End::End, "another version and zone"),
    ];
    for (at, new, end, what) in cases {
        let bytes = changed(rt.alloc(), &BIG, at, new)?;
        let ended = ended(rt.alloc(), bytes.as_slice(), &[])?;
        assert_eq!(rt; ended.1, end, "{what}");
    }
    Ok(())
}

/// A record of that capture takes 19 bytes behind the header's 24.
#[test]
fn a_torn_record_is_named_by_its_offset(rt: HostRuntime) -> Result<(), Fail> {
    for cut in 0..44 {
        let ended = ended(rt.alloc(), BIG.get(..cut).unwrap_or(&BIG), &[])?;
        let wanted = match cut {
            0..24 => (0, End::Unread(CapFault::NotCapture)),
            24 => (0, End::End),
            25..43 => (0, End::Torn(24)),
            _ => (1, End::End),
        };
        assert_eq!(rt; ended, wanted, "{cut} bytes");
    }
    Ok(())
}

/// The calls that fail are counted from 0, in the order of the calls: the opening, and then the reads, of which each
/// wanted piece takes one.
#[test]
fn each_call_that_fails_is_told(rt: HostRuntime) -> Result<(), Fail> {
    let cases = [
        (0, 0, End::Unopened),
        (1, 0, End::Unread(CapFault::File)),
        (2, 0, End::Fault(CapFault::File)),
        (3, 0, End::Fault(CapFault::File)),
        (4, 1, End::Fault(CapFault::File)),
        (5, 1, End::End),
    ];
    for (call, count, end) in cases {
        let ended = ended(rt.alloc(), &BIG, &[call])?;
        assert_eq!(rt; ended, (count, end), "call {call}");
    }
    Ok(())
}

/// A capture of three frames, of which the last is cut.
fn cut_capture(alloc: Global) -> Result<Vec<u8>, AllocError> {
    let mut out = Vec::new(alloc);
    push_header(&mut out)?;
    push_record(&mut out, 5, 60, &[1, 2, 3])?;
    push_record(&mut out, 1_000_000_000, 1500, &[])?;
    push_record(&mut out, 4_294_967_295_999_999_999, 64, &[4, 5])?;
    out.pop();
    Ok(out)
}

/// What is shown of a record: its time, and its captured and original bytes.
type Shown = Option<(u64, u32, u32)>;

fn shown(story: &Story, number: usize) -> Shown {
    story
        .heads
        .get(number)
        .map(|head| (head.time, head.captured, head.original))
}

/// The first two records that a capture gives, how many there are, and the end.
fn first_two(alloc: Global, bytes: &[u8]) -> Result<([Shown; 2], usize, End), AllocError> {
    let story = read_all(alloc, bytes, &[])?;
    let shown = [shown(&story, 0), shown(&story, 1)];
    Ok((shown, story.heads.len(), story.end))
}

/// The records of the whole frames have 19 and 16 bytes, behind the header's 24.
#[test]
fn records_are_given_up_to_a_tear(rt: HostRuntime) -> Result<(), Fail> {
    let bytes = cut_capture(rt.alloc())?;
    let (shown, count, end) = first_two(rt.alloc(), bytes.as_slice())?;
    assert_eq!(rt;
        shown.as_slice(),
        [Some((5, 3, 60)), Some((1_000_000_000, 0, 1500))].as_slice()
    );
    assert_eq!(rt; (count, end), (2, End::Torn(59)));
    Ok(())
}

/// The header and the first 16 bytes of a record, and so many zeros.
fn record(alloc: Global, numbers: [u8; 16], zeros: usize) -> Result<Vec<u8>, AllocError> {
    let mut bytes = Vec::new(alloc);
    push_header(&mut bytes)?;
    bytes.extend_from_slice(&numbers)?;
    bytes.resize(bytes.len().saturating_add(zeros), 0)?;
    Ok(bytes)
}

/// The first record's time, and how a capture ends.
fn first_time(alloc: Global, bytes: &[u8]) -> Result<(Option<u64>, End), AllocError> {
    let story = read_all(alloc, bytes, &[])?;
    Ok((story.heads.first().map(|head| head.time), story.end))
}

#[test]
fn times_are_capped_and_262_145_captured_bytes_are_torn(rt: HostRuntime) -> Result<(), Fail> {
    let last = [
        255, 255, 255, 255, 255, 255, 255, 255, 0, 0, 0, 0, 60, 0, 0, 0,
    ];
    let late = [0, 0, 0, 0, 0, 0x94, 0x35, 0x77, 0, 0, 0, 0, 60, 0, 0, 0];
    let most = [0, 0, 0, 0, 0, 0, 0, 0, 0, 0, 4, 0, 60, 0, 0, 0];
    let more = [0, 0, 0, 0, 0, 0, 0, 0, 1, 0, 4, 0, 60, 0, 0, 0];
    let cases = [
        (last, 0, Some(4_294_967_295_999_999_999), End::End),
        (late, 0, Some(2_000_000_000), End::End),
        (most, 262_144, Some(0), End::End),
        (more, 262_145, None, End::Torn(24)),
    ];
    for (numbers, zeros, time, end) in cases {
        let bytes = record(rt.alloc(), numbers, zeros)?;
        let given = first_time(rt.alloc(), bytes.as_slice())?;
        assert_eq!(rt; given, (time, end), "{zeros}");
    }
    Ok(())
}

#[test]
fn a_written_capture_is_read_again(rt: HostRuntime) -> Result<(), Fail> {
    let alloc = rt.alloc();
    let long = [7; 200_000];
    let mut bytes = Vec::new(alloc);
    push_header(&mut bytes)?;
    push_record(&mut bytes, 2_000_000_009, 60_000, &long)?;
    push_record(&mut bytes, 5, 60, &[1, 2])?;
    let story = read_all(alloc, bytes.as_slice(), &[])?;
    let heads = [
        Head {
            time: 2_000_000_009,
            captured: 200_000,
            original: 60_000,
        },
        Head {
            time: 5,
            captured: 2,
            original: 60,
        },
    ];
    assert_eq!(rt;
        (story.heads.as_slice(), story.end),
        (heads.as_slice(), End::End)
    );
    let mut frames = Vec::from_slice(alloc, &long)?;
    frames.extend_from_slice(&[1, 2])?;
    assert!(rt; story.frames.as_slice() == frames.as_slice());
    Ok(())
}

/// How many bytes are left of a capture once its header was read, and once its first record was.
fn left_behind<F: Files>(alloc: Global, files: &mut F, records: u32) -> Result<usize, Fail> {
    let file = open(files, "a")?;
    let mut reader = header(alloc, files, file)?;
    let mut frame = Vec::new(alloc);
    if records > 0 {
        next(&mut reader, files, &mut frame)?;
    }
    Ok(left(files, file))
}

#[test]
fn no_byte_behind_a_record_is_taken(rt: HostRuntime) -> Result<(), Fail> {
    let alloc = rt.alloc();
    let mut bytes = Vec::from_slice(alloc, &BIG)?;
    bytes.extend_from_slice(b"rest")?;
    for (records, left) in [(0, 23), (1, 4)] {
        let mut files = MemoryFiles::new(alloc, Vec::new(alloc));
        files.put("a", bytes.as_slice())?;
        assert_eq!(rt;
            left_behind(alloc, &mut files, records)?,
            left,
            "{records} records"
        );
    }
    Ok(())
}
