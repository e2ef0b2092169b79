//! One record of a capture.
//!
//! | offset | bytes | meaning |
//! |---|---|---|
//! | 0 | 4 | seconds |
//! | 4 | 4 | fraction, in microseconds or nanoseconds |
//! | 8 | 4 | captured length, in bytes |
//! | 12 | 4 | original length, in bytes |
//! | 16 | captured length | the frame |
//!
//! All numbers stand in the capture's byte order (libpcap file format 2.4, "Packet Record").
ghost use Rattle.std.specs.Prelude.{◌≡◌, ◌+◌, ◌≤◌, length, if◌then◌else◌, Some, None};
ghost use Rattle.pcap_file.specs.Record.{nanoseconds, time_of, head_of};
ghost use Rattle.pcap_file.specs.Capture.{captured_in, is_sized, is_whole, record_in};

use crate::form::{Endian, TimeUnit};
use crate::head::Head;
use crate::number::number;
use std::marker::Model;

/// The length of a record's header, in bytes.
pub(crate) const RECORD_HEADER: usize = 16;

/// The most bytes of a frame that a record holds.
const MOST_CAPTURED: u32 = 262_144;

/// The last nanosecond of the last second that a record can hold.
const GREATEST_TIME: u64 = 4_294_967_295_999_999_999;

/// A record, whose frame is borrowed from the capture's bytes.
#[derive(Drop)]
pub(crate) struct Record<'a> {
    pub(crate) seconds: u32,
    pub(crate) fraction: u32,
    pub(crate) original: u32,
    pub(crate) frame: &'a [u8],
}

impl<'a> Model for Record<'a> {
    ghost use Rattle.std.specs.Prelude.{length, ◌≤◌};
    ghost use Rattle.pcap_file.specs.Record as spelled;

    ghost Value = { spelled.Record };

    ghost view = { λ r. record { seconds = r.seconds; fraction = r.fraction; original = r.original; frame = r.frame.now } };

    ghost invariant = { λ r. length r.frame.now ≤ 262144 };
}

impl<'a> Record<'a> {
    // In nanoseconds, at most the last one of the last second that a record can hold.
    fn time(&self, unit: TimeUnit) -> u64
        ensures { result ≡ time_of unit self.now }
    {
        let fraction = match unit {
            TimeUnit::Microseconds => u64::from(self.fraction) * 1000,
            TimeUnit::Nanoseconds => u64::from(self.fraction),
        };
        let time = u64::from(self.seconds) * 1_000_000_000 + fraction;
        time.min(GREATEST_TIME)
    }

    /// How many bytes it takes in its capture.
    pub(crate) fn size(&self) -> usize
        ensures { result ≡ 16 + length self.now.frame }
    {
        RECORD_HEADER + self.frame.len()
    }

    pub(crate) fn head(&self, unit: TimeUnit) -> Head
        ensures { result ≡ head_of unit self.now }
    {
        Head {
            time: self.time(unit),
            captured: self.frame.len() as u32,
            original: self.original,
        }
    }
}

/// The size of the record whose header stands in front, in bytes: 16 and the captured length.
///
/// None where it is torn whatever follows: more than 262,144 bytes are captured, or it would end past
/// byte 2^64 - 1.
pub(crate) fn size(order: Endian, offset: u64, bytes: &[u8]) -> Option<usize>
    requires { 16 ≤ length bytes.now }
    ensures { result ≡ (if is_sized order offset bytes.now then Some (16 + captured_in order bytes.now) else None) }
{
    let captured = number(order, &bytes[8..]);
    if captured > MOST_CAPTURED {
        return None;
    }
    let size = RECORD_HEADER + captured as usize;
    match offset.checked_add(size as u64) {
        Some(_) => Some(size),
        None => None,
    }
}

/// The first record of bytes that begin at this offset of a capture; None where it is torn.
pub(crate) fn first(order: Endian, offset: u64, bytes: &[u8]) -> Option<Record<'_>>
    ensures { result ≡ (if is_whole order offset bytes.now then Some (record_in order bytes.now) else None) }
{
    if bytes.len() < RECORD_HEADER {
        return None;
    }
    let size = size(order, offset, bytes)?;
    if bytes.len() < size {
        return None;
    }
    Some(Record {
        seconds: number(order, bytes),
        fraction: number(order, &bytes[4..]),
        original: number(order, &bytes[12..]),
        frame: &bytes[RECORD_HEADER..size],
    })
}
