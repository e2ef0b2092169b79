//! A capture into bytes, in either format.
ghost use Rattle.std.specs.Prelude.{◌≡◌, ◌+◌, ◌≤◌, ◌++◌, length, take, OnOk, OnErr};
ghost use Rattle.pcap_file.specs.Record.{greatest_time};
ghost use Rattle.capture_format.specs.Written.{head_bytes, head_length, lead_length, packet_bytes, packet_length};

use crate::format::CaptureFormat;
use pcap_file::{push_header, push_record, put_record};
use pcapng_file::{block_length, push_block, push_ng_header, put_block};
use std::alloc::AllocError;

/// Appends what a capture begins with: 24 bytes in pcap, 60 in pcapng.
pub fn push_head(out: &mut Vec<u8>, format: CaptureFormat) -> Result<(), AllocError>
    ensures ok { OnOk result (out.new.items ≡ out.old.items ++ head_bytes format) }
    ensures unchanged { OnErr result (out.new.items ≡ out.old.items) }
{
    match format {
        CaptureFormat::Pcap => push_header(out),
        CaptureFormat::Pcapng => push_ng_header(out),
    }
}

/// How many bytes a capture begins with.
pub fn head_length(format: CaptureFormat) -> usize
    ensures { result ≡ head_length format }
{
    match format {
        CaptureFormat::Pcap => 24,
        CaptureFormat::Pcapng => 60,
    }
}

/// Appends a packet.
///
/// The time is in nanoseconds, and `original` is the frame's length on the wire, in bytes.
pub fn push_packet(
    out: &mut Vec<u8>,
    format: CaptureFormat,
    time: u64,
    original: u32,
    frame: &[u8],
) -> Result<(), AllocError>
    requires time { time ≤ greatest_time }
    requires frame { length frame.now ≤ 262144 }
    ensures ok { OnOk result
        (out.new.items ≡ out.old.items ++ packet_bytes format time original frame.now) }
    ensures unchanged { OnErr result (out.new.items ≡ out.old.items) }
{
    match format {
        CaptureFormat::Pcap => push_record(out, time, original, frame),
        CaptureFormat::Pcapng => push_block(out, time, original, frame),
    }
}

/// How many bytes of a packet stand in front of its frame.
#[inline(always)]
pub fn lead_length(format: CaptureFormat) -> usize
    ensures value { result ≡ lead_length format }
    ensures within { result ≤ 28 }
{
    match format {
        CaptureFormat::Pcap => 16,
        CaptureFormat::Pcapng => 28,
    }
}

/// How many bytes a packet takes whose frame has so many.
#[inline(always)]
pub fn packet_length(format: CaptureFormat, captured: usize) -> usize
    requires { captured ≤ 262144 }
    ensures value { result ≡ packet_length format captured }
    ensures within { result ≤ 262176 }
{
    match format {
        CaptureFormat::Pcap => 16 + captured,
        CaptureFormat::Pcapng => block_length(captured),
    }
}

/// Puts a packet into some room, from a place on: where it ends.
///
/// What stands before that place stays. The time is in nanoseconds, and `original` is the frame's
/// length on the wire, in bytes.
#[inline(always)]
pub fn put_packet(
    room: &mut [u8],
    at: usize,
    format: CaptureFormat,
    time: u64,
    original: u32,
    frame: &[u8],
) -> usize
    requires time { time ≤ greatest_time }
    requires frame { length frame.now ≤ 262144 }
    requires room { at + packet_length format (length frame.now) ≤ length room.old }
    ensures end { result ≡ at + packet_length format (length frame.now) }
    ensures put { take result room.new
        ≡ take at room.old ++ packet_bytes format time original frame.now }
{
    match format {
        CaptureFormat::Pcap => put_record(room, at, time, original, frame),
        CaptureFormat::Pcapng => put_block(room, at, time, original, frame),
    }
}
