//! What one packet leaves in a file.
ghost use Rattle.std.specs.Prelude.{◌≡◌, ◌≤◌, ◌+◌, ◌++◌, true, false, length, take, drop, OnOk};
ghost use Rattle.frame_ip.specs.Edit.{IsUnedited};
ghost use Rattle.capture_format.specs.Written.{packet_bytes, packet_length};
ghost use Rattle.pcap_file.specs.Record.{greatest_time};
ghost use Rattle.run_history.specs.Room.{Puts};
ghost use Rattle.stream_run.specs.Texts.{sends, with_edits, is_sent, written_of, sent_bytes, line_of};

use crate::handled::{HandledPacket, HandledParts};
use capture_format::{CaptureFormat, lead_length, push_packet, put_packet};
use frame_ip::{edit, view};
use nf_base::done::{Action, Edits};
use run_history::line::put_packet as put_packet_line;
use std::alloc::AllocError;

// Whether an action sends a packet that came in at a port out at another.
fn sends(action: Action, from: u32, port: u32) -> bool
    ensures { result ≡ sends action from port }
{
    match action {
        Action::Skip => false,
        Action::Drop => false,
        Action::To(out) => out == port,
        Action::Flood => from != port,
    }
}

// Whether no field is given a value.
fn are_none(edits: &Edits) -> bool
    ensures { result ≡ true → IsUnedited edits.now }
{
    match edits {
        Edits {
            src_mac: None,
            dst_mac: None,
            src_ip: None,
            dst_ip: None,
            src_ip6: None,
            dst_ip6: None,
            ttl: None,
            src_port: None,
            dst_port: None,
        } => true,
        _ => false,
    }
}

// Writes a packet's edits into its frame, where it is handled. Where there are none its headers are not
// even looked at.
#[tactic(auto, unfolding(crate::specs::Texts::with_edits))]
fn edit_handled(frame: &mut [u8], edits: &Edits)
    ensures edited { frame.new ≡ with_edits edits.now frame.old }
    ensures long { length (with_edits edits.now frame.old) ≡ length frame.old }
{
    if are_none(edits) {
        return;
    }
    if view(frame, 0).is_some() {
        edit(frame, edits);
    }
}

// Writes a packet's edits into its frame, which stands somewhere in bytes.
#[inline(always)]
fn edit_within(bytes: &mut [u8], start: usize, captured: usize, edits: &Edits)
    requires { start + captured ≤ length bytes.old }
    ensures edited { bytes.new ≡ take start bytes.old
        ++ (with_edits edits.now (take captured (drop start bytes.old))
        ++ drop captured (drop start bytes.old)) }
    ensures long { length (with_edits edits.now (take captured (drop start bytes.old)))
        ≡ length (take captured (drop start bytes.old)) }
{
    edit_handled(&mut bytes[start..start + captured], edits);
}

// Appends a packet; its frame is edited where it is gathered.
fn push_edited(
    buffer: &mut Vec<u8>,
    format: CaptureFormat,
    time: u64,
    original: u32,
    frame: &[u8],
    edits: &Edits,
) -> Result<(), AllocError>
    requires time { time ≤ greatest_time }
    requires captured { length frame.now ≤ 262144 }
    ensures { OnOk result (buffer.new.items ≡ buffer.old.items
        ++ packet_bytes format time original (with_edits edits.now frame.now)) }
{
    let before = buffer.len();
    push_packet(buffer, format, time, original, frame)?;
    let start = before + lead_length(format);
    edit_within(buffer.as_mut_slice(), start, frame.len(), edits);
    Ok(())
}

/// Appends a packet that is sent out.
pub(crate) fn push_sent_packet(
    buffer: &mut Vec<u8>,
    format: CaptureFormat,
    handled: &HandledParts,
) -> Result<(), AllocError>
    ensures { OnOk result (buffer.new.items ≡ buffer.old.items ++ written_of format handled.now) }
{
    let HandledParts {
        worker: _,
        id: _,
        time,
        fields: _,
        original,
        frame,
        action: _,
        edits,
        picks: _,
    } = handled;
    push_edited(buffer, format, *time, *original, frame, edits)
}

// Puts a packet into some room, from a place on: where it ends. Its frame is edited where it was put.
// Where it is known that nothing is, its edits are not looked at.
#[inline(always)]
fn put_edited(
    room: &mut [u8],
    at: usize,
    format: CaptureFormat,
    time: u64,
    original: u32,
    frame: &[u8],
    edits: &Edits,
    edited: bool,
) -> usize
    requires time { time ≤ greatest_time }
    requires captured { length frame.now ≤ 262144 }
    requires room { at + packet_length format (length frame.now) ≤ length room.old }
    requires edited { edited ≡ false → IsUnedited edits.now }
    ensures end { result ≡ at + packet_length format (length frame.now) }
    ensures put { take result room.new ≡ take at room.old
        ++ packet_bytes format time original (with_edits edits.now frame.now) }
{
    let end = put_packet(room, at, format, time, original, frame);
    if !edited {
        return end;
    }
    edit_within(room, at + lead_length(format), frame.len(), edits);
    end
}

/// Puts a packet that is sent out into some room, from a place on: where it ends.
///
/// It may be said that its frame is not edited.
#[inline(always)]
pub(crate) fn put_sent(
    room: &mut [u8],
    at: usize,
    format: CaptureFormat,
    handled: &HandledParts,
    edited: bool,
) -> usize
    requires room { at + packet_length format (length handled.now.arrival.frame) ≤ length room.old }
    requires edited { edited ≡ false → IsUnedited handled.now.done.edits }
    ensures end { result ≡ at + packet_length format (length handled.now.arrival.frame) }
    ensures put { take result room.new ≡ take at room.old ++ written_of format handled.now }
{
    let HandledParts {
        worker: _,
        id: _,
        time,
        fields: _,
        original,
        frame,
        action: _,
        edits,
        picks: _,
    } = handled;
    put_edited(room, at, format, *time, *original, frame, edits, edited)
}

/// Puts a packet's line in the journal into some room, from a place on: where it ends.
#[inline(always)]
pub(crate) fn put_handled_line(room: &mut [u8], at: usize, handled: &HandledParts) -> usize
    requires { at + 256 ≤ length room.old }
    ensures put { Puts (line_of handled.now) room.old at room.new result }
    ensures within { result ≤ at + 256 }
{
    let HandledParts {
        worker,
        id,
        time: _,
        fields: _,
        original: _,
        frame: _,
        action,
        edits: _,
        picks,
    } = handled;
    put_packet_line(room, at, *id, *worker, *action, picks)
}

/// How many bytes the frame of a packet has.
pub(crate) fn frame_length(handled: &HandledParts) -> usize
    ensures value { result ≡ length handled.now.arrival.frame }
    ensures within { result ≤ 262144 }
{
    handled.frame.len()
}

/// Whether a packet is sent out at a port.
pub(crate) fn is_sent(port: u32, handled: &HandledParts) -> bool
    ensures { result ≡ is_sent port handled.now }
{
    sends(handled.action, handled.id.port, port)
}

/// Where a packet goes.
pub(crate) fn action_of(handled: &HandledParts) -> Action
    ensures { result ≡ handled.now.done.action }
{
    handled.action
}

fn push_parts(
    buffer: &mut Vec<u8>,
    format: CaptureFormat,
    port: u32,
    handled: &HandledParts,
) -> Result<(), AllocError>
    ensures { OnOk result
        (buffer.new.items ≡ buffer.old.items ++ sent_bytes format port handled.now) }
{
    if is_sent(port, handled) {
        push_sent_packet(buffer, format, handled)
    } else {
        Ok(())
    }
}

/// Appends what a packet leaves in the output of a port, which is of this format: the packet where it is
/// sent out there.
pub fn push_sent(
    buffer: &mut Vec<u8>,
    format: CaptureFormat,
    port: u32,
    handled: &HandledPacket,
) -> Result<(), AllocError>
    ensures { OnOk result
        (buffer.new.items ≡ buffer.old.items ++ sent_bytes format port handled.now) }
{
    push_parts(buffer, format, port, &handled.parts())
}
