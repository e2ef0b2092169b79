//! A packet that was handled, beside its frame.
ghost use Rattle.std.specs.Prelude.{◌≡◌};

use crate::told::ToldFields;
use nf_base::done::{Action, Done, Edits};
use nf_base::packet::{Packet, PacketId};
use nf_base::picks::Picks;
use std::marker::Model;

/// A packet that was handled: what the outputs and the journal are told of it. What it came to stands
/// in parts, as a context has it, and of its fields nothing is read.
///
/// The time is in nanoseconds, the original length in bytes, the frame is the captured bytes.
#[derive(Drop)]
pub struct HandledParts<'a> {
    pub worker: u32,
    pub id: PacketId,
    pub time: u64,
    pub fields: ToldFields<'a>,
    pub original: u32,
    pub frame: &'a [u8],
    pub action: Action,
    pub edits: &'a Edits,
    pub picks: &'a Picks,
}

impl<'a> Model for HandledParts<'a> {
    ghost use Rattle.std.specs.Prelude.{◌≤◌, length};
    ghost use Rattle.pcap_file.specs.Record.{greatest_time};
    ghost use Rattle.stream_run.specs.Runs.{Handled};
    ghost use Rattle.stream_run.specs.Writing.{came_to};

    ghost Value = { Handled };

    ghost view = { λ h. came_to h.worker
        (record { id = h.id; time = h.time; fields = h.fields }) h.original h.frame.now
        (record { action = h.action; edits = h.edits.now; picks = h.picks.now }) };

    ghost invariant = { λ h. (h.time ≤ greatest_time) × (length h.frame.now ≤ 262144) };
}

/// The same, beside what it came to in one piece.
#[derive(Drop)]
pub struct HandledPacket<'a> {
    pub worker: u32,
    pub packet: &'a Packet,
    pub original: u32,
    pub frame: &'a [u8],
    pub done: &'a Done,
}

impl<'a> Model for HandledPacket<'a> {
    ghost use Rattle.std.specs.Prelude.{◌≤◌, length};
    ghost use Rattle.pcap_file.specs.Record.{greatest_time};
    ghost use Rattle.stream_run.specs.Runs.{Handled};
    ghost use Rattle.stream_run.specs.Writing.{came_to};

    ghost Value = { Handled };

    ghost view = { λ h. came_to h.worker h.packet.now h.original h.frame.now h.done.now };

    ghost invariant = { λ h. (h.packet.now.time ≤ greatest_time) × (length h.frame.now ≤ 262144) };
}

impl<'a> HandledPacket<'a> {
    /// What it came to in parts.
    #[inline(always)]
    pub(crate) fn parts(&self) -> HandledParts<'a>
        ensures { result ≡ self.now }
    {
        HandledParts {
            worker: self.worker,
            id: self.packet.id,
            time: self.packet.time,
            fields: ToldFields::of_packet(self.packet),
            original: self.original,
            frame: self.frame,
            action: self.done.action,
            edits: &self.done.edits,
            picks: &self.done.picks,
        }
    }
}
