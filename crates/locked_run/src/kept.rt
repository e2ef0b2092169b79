//! Packets that were read, with their frames.
ghost use Rattle.std.specs.Prelude.{◌≡◌, ◌<◌, ◌≤◌, ◌∷◌, [], ◌++◌, length, map, slice_get, Some, IfOk, OnOk, OnErr};
ghost use Rattle.nf_base.specs.declared.done.Done.{Done};
ghost use Rattle.nf_base.specs.Hashed.{HasInput};
ghost use Rattle.pcap_file.specs.Record.{greatest_time};
ghost use Rattle.packet_feed.specs.Arrivals.{Arrival, packet_of};
ghost use Rattle.stream_run.specs.Runs.{Handled};

use crate::pieces::{Pieces, Spot};
use nf_base::done::{Action, Edits};
use nf_base::packet::Packet;
use nf_base::picks::Picks;
use std::alloc::{AllocError, Global};
use std::marker::Model;
use stream_run::{HandledParts, ToldFields};

/// The length of a frame on the wire, and where its captured bytes lie.
#[derive(Clone, Copy, Debug, PartialEq, Eq)]
struct Frame {
    original: u32,
    spot: Spot,
}

/// Packets that were read and are not handled yet, which workers share, and beside them their
/// frames, which lie one behind another in large pieces of memory.
///
/// Contracts see them as what came in.
#[derive(Drop)]
pub(crate) struct Batch {
    packets: Vec<Packet>,
    frames: Vec<Frame>,
    pieces: Pieces,
    longest: usize,
}

impl Model for Batch {
    ghost use Rattle.std.specs.Prelude.{List};
    ghost use Rattle.packet_feed.specs.Arrivals.{Arrival};
    ghost use Rattle.locked_run.specs.Batches.{arrivals, AreKept};

    ghost Value = { List Arrival };

    ghost view = { λ b. arrivals b.pieces b.packets.items b.frames.items };

    ghost invariant = { λ b. AreKept b.pieces b.packets.items b.frames.items };
}

impl Batch {
    /// None yet.
    pub(crate) fn new(alloc: Global) -> Batch
        ensures { result ≡ [] }
    {
        Batch {
            packets: Vec::new(alloc),
            frames: Vec::new(alloc),
            pieces: Pieces::new(alloc),
            longest: 0,
        }
    }

    /// How many packets there are.
    pub(crate) fn len(&self) -> usize {
        self.packets.len()
    }

    /// How many bytes the longest frame has.
    pub(crate) fn longest(&self) -> usize {
        self.longest
    }

    /// The packets alone.
    pub(crate) fn packets(&self) -> &[Packet]
        ensures { result.now ≡ map packet_of self.now }
    {
        self.packets.as_slice()
    }

    fn push(
        &mut self,
        alloc: Global,
        packet: &Packet,
        original: u32,
        frame: &[u8],
    ) -> Result<(), AllocError>
        requires time { packet.now.time ≤ greatest_time }
        requires captured { length frame.now ≤ 262144 }
        ensures ok { let one : Arrival
            = record { packet = packet.now; original = original; frame = frame.now } in
            OnOk result (self.new ≡ self.old ++ one ∷ []) }
        ensures err { OnErr result (self.new ≡ self.old) }
    {
        self.frames.reserve(1)?;
        self.packets.reserve(1)?;
        let spot = self.pieces.put(alloc, frame)?;
        let Packet { id, time, fields } = *packet;
        self.packets.push_reserved(Packet { id, time, fields });
        self.frames.push_reserved(Frame { original, spot });
        self.longest = self.longest.max(frame.len());
        Ok(())
    }

    /// The packet at a place with its frame, as a worker handled it.
    pub(crate) fn handled<'a>(
        &'a self,
        place: usize,
        worker: u32,
        action: Action,
        edits: &'a Edits,
        picks: &'a Picks,
    ) -> HandledParts<'a>
        requires { place < length self.now }
        ensures { let done : Done
            = record { action = action; edits = edits.now; picks = picks.now } in
            (a : Arrival) → slice_get self.now place ≡ Some a →
            result ≡ record { arrival = a; worker = worker; done = done } }
    {
        let packet = &self.packets[place];
        let frame = &self.frames[place];
        let bytes = self.pieces.at(frame.spot);
        HandledParts {
            worker,
            id: packet.id,
            time: packet.time,
            fields: ToldFields::of_packet(packet),
            original: frame.original,
            frame: bytes,
            action,
            edits,
            picks,
        }
    }
}

// The fields of any packet are within their widths.
fn fits(packet: Packet)
    ensures { HasInput packet }
{}

/// Puts a packet with its frame behind others.
pub(crate) fn keep(
    alloc: Global,
    batch: &mut Batch,
    packet: &Packet,
    original: u32,
    frame: &[u8],
) -> Result<(), AllocError>
    requires time { packet.now.time ≤ greatest_time }
    requires captured { length frame.now ≤ 262144 }
    ensures ok { let one : Arrival
        = record { packet = packet.now; original = original; frame = frame.now } in
        OnOk result (batch.new ≡ batch.old ++ one ∷ []) }
    ensures err { OnErr result (batch.new ≡ batch.old) }
    ensures input { HasInput packet.now }
{
    fits(*packet);
    batch.push(alloc, packet, original, frame)
}
