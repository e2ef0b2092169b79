//! Packets that were read, with their frames.
ghost use Rattle.std.specs.Prelude.{◌≡◌, ◌≤◌, ◌<◌, ◌+◌, ◌∷◌, ◌++◌, [], length, drop, slice_index_or, IfOk, OnOk, OnErr};
ghost use Rattle.nf_base.specs.Hashed.{HasInput};
ghost use Rattle.pcap_file.specs.Record.{greatest_time};
ghost use Rattle.packet_feed.specs.Arrivals.{Arrival};

use nf_base::packet::Packet;
use nf_base::seq::Seq;
use std::alloc::{AllocError, Global};
use std::marker::Model;
use std::mem;

/// A packet that was read and whose answer is not written yet, with the captured bytes of its frame and
/// the length of that on the wire.
#[derive(Drop)]
pub(crate) struct HeldPacket {
    packet: Packet,
    original: u32,
    frame: Vec<u8>,
}

impl Model for HeldPacket {
    ghost use Rattle.packet_feed.specs.Arrivals.{Arrival};
    ghost use Rattle.sharded_run.specs.Reading.{IsKept};

    ghost Value = { Arrival };

    ghost view = { λ k. record {
      packet = k.packet;
      original = k.original;
      frame = k.frame.items;
    } };

    ghost invariant = { λ k. IsKept k.packet.time k.frame.items };
}

impl HeldPacket {
    fn new(
        alloc: Global,
        packet: &Packet,
        original: u32,
        frame: &[u8],
    ) -> Result<HeldPacket, AllocError>
        requires time { packet.now.time ≤ greatest_time }
        requires captured { length frame.now ≤ 262144 }
        ensures { IfOk result (λ kept. kept
            ≡ record { packet = packet.now; original = original; frame = frame.now }) }
    {
        let frame = Vec::from_slice(alloc, frame)?;
        let Packet { id, time, fields } = *packet;
        Ok(HeldPacket {
            packet: Packet { id, time, fields },
            original,
            frame,
        })
    }

    /// Another packet in the same room.
    #[inline(always)]
    fn refill(&mut self, packet: &Packet, original: u32, frame: &[u8]) -> Result<(), AllocError>
        requires time { packet.now.time ≤ greatest_time }
        requires captured { length frame.now ≤ 262144 }
        ensures { OnOk result (self.new
            ≡ record { packet = packet.now; original = original; frame = frame.now }) }
    {
        self.frame.clear();
        self.frame.extend_from_slice(frame)?;
        self.packet = *packet;
        self.original = original;
        Ok(())
    }

    #[inline(always)]
    pub(crate) fn packet(&self) -> &Packet
        ensures packet { result.now ≡ self.now.packet }
        ensures time { self.now.packet.time ≤ greatest_time }
    {
        &self.packet
    }

    #[inline(always)]
    pub(crate) fn original(&self) -> u32
        ensures { result ≡ self.now.original }
    {
        self.original
    }

    #[inline(always)]
    pub(crate) fn frame(&self) -> &[u8]
        ensures frame { result.now ≡ self.now.frame }
        ensures captured { length self.now.frame ≤ 262144 }
    {
        self.frame.as_slice()
    }
}

/// Packets with their frames, in the first of some slots. The others have room for more, which are put
/// there without being moved.
#[derive(Drop)]
struct Slots {
    slots: Seq<HeldPacket>,
    used: usize,
}

impl Model for Slots {
    ghost use Rattle.std.specs.Prelude.{◌≤◌, List, length, take};
    ghost use Rattle.packet_feed.specs.Arrivals.{Arrival};

    ghost Value = { List Arrival };

    ghost view = { λ s. take s.used s.slots };

    ghost invariant = { λ s. s.used ≤ length s.slots };
}

impl Slots {
    /// No packet.
    fn new(alloc: Global) -> Slots
        ensures { result ≡ [] }
    {
        Slots {
            slots: Seq::new(alloc),
            used: 0,
        }
    }

    fn len(&self) -> usize
        ensures { result ≡ length self.now }
    {
        self.used
    }

    /// The packet of this number.
    #[inline(always)]
    fn item(&self, i: usize) -> &HeldPacket
        requires { i < length self.now }
        ensures { result.now ≡ slice_index_or self.now i result.now }
    {
        self.slots.item(i)
    }

    /// Puts a packet behind the others: into the next slot, or a new one.
    #[tactic(auto, using(crate::proofs::Slots::slot_added))]
    #[inline(always)]
    fn push(
        &mut self,
        alloc: Global,
        packet: &Packet,
        original: u32,
        frame: &[u8],
    ) -> Result<(), AllocError>
        requires time { packet.now.time ≤ greatest_time }
        requires captured { length frame.now ≤ 262144 }
        ensures ok { let one : Arrival
            = record { packet = packet.now; original = original; frame = frame.now } in
            OnOk result (self.new ≡ self.old ++ one ∷ []) }
        ensures err { OnErr result (self.new ≡ self.old) }
    {
        if self.used < self.slots.len() {
            let slot = self.slots.item_mut(self.used);
            slot.refill(packet, original, frame)?;
            self.used += 1;
            return Ok(());
        }
        let kept = HeldPacket::new(alloc, packet, original, frame)?;
        self.slots.push(kept)?;
        self.used = self.slots.len();
        Ok(())
    }

    /// All slots have room for others.
    fn clear(&mut self)
        ensures { self.new ≡ [] }
    {
        self.used = 0;
    }
}

/// Packets with their frames, in the order in which they were read. None is moved while it is kept, and
/// the room that they take is kept for others.
#[derive(Drop)]
pub(crate) struct Frames {
    /// The first packets, of which so many are gone.
    current: Slots,
    at: usize,
    /// Those behind them.
    filling: Slots,
}

impl Model for Frames {
    ghost use Rattle.std.specs.Prelude.{◌≡◌, ◌≤◌, ◌+◌, ◌++◌, List, length, drop};
    ghost use Rattle.packet_feed.specs.Arrivals.{Arrival};

    ghost Value = { List Arrival };

    ghost view = { λ f. drop f.at f.current ++ f.filling };

    // Where all of the first ones are gone, there is none.
    ghost invariant = { λ f. (f.at ≤ length f.current)
        × (length f.current ≤ f.at → length f.current + length f.filling ≡ 0) };
}

impl Frames {
    /// No packet.
    pub(crate) fn new(alloc: Global) -> Frames
        ensures { result ≡ [] }
    {
        Frames {
            current: Slots::new(alloc),
            at: 0,
            filling: Slots::new(alloc),
        }
    }

    /// The first packet.
    #[tactic(auto, using(crate::proofs::Slots::first_is))]
    #[inline(always)]
    pub(crate) fn first(&self) -> &HeldPacket
        requires { 0 < length self.now }
        ensures { self.now ≡ result.now ∷ drop 1 self.now }
    {
        self.current.item(self.at)
    }

    /// Lets the first packet go, whose answer is written, and keeps its room.
    #[tactic(auto, using(crate::proofs::Slots::one_gone, crate::proofs::Slots::row_gone))]
    #[inline(always)]
    pub(crate) fn drop_first(&mut self)
        requires { 0 < length self.old }
        ensures rest { self.new ≡ drop 1 self.old }
        ensures fewer { length self.old ≡ length self.new + 1 }
    {
        let end = self.current.len();
        self.at += 1;
        if self.at < end {
            return;
        }
        mem::swap(&mut self.filling, &mut self.current);
        self.filling.clear();
        self.at = 0;
    }

    /// Puts a packet with its frame behind the others.
    #[tactic(auto, using(crate::proofs::Slots::first_put))]
    #[inline(always)]
    pub(crate) fn push(
        &mut self,
        alloc: Global,
        packet: &Packet,
        original: u32,
        frame: &[u8],
    ) -> Result<(), AllocError>
        requires time { packet.now.time ≤ greatest_time }
        requires captured { length frame.now ≤ 262144 }
        ensures ok { let one : Arrival
            = record { packet = packet.now; original = original; frame = frame.now } in
            OnOk result (self.new ≡ self.old ++ one ∷ []) }
        ensures err { OnErr result (self.new ≡ self.old) }
    {
        if self.current.len() == 0 {
            self.current.push(alloc, packet, original, frame)?;
            return Ok(());
        }
        self.filling.push(alloc, packet, original, frame)?;
        Ok(())
    }
}

/// The fields of any packet are within their widths.
pub(crate) fn fits(packet: Packet)
    ensures { HasInput packet }
{}
