//! Packets of one queue that go to its worker together, and are answered in place.
ghost use Rattle.std.specs.Prelude.{◌≡◌, ◌≤◌, ◌<◌, ◌+◌, [], ◌∷◌, ◌++◌, length, Some, None, IfOk, slice_get, slice_index_or, ◌==◌};
ghost use Rattle.short_answers.specs.Answers.{done_told};
ghost use Rattle.ring_line.specs.Packs.{Packed, IsAnswerAt, empty_pack};

use crate::halt::Halt;
use nf_base::done::{Action, Edits};
use nf_base::packet::Packet;
use nf_base::picks::Picks;
use short_answers::{Answers, Told};
use std::alloc::{AllocError, Global};
use std::marker::Model;

/// A packet with what its handling came to, where both lie in a pack.
#[derive(Clone, Copy)]
pub struct AnswerRef<'a> {
    pub packet: &'a Packet,
    pub told: Told<'a>,
}

/// How many packets of a queue are in flight at most, and so how many a pack has room for.
pub const IN_FLIGHT: usize = 64;

/// Packets in the order in which they were sent, the answers to the first of them, and the packet
/// behind these at which the share ended, if it did. There is room for 64, so nothing that is done
/// with a pack takes memory. Answers are kept short: what a pack has goes from one processor to another.
#[derive(Drop)]
pub struct Pack {
    packets: Vec<Packet>,
    answers: Answers,
    halt: Option<Halt>,
}

impl Model for Pack {
    ghost use Rattle.std.specs.Prelude.{◌≤◌, length};
    ghost use Rattle.std.specs.Vec.{vec_capacity};
    ghost use Rattle.ring_line.specs.Packs.{Packed};

    ghost Value = { Packed };

    ghost view = { λ p. record {
      packets = p.packets.items;
      answers = p.answers.answers;
      halt = p.halt;
    } };

    ghost invariant = { λ p. (length p.answers.answers ≤ length p.packets.items)
        × (length p.packets.items ≤ 64)
        × (64 ≤ vec_capacity p.packets) × (64 ≤ p.answers.room) };
}

impl Pack {
    pub fn new(alloc: Global) -> Result<Pack, AllocError>
        ensures { IfOk result (λ pack. pack ≡ empty_pack) }
    {
        Ok(Pack {
            packets: Vec::with_capacity(alloc, IN_FLIGHT)?,
            answers: Answers::new(alloc, IN_FLIGHT as u32)?,
            halt: None,
        })
    }

    /// How many packets it has.
    pub fn len(&self) -> usize
        ensures value { result ≡ length self.now.packets }
        ensures most { length self.now.packets ≤ 64 }
    {
        self.packets.len()
    }

    /// How many of them are answered.
    pub fn answered(&self) -> usize
        ensures value { result ≡ length self.now.answers }
        ensures most { length self.now.answers ≤ length self.now.packets }
    {
        self.answers.len()
    }

    pub fn is_empty(&self) -> bool
        ensures { result ≡ (length self.now.packets == 0) }
    {
        self.packets.is_empty()
    }

    /// The packet at which the share ended.
    pub fn halt(&self) -> Option<Halt>
        ensures { result ≡ self.now.halt }
    {
        self.halt
    }

    /// The first packet without an answer.
    pub fn next(&self) -> &Packet
        requires { length self.now.answers < length self.now.packets }
        ensures { slice_get self.now.packets (length self.now.answers) ≡ Some result.now }
    {
        &self.packets[self.answers.len()]
    }

    /// The packet of this number with its answer.
    pub fn answer_at(&self, i: usize) -> AnswerRef<'_>
        requires { i < length self.now.answers }
        ensures { IsAnswerAt self.now i
            (record { packet = result.packet.now; done = done_told result.told }) }
    {
        AnswerRef {
            packet: &self.packets[i],
            told: self.answers.at(i),
        }
    }

    /// A packet more.
    pub fn push(&mut self, packet: &Packet)
        requires { length self.old.packets < 64 }
        ensures packets { self.new.packets ≡ self.old.packets ++ packet.now ∷ [] }
        ensures rest { let packets = self.new.packets in
            self.new ≡ record self.old { packets = packets } }
    {
        let Packet { id, time, fields } = *packet;
        self.packets.push_reserved(Packet { id, time, fields });
    }

    /// The answer to the first packet that has none.
    pub fn answer(&mut self, action: Action, edits: &Edits, picks: &Picks)
        requires { length self.old.answers < length self.old.packets }
        ensures answers { self.new.answers ≡ self.old.answers
            ++ (record { action = action; edits = edits.now; picks = picks.now }) ∷ [] }
        ensures rest { let answers = self.new.answers in
            self.new ≡ record self.old { answers = answers } }
    {
        self.answers.push(action, edits, picks);
    }

    /// The share ended at a packet.
    pub fn end_at(&mut self, chain: u32, packet: &Packet)
        ensures { self.new
            ≡ record self.old { halt = Some (record { chain = chain; packet = packet.now }) } }
    {
        let Packet { id, time, fields } = *packet;
        self.halt = Some(Halt {
            chain,
            packet: Packet { id, time, fields },
        });
    }

    /// Nothing is answered.
    pub fn forget_answers(&mut self)
        ensures { self.new ≡ record self.old { answers = []; halt = None } }
    {
        self.answers.clear();
        self.halt = None;
    }

    /// It has no packets.
    pub fn clear(&mut self)
        ensures { self.new ≡ empty_pack }
    {
        self.answers.clear();
        self.packets.clear();
        self.halt = None;
    }
}
