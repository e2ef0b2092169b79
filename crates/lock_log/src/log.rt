//! The calls of a seat.
ghost use Rattle.std.specs.Prelude.{◌≡◌, ◌<◌, ◌≤◌, ◌+◌, ◌^◌, ◌++◌, ◌∷◌, [], length, slice_get, option_map, Some, OnOk, IfSome};
ghost use Rattle.lock_core.specs.declared.call.Call.{Call};
ghost use Rattle.short_answers.specs.Answers.{done_told};
ghost use Rattle.lock_log.specs.Heads.{head_of};

use lock_core::Way;
use nf_base::done::Done;
use nf_base::packet::Packet;
use short_answers::{Answer, Told, keep};
use std::alloc::{AllocError, Global};
use std::marker::Model;
use std::mem::size_of;
use std::snapshot::Snapshot;

/// How many calls a seat makes at most.
const MOST: usize = 1 << 32;

/// A call as it is kept, in 24 bytes. Nobody reads its packet here, which the caller has: contracts
/// alone see it.
#[derive(Drop)]
struct Noted {
    packet: Snapshot<Packet>,
    place: u64,
    answer: Answer,
    way: Way,
}

const _: () = prove!(size_of::<Noted>() == 24);

impl Model for Noted {
    ghost use Rattle.lock_log.specs.Notes.{Note};

    ghost Value = { Note };

    ghost view = { λ n. record {
      packet = n.packet.value;
      place = n.place;
      answer = n.answer;
      way = n.way;
    } };
}

/// How a call was made, and its place in the history.
#[derive(Clone, Copy, Debug, PartialEq, Eq)]
pub struct Head {
    pub way: Way,
    /// Of a look, how many entries the history had that it looked at; else the place of its entry
    /// in the history, from 0.
    pub place: u64,
}

/// The calls of a seat in their order, at most 2^32.
///
/// Contracts see it as the calls, and for how many more it has room.
#[derive(Drop)]
pub struct CallLog {
    notes: Vec<Noted>,
    whole: Vec<Done>,
}

impl Model for CallLog {
    ghost use Rattle.std.specs.Vec.{vec_len, vec_capacity};
    ghost use Rattle.lock_log.specs.Notes.{LogState, calls_in, room_of, IsLog};

    ghost Value = { LogState };

    ghost view = { λ l. record {
      calls = calls_in l.whole.items l.notes.items;
      room =
          room_of (vec_len l.notes) (vec_capacity l.notes) (vec_len l.whole) (vec_capacity l.whole);
    } };

    ghost invariant = { λ l. IsLog l.whole.items l.notes.items };
}

impl CallLog {
    /// No calls, and no room yet.
    pub fn new(alloc: Global) -> CallLog
        ensures { result.calls ≡ [] }
    {
        CallLog {
            notes: Vec::new(alloc),
            whole: Vec::new(alloc),
        }
    }

    /// How many there are.
    pub fn len(&self) -> usize
        ensures length { result ≡ length self.now.calls }
        ensures few { result ≤ 2 ^ 32 }
    {
        self.notes.len()
    }

    /// Makes room for so many more.
    ///
    /// `Err` is for want of memory, or where there would be more than 2^32.
    pub fn reserve(&mut self, count: usize) -> Result<(), AllocError>
        ensures room { OnOk result (count ≤ self.new.room) }
        ensures kept { self.old.room ≤ self.new.room }
        ensures same { self.new.calls ≡ self.old.calls }
    {
        if count > MOST - self.notes.len() {
            return Err(AllocError);
        }
        self.notes.reserve(count)?;
        self.whole.reserve(count)
    }

    /// Puts a call behind the others. Its packet isn't kept: contracts alone see it here.
    pub fn push(&mut self, way: Way, place: u64, packet: &Packet, done: &Done)
        requires room { 0 < self.old.room }
        ensures put { self.new.calls ≡ self.old.calls
            ++ (record { way = way; place = place; packet = packet.now; done = done.now }) ∷ [] }
        ensures room { self.old.room ≤ self.new.room + 1 }
    {
        let answer = keep(&mut self.whole, done.action, &done.edits, &done.picks);
        self.notes.push_reserved(Noted {
            packet: Snapshot::of(packet),
            place,
            answer,
            way,
        });
    }

    /// How the call at a place was made: None where there is none.
    pub fn head(&self, at: usize) -> Option<Head>
        ensures value { result ≡ option_map head_of (slice_get self.now.calls at) }
        ensures few { IfSome result (λ _. at < 2 ^ 32) }
    {
        if at >= self.notes.len() {
            return None;
        }
        let note = &self.notes[at];
        Some(Head {
            way: note.way,
            place: note.place,
        })
    }

    /// What the call at a place came to.
    pub(crate) fn told(&self, at: usize) -> Told<'_>
        requires { at < length self.now.calls }
        ensures { (c : Call) → slice_get self.now.calls at ≡ Some c → done_told result ≡ c.done }
    {
        let note = &self.notes[at];
        match note.answer {
            Answer::Plain(action) => Told::Plain(action),
            Answer::Whole(place) => Told::Whole(&self.whole[place as usize]),
        }
    }
}
