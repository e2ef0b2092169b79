//! Packets out to a worker, and answers back.
ghost use Rattle.std.specs.Prelude.{◌≡◌, ◌≤◌, ◌<◌, ◌+◌, true, List, [], ◌∷◌, ◌++◌, length};
ghost use Rattle.nf_base.specs.declared.func.Func.{Func};
ghost use Rattle.nf_base.specs.declared.packet.Packet as arrival;
ghost use Rattle.nf_base.specs.declared.share.Share.{Share};
ghost use Rattle.nf_base.specs.Functions.{function_of};
ghost use Rattle.shard_machine.specs.declared.event.Answer as answer;
ghost use Rattle.short_answers.specs.Answers.{done_told};
ghost use Rattle.ring_line.specs.Handled.{CanServe};
ghost use Rattle.ring_line.specs.Handed.{IsNext, Finishes};
ghost use Rattle.ring_line.specs.ThreadWorkers.{StandsFor, HasAnswer, FirstAnswer, HasHalted};

use super::{Next, ThreadWorker};
use crate::bell::{give, pop, take};
use crate::item::Item;
use crate::pack::{AnswerRef, IN_FLIGHT, Pack};
use crate::worker_ends::{RingEnds, WorkerResult};
use nf_base::packet::Packet;
use std::mem;
use std::sync::Wait;
use std::thread::Threads;
use vig_tables::Tables;

impl ThreadWorker {
    /// Whether fewer than 64 packets are in flight.
    pub fn has_room(&self) -> bool
        ensures yes { result ≡ true → self.now.in_flight < 64 }
        ensures all { self.now.in_flight < 64 → result ≡ true }
    {
        self.in_flight < IN_FLIGHT
    }

    /// Sends a packet, which may wait in the pack that is being filled. It takes no memory.
    pub fn send<R: Wait>(&mut self, rt: &R, packet: &Packet)
        requires { self.old.in_flight < 64 }
        ensures stands { (func : Func) → (share : Share) → (packets : List arrival.Packet) →
            (answers : List answer.Answer) → StandsFor self.old func share packets answers →
            CanServe func packet.now →
            StandsFor self.new func share (packets ++ packet.now ∷ []) answers }
        ensures in_flight { self.new.in_flight ≡ self.old.in_flight + 1 }
    {
        self.fill(packet);
        if self.filling.len() >= self.size {
            self.flush(rt);
        }
    }

    /// Puts a packet into the pack that is being filled.
    fn fill(&mut self, packet: &Packet)
        requires { self.old.in_flight < 64 }
        ensures stands { (func : Func) → (share : Share) → (packets : List arrival.Packet) →
            (answers : List answer.Answer) → StandsFor self.old func share packets answers →
            CanServe func packet.now →
            StandsFor self.new func share (packets ++ packet.now ∷ []) answers }
        ensures in_flight { self.new.in_flight ≡ self.old.in_flight + 1 }
    {
        self.in_flight += 1;
        self.filling.push(packet);
    }

    /// Pushes the packets that were not pushed yet.
    pub fn flush<R: Wait>(&mut self, rt: &R)
        ensures stands { (func : Func) → (share : Share) → (packets : List arrival.Packet) →
            (answers : List answer.Answer) → StandsFor self.old func share packets answers →
            StandsFor self.new func share packets answers }
        ensures in_flight { self.new.in_flight ≡ self.old.in_flight }
    {
        if self.filling.is_empty() {
            return;
        }
        if let Some(spare) = self.spares.pop() {
            self.push_filled(rt, spare);
        }
    }

    /// Pushes the pack that is being filled, and goes on with another.
    fn push_filled<R: Wait>(&mut self, rt: &R, spare: Pack)
        ensures stands { (func : Func) → (share : Share) → (packets : List arrival.Packet) →
            (answers : List answer.Answer) → StandsFor self.old func share packets answers →
            StandsFor self.new func share packets answers }
        ensures in_flight { self.new.in_flight ≡ self.old.in_flight }
    {
        let mut spare = spare;
        spare.clear();
        let full = mem::replace(&mut self.filling, spare);
        give(rt, &mut self.to, Item::Work(full), &*self.bell);
    }

    /// Whether an answer of the last pack that came lies ready, or the share ends behind all of them.
    pub fn next(&self) -> Next
        ensures { IsNext result (HasAnswer self.now) (HasHalted self.now) }
    {
        if self.at < self.current.answered() {
            if self.filling.len() < self.in_flight {
                Next::Ready
            } else {
                Next::Nothing
            }
        } else {
            match self.current.halt() {
                Some(halt) => Next::Halted(halt),
                None => Next::Nothing,
            }
        }
    }

    /// Whether an answer of the last pack that came lies ready.
    #[inline]
    pub fn is_ready(&self) -> bool
        ensures yes { result ≡ true → HasAnswer self.now }
        ensures all { HasAnswer self.now → result ≡ true }
    {
        if self.at < self.current.answered() {
            self.filling.len() < self.in_flight
        } else {
            false
        }
    }

    /// The answer that lies ready.
    #[inline]
    pub fn answer(&self) -> AnswerRef<'_>
        requires { HasAnswer self.now }
        ensures { FirstAnswer self.now
            (record { packet = result.packet.now; done = done_told result.told }) }
    {
        self.current.answer_at(self.at)
    }

    /// Goes on behind the answer that lies ready: it is collected.
    pub fn pass(&mut self)
        requires { HasAnswer self.old }
        ensures stands { (func : Func) → (share : Share) → (packets : List arrival.Packet) →
            (answers : List answer.Answer) → (one : answer.Answer) →
            StandsFor self.old func share packets answers → FirstAnswer self.old one →
            StandsFor self.new func share packets (answers ++ one ∷ []) }
        ensures in_flight { self.old.in_flight ≡ self.new.in_flight + 1 }
    {
        prove!(self.at < self.current.answered());
        self.at += 1;
        self.in_flight -= 1;
    }

    /// Waits for the next pack, where all answers of the last one are collected and the share goes
    /// on.
    pub fn turn<R: Wait>(&mut self, rt: &R)
        ensures stands { (func : Func) → (share : Share) → (packets : List arrival.Packet) →
            (answers : List answer.Answer) → StandsFor self.old func share packets answers →
            StandsFor self.new func share packets answers }
        ensures in_flight { self.new.in_flight ≡ self.old.in_flight }
    {
        if self.at < self.current.answered() || self.current.halt().is_some() {
            return;
        }
        self.turn_over(rt);
    }

    fn turn_over<R: Wait>(&mut self, rt: &R)
        requires { length self.old.current.answers ≤ self.old.at }
        ensures stands { (func : Func) → (share : Share) → (packets : List arrival.Packet) →
            (answers : List answer.Answer) → StandsFor self.old func share packets answers →
            StandsFor self.new func share packets answers }
        ensures in_flight { self.new.in_flight ≡ self.old.in_flight }
    {
        let pack = take(rt, &mut self.back, &*self.own_bell, &mut self.looks);
        let used = mem::replace(&mut self.current, pack);
        self.at = 0;
        keep(&mut self.spares, used);
    }

    /// Takes the next pack, where all answers of the last one are collected and one has come; and tells
    /// whether it did.
    pub fn poll(&mut self) -> bool
        ensures stands { (func : Func) → (share : Share) → (packets : List arrival.Packet) →
            (answers : List answer.Answer) → StandsFor self.old func share packets answers →
            StandsFor self.new func share packets answers }
        ensures in_flight { self.new.in_flight ≡ self.old.in_flight }
    {
        if self.at < self.current.answered() {
            return false;
        }
        self.poll_over()
    }

    fn poll_over(&mut self) -> bool
        requires { length self.old.current.answers ≤ self.old.at }
        ensures stands { (func : Func) → (share : Share) → (packets : List arrival.Packet) →
            (answers : List answer.Answer) → StandsFor self.old func share packets answers →
            StandsFor self.new func share packets answers }
        ensures in_flight { self.new.in_flight ≡ self.old.in_flight }
    {
        match pop(&mut self.back) {
            Some(pack) => {
                let used = mem::replace(&mut self.current, pack);
                self.at = 0;
                keep(&mut self.spares, used);
                true
            }
            None => false,
        }
    }

    /// Joins the worker, and hands its tables out.
    pub fn finish<R: Threads + Wait>(self, rt: &R) -> Tables
        ensures { (func : Func) → (share : Share) → (packets : List arrival.Packet) →
            (answers : List answer.Answer) → StandsFor self func share packets answers →
            Finishes (HasHalted self) (function_of func) share packets answers result }
    {
        let ThreadWorker {
            mut to,
            mut back,
            child,
            bell,
            own_bell: _,
            looks: _,
            filling,
            current: _,
            at: _,
            spares: _,
            in_flight: _,
            size: _,
        } = self;
        give(rt, &mut to, Item::Work(filling), &*bell);
        give(rt, &mut to, Item::End, &*bell);
        let WorkerResult {
            ends,
            tables,
            halt: _,
        } = child.join(rt);
        let RingEnds {
            mut from,
            to: mut answers,
        } = ends;
        from.slots_beside(&mut to);
        back.slots_beside(&mut answers);
        tables
    }
}

/// Keeps a pack to be filled again: there is room for each.
fn keep(spares: &mut Vec<Pack>, pack: Pack) {
    if spares.len() < spares.capacity() {
        spares.push_reserved(pack);
    }
}
