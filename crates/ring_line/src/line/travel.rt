//! Packets out to the workers of their queues, and answers back.
ghost use Rattle.std.specs.Prelude.{◌≡◌, ◌≤◌, ◌<◌, ◌+◌, true, List, [], ◌∷◌, ◌++◌, length, IfSome};
ghost use Rattle.nf_base.specs.declared.packet.Packet as arrival;
ghost use Rattle.shard_laws.specs.Queues.{time_after};
ghost use Rattle.shard_machine.specs.Machine.{Setup};
ghost use Rattle.shard_core.specs.declared.collected.Collected as got;
ghost use Rattle.short_answers.specs.Answers.{done_told};
ghost use Rattle.ring_line.specs.QueueWorkers.{CanHandle};
ghost use Rattle.ring_line.specs.Lines.{LineStands, HasRoom, ComesFirst, LineHasAnswer, LineFirstAnswer, IsFirst, Collects, IsCollected};

use super::{ALL_IN_FLIGHT, Answered, CollectedRef, First, Line};
use crate::halt::Halt;
use crate::thread_worker::Next;
use nf_base::done::Done;
use nf_base::packet::Packet;
use nf_base::worker_turns::Turns;
use shard_core::{Collected, Stop};
use short_answers::{Told, plain};
use std::sync::Wait;

impl<G: Turns + Drop> Line<G> {
    /// How many packets are sent and not collected.
    pub fn left(&self) -> usize
        ensures { result ≡ length self.now.order.items }
    {
        self.order.len()
    }

    /// The time of the last handled packet that was collected, in nanoseconds: 0 before the first.
    pub fn time(&self) -> u64
        ensures { result ≡ self.now.time }
    {
        self.time
    }

    /// Whether a packet can be sent to a queue: fewer than 64 of it are in flight, and fewer than 1,024 of
    /// all. So it can where none is.
    pub fn has_room(&self, queue: u32) -> bool
        requires { queue < length self.now.queue_workers }
        ensures yes { result ≡ true → HasRoom self.now queue }
        ensures all { HasRoom self.now queue → result ≡ true }
        ensures none { length self.now.order.items ≡ 0 → result ≡ true }
    {
        self.order.len() < ALL_IN_FLIGHT && self.queue_workers.item(queue as usize).has_room()
    }

    /// Sends a packet to its queue, where there is room.
    pub fn send<R: Wait>(&mut self, rt: &R, queue: u32, packet: &Packet)
        requires queue { queue < length self.old.queue_workers }
        requires room { HasRoom self.old queue }
        ensures stands { (x : Setup) → (packets : List arrival.Packet) →
            (got : List got.Collected) → LineStands self.old x packets got →
            CanHandle x.function packet.now → x.queue packet.now ≡ queue →
            LineStands self.new x (packets ++ packet.now ∷ []) got }
        ensures queues { length self.new.queue_workers ≡ length self.old.queue_workers }
        ensures left { length self.new.order.items ≡ length self.old.order.items + 1 }
    {
        self.queue_workers.item_mut(queue as usize).send(rt, packet);
        self.order.push_back_reserved(queue);
    }

    /// The queue of the first packet that was sent and not collected.
    fn first(&self) -> u32
        requires { 0 < length self.now.order.items }
        ensures first { ComesFirst result self.now.order.items }
        ensures there { result < length self.now.queue_workers }
    {
        self.order[0]
    }

    /// Whether the answer to the first packet that was sent and not collected lies ready. It doesn't wait.
    #[inline(always)]
    pub fn is_ready(&self) -> bool
        ensures yes { result ≡ true → LineHasAnswer self.now }
        ensures all { LineHasAnswer self.now → result ≡ true }
    {
        if self.order.is_empty() {
            return false;
        }
        let queue = self.first();
        self.queue_workers.item(queue as usize).is_ready()
    }

    /// What has come of the first packet, which is of this queue.
    fn come_of(&self, queue: u32) -> Option<First>
        requires first { ComesFirst queue self.now.order.items }
        requires there { queue < length self.now.queue_workers }
        ensures { IfSome result (λ first. IsFirst first self.now) }
    {
        match self.queue_workers.item(queue as usize).next() {
            Next::Ready => Some(First::Answer),
            Next::Halted(halt) => {
                let Halt { chain, packet } = halt;
                Some(First::Stop(Stop {
                    chain,
                    queue,
                    packet,
                }))
            }
            Next::Nothing => None,
        }
    }

    /// Waits until something has come of the first packet that was sent and not collected: its answer, which
    /// `answer` lends and `pass` goes on behind; or its share's end, which is told again each time.
    pub fn await_first<R: Wait>(&mut self, rt: &R) -> First
        requires { 0 < length self.old.order.items }
        ensures first { IsFirst result self.new }
        ensures stands { (x : Setup) → (packets : List arrival.Packet) →
            (got : List got.Collected) → LineStands self.old x packets got →
            LineStands self.new x packets got }
        ensures order { self.new.order ≡ self.old.order }
        ensures queues { length self.new.queue_workers ≡ length self.old.queue_workers }
    {
        let queue = self.first();
        for _ in rt.forever() {
            match self.come_of(queue) {
                Some(first) => return first,
                None => self.wait(rt, queue),
            }
        }
        unreachable!()
    }

    /// The answer to the first packet that was sent and not collected, where it lies.
    #[inline(always)]
    pub fn answer(&self) -> CollectedRef<'_>
        requires { LineHasAnswer self.now }
        ensures { LineFirstAnswer self.now
            (record {
              packet = result.packet.now;
              queue = result.queue;
              done = done_told result.told;
            }) }
    {
        let queue = self.first();
        let answer = self.queue_workers.item(queue as usize).answer();
        CollectedRef {
            packet: answer.packet,
            queue,
            told: answer.told,
        }
    }

    /// Goes on behind the answer to the first packet that was sent and not collected: it is collected.
    #[inline(always)]
    pub fn pass(&mut self)
        requires { LineHasAnswer self.old }
        ensures stands { (x : Setup) → (packets : List arrival.Packet) →
            (one : got.Collected) → (got : List got.Collected) →
            LineStands self.old x packets got → LineFirstAnswer self.old one →
            LineStands self.new x packets (got ++ one ∷ []) }
        ensures left { length self.old.order.items ≡ length self.new.order.items + 1 }
        ensures queues { length self.new.queue_workers ≡ length self.old.queue_workers }
    {
        let answer = self.answer();
        let queue = answer.queue;
        let time = time_after(self.time, answer.packet);
        self.queue_workers.item_mut(queue as usize).pass();
        self.order.pop_front();
        self.time = time;
    }

    /// Collects the answer that lies ready.
    fn take(&mut self) -> Collected
        requires { LineHasAnswer self.old }
        ensures stands { (x : Setup) → (packets : List arrival.Packet) →
            (got : List got.Collected) → LineStands self.old x packets got →
            LineStands self.new x packets (got ++ result ∷ []) }
        ensures left { length self.old.order.items ≡ length self.new.order.items + 1 }
        ensures queues { length self.new.queue_workers ≡ length self.old.queue_workers }
    {
        let collected = copy_of(self.answer());
        self.pass();
        collected
    }

    /// The answer to the first packet that was sent and not collected; or its share's end, which is told
    /// again each time. It waits until that has come.
    pub fn collect<R: Wait>(&mut self, rt: &R) -> Answered
        requires { 0 < length self.old.order.items }
        ensures collects { (x : Setup) → (packets : List arrival.Packet) →
            (got : List got.Collected) → LineStands self.old x packets got →
            Collects result self.new x packets got }
        ensures left { IsCollected result self.old self.new }
        ensures queues { length self.new.queue_workers ≡ length self.old.queue_workers }
    {
        match self.await_first(rt) {
            First::Answer => Answered::Done(self.take()),
            First::Stop(stop) => Answered::Stop(stop),
        }
    }

    /// Takes more answers of a queue. Before it waits all packets go out: a worker may be held up by
    /// another.
    fn wait<R: Wait>(&mut self, rt: &R, queue: u32)
        requires { queue < length self.old.queue_workers }
        ensures stands { (x : Setup) → (packets : List arrival.Packet) →
            (got : List got.Collected) → LineStands self.old x packets got →
            LineStands self.new x packets got }
        ensures order { self.new.order ≡ self.old.order }
        ensures queues { length self.new.queue_workers ≡ length self.old.queue_workers }
    {
        if !self.poll(queue) {
            self.flush(rt);
            self.turn(rt, queue);
        }
    }

    /// Takes more answers of a queue, where they have come; and tells whether it did.
    fn poll(&mut self, queue: u32) -> bool
        requires { queue < length self.old.queue_workers }
        ensures stands { (x : Setup) → (packets : List arrival.Packet) →
            (got : List got.Collected) → LineStands self.old x packets got →
            LineStands self.new x packets got }
        ensures order { self.new.order ≡ self.old.order }
        ensures queues { length self.new.queue_workers ≡ length self.old.queue_workers }
    {
        self.queue_workers.item_mut(queue as usize).poll()
    }

    /// Waits for more answers of a queue.
    fn turn<R: Wait>(&mut self, rt: &R, queue: u32)
        requires { queue < length self.old.queue_workers }
        ensures stands { (x : Setup) → (packets : List arrival.Packet) →
            (got : List got.Collected) → LineStands self.old x packets got →
            LineStands self.new x packets got }
        ensures order { self.new.order ≡ self.old.order }
        ensures queues { length self.new.queue_workers ≡ length self.old.queue_workers }
    {
        self.queue_workers.item_mut(queue as usize).turn(rt);
    }

    /// All packets go out that were not handed out yet.
    fn flush<R: Wait>(&mut self, rt: &R)
        ensures stands { (x : Setup) → (packets : List arrival.Packet) →
            (got : List got.Collected) → LineStands self.old x packets got →
            LineStands self.new x packets got }
        ensures order { self.new.order ≡ self.old.order }
        ensures queues { length self.new.queue_workers ≡ length self.old.queue_workers }
    {
        for queue in 0..self.queue_workers.len() {
            self.queue_workers.item_mut(queue).flush(rt);
        }
    }
}

/// All that a packet came to.
fn whole_of(told: Told<'_>) -> Done
    ensures { result ≡ done_told told.entry }
{
    match told {
        Told::Plain(action) => plain(action),
        Told::Whole(done) => Done {
            action: done.action,
            edits: done.edits,
            picks: done.picks.again(),
        },
    }
}

/// An answer of its own.
fn copy_of(answer: CollectedRef<'_>) -> Collected
    ensures { result ≡ record {
      packet = answer.entry.packet.now;
      queue = answer.entry.queue;
      done = done_told answer.entry.told;
    } }
{
    Collected {
        packet: *answer.packet,
        queue: answer.queue,
        done: whole_of(answer.told),
    }
}

/// The time of the last handled packet, in nanoseconds, after one more packet.
fn time_after(time: u64, packet: &Packet) -> u64
    ensures { result ≡ time_after time packet.now }
{
    match packet.fields {
        Some(_) => packet.time,
        None => time,
    }
}
