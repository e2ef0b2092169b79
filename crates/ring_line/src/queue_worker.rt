//! A worker, in a thread of its own where one can be started.
ghost use Rattle.std.specs.Prelude.{◌≡◌, ◌<◌, ◌+◌, true, List, [], ◌∷◌, ◌++◌, IfOk};
ghost use Rattle.nf_base.specs.declared.packet.Packet as arrival;
ghost use Rattle.nf_base.specs.declared.share.Share.{Share};
ghost use Rattle.nf_base.specs.Functions.{function_of};
ghost use Rattle.nf_base.specs.Text.{Function};
ghost use Rattle.vig_tables.specs.TablesState.{opened_tables};
ghost use Rattle.shard_machine.specs.declared.event.Answer as answer;
ghost use Rattle.short_answers.specs.Answers.{done_told};
ghost use Rattle.ring_line.specs.Handed.{IsNext, Finishes};
ghost use Rattle.ring_line.specs.QueueWorkers.{QueueWorkerStands, QueueWorkerHasAnswer, QueueWorkerFirstAnswer, QueueWorkerHalted, in_flight_of, CanHandle};

use crate::inline_worker::InlineWorker;
use crate::pack::{AnswerRef, Pack};
use crate::thread_worker::start::{new_queue_handler, pack_pair};
use crate::thread_worker::{Next, ThreadWorker};
use nf_base::func::Func;
use nf_base::packet::Packet;
use nf_base::share::Share;
use nf_base::worker_turns::Turns;
use std::alloc::{AllocError, Global};
use std::sync::{Arc, Wait};
use std::thread::{Parker, Threads};
use vig_tables::Tables;

/// A worker of one queue, with the packets that were sent to it and not collected, 64 at most.
#[derive(Drop)]
pub enum QueueWorker<G> {
    /// It works in a thread of its own.
    Threaded(ThreadWorker),
    /// No thread could be started: it works when one would wait for it.
    Inline(InlineWorker<G>),
}

impl<G: Turns + Send + Sync + Drop + 'static> QueueWorker<G> {
    /// Starts a worker of a share of a function, with its opened tables. A pack goes out to it once it has
    /// so many packets, 64 at most, or when it is flushed.
    ///
    /// The bell is rung whenever a pack comes back. `turns` is told of each packet.
    pub fn start<R: Threads + Wait + Clone + Send + Drop + 'static>(
        rt: &R,
        alloc: Global,
        func: &Func,
        tables: Tables,
        share: Share,
        size: usize,
        turns: &Arc<G>,
        own_bell: &Arc<Parker>,
    ) -> Result<QueueWorker<G>, AllocError>
        requires { tables ≡ opened_tables (function_of func.now) share }
        ensures stands { IfOk result (λ queue_worker. QueueWorkerStands queue_worker (function_of func.now) share [] []) }
        ensures none { IfOk result (λ queue_worker. in_flight_of queue_worker ≡ 0) }
    {
        let text = func.copy(alloc)?;
        let started = ThreadWorker::start(rt, alloc, text, tables, share, size, turns, own_bell)?;
        match started {
            Some(thread_worker) => Ok(QueueWorker::Threaded(thread_worker)),
            None => QueueWorker::beside(alloc, func, share, turns),
        }
    }

    /// A worker without a thread, as where none can be started.
    pub fn beside(
        alloc: Global,
        func: &Func,
        share: Share,
        turns: &Arc<G>,
    ) -> Result<QueueWorker<G>, AllocError>
        ensures stands { IfOk result (λ queue_worker. QueueWorkerStands queue_worker (function_of func.now) share [] []) }
        ensures none { IfOk result (λ queue_worker. in_flight_of queue_worker ≡ 0) }
    {
        let text = func.copy(alloc)?;
        let (filling, current) = pack_pair(alloc)?;
        let tables = Tables::new(alloc, func, share)?;
        let queue_handler = new_queue_handler(text, tables, turns)?;
        Ok(QueueWorker::Inline(InlineWorker::new(queue_handler, filling, current)))
    }
}

impl<G: Turns + Drop> QueueWorker<G> {
    /// Whether fewer than 64 packets are in flight.
    pub fn has_room(&self) -> bool
        ensures yes { result ≡ true → in_flight_of self.now < 64 }
        ensures all { in_flight_of self.now < 64 → result ≡ true }
    {
        match self {
            QueueWorker::Threaded(thread_worker) => thread_worker.has_room(),
            QueueWorker::Inline(inline_worker) => inline_worker.has_room(),
        }
    }

    /// Sends a packet, which may wait in the pack that is being filled. It takes no memory.
    pub fn send<R: Wait>(&mut self, rt: &R, packet: &Packet)
        requires { in_flight_of self.old < 64 }
        ensures stands { (f : Function) → (share : Share) → (packets : List arrival.Packet) →
            (answers : List answer.Answer) → QueueWorkerStands self.old f share packets answers →
            CanHandle f packet.now →
            QueueWorkerStands self.new f share (packets ++ packet.now ∷ []) answers }
        ensures in_flight { in_flight_of self.new ≡ in_flight_of self.old + 1 }
    {
        match self {
            QueueWorker::Threaded(thread_worker) => thread_worker.send(rt, packet),
            QueueWorker::Inline(inline_worker) => inline_worker.send(packet),
        }
    }

    /// Hands the packets out that were not handed out yet.
    pub fn flush<R: Wait>(&mut self, rt: &R)
        ensures stands { (f : Function) → (share : Share) → (packets : List arrival.Packet) →
            (answers : List answer.Answer) → QueueWorkerStands self.old f share packets answers →
            QueueWorkerStands self.new f share packets answers }
        ensures in_flight { in_flight_of self.new ≡ in_flight_of self.old }
    {
        match self {
            QueueWorker::Threaded(thread_worker) => thread_worker.flush(rt),
            QueueWorker::Inline(_) => {}
        }
    }

    /// Whether an answer of those that came last lies ready, or the share ends behind all of them.
    pub fn next(&self) -> Next
        ensures { IsNext result (QueueWorkerHasAnswer self.now) (QueueWorkerHalted self.now) }
    {
        match self {
            QueueWorker::Threaded(thread_worker) => thread_worker.next(),
            QueueWorker::Inline(inline_worker) => inline_worker.next(),
        }
    }

    /// Whether an answer of those that came last lies ready.
    #[inline]
    pub fn is_ready(&self) -> bool
        ensures yes { result ≡ true → QueueWorkerHasAnswer self.now }
        ensures all { QueueWorkerHasAnswer self.now → result ≡ true }
    {
        match self {
            QueueWorker::Threaded(thread_worker) => thread_worker.is_ready(),
            QueueWorker::Inline(inline_worker) => inline_worker.is_ready(),
        }
    }

    /// The answer that lies ready.
    #[inline]
    pub fn answer(&self) -> AnswerRef<'_>
        requires { QueueWorkerHasAnswer self.now }
        ensures { QueueWorkerFirstAnswer self.now
            (record { packet = result.packet.now; done = done_told result.told }) }
    {
        match self {
            QueueWorker::Threaded(thread_worker) => thread_worker.answer(),
            QueueWorker::Inline(inline_worker) => inline_worker.answer(),
        }
    }

    /// Goes on behind the answer that lies ready: it is collected.
    pub fn pass(&mut self)
        requires { QueueWorkerHasAnswer self.old }
        ensures stands { (f : Function) → (share : Share) → (packets : List arrival.Packet) →
            (answers : List answer.Answer) → (one : answer.Answer) →
            QueueWorkerStands self.old f share packets answers →
            QueueWorkerFirstAnswer self.old one →
            QueueWorkerStands self.new f share packets (answers ++ one ∷ []) }
        ensures in_flight { in_flight_of self.old ≡ in_flight_of self.new + 1 }
    {
        match self {
            QueueWorker::Threaded(thread_worker) => thread_worker.pass(),
            QueueWorker::Inline(inline_worker) => inline_worker.pass(),
        }
    }

    /// Waits for more answers, where all that came are collected and the share goes on. The packets were
    /// handed out.
    pub fn turn<R: Wait>(&mut self, rt: &R)
        ensures stands { (f : Function) → (share : Share) → (packets : List arrival.Packet) →
            (answers : List answer.Answer) → QueueWorkerStands self.old f share packets answers →
            QueueWorkerStands self.new f share packets answers }
        ensures in_flight { in_flight_of self.new ≡ in_flight_of self.old }
    {
        match self {
            QueueWorker::Threaded(thread_worker) => thread_worker.turn(rt),
            QueueWorker::Inline(inline_worker) => inline_worker.turn(),
        }
    }

    /// Takes more answers, where all that came are collected and others have come; and tells whether it did.
    pub fn poll(&mut self) -> bool
        ensures stands { (f : Function) → (share : Share) → (packets : List arrival.Packet) →
            (answers : List answer.Answer) → QueueWorkerStands self.old f share packets answers →
            QueueWorkerStands self.new f share packets answers }
        ensures in_flight { in_flight_of self.new ≡ in_flight_of self.old }
    {
        match self {
            QueueWorker::Threaded(thread_worker) => thread_worker.poll(),
            QueueWorker::Inline(_) => false,
        }
    }

    /// Ends the worker once it has worked what was sent, and hands its tables out.
    pub fn finish<R: Threads + Wait>(self, rt: &R) -> Tables
        ensures { (f : Function) → (share : Share) → (packets : List arrival.Packet) →
            (answers : List answer.Answer) → QueueWorkerStands self f share packets answers →
            Finishes (QueueWorkerHalted self) f share packets answers result }
    {
        match self {
            QueueWorker::Threaded(thread_worker) => thread_worker.finish(rt),
            QueueWorker::Inline(inline_worker) => inline_worker.finish(),
        }
    }
}
